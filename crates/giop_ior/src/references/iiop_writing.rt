//! An IIOP profile written as the octets of a tagged profile (CORBA 3.3 Part 2, 9.7.2), and whether
//! it can be. The fields are those of `specs/Iiop.antt`, in its order: to add a field, change both.
ghost use Rattle.std.specs.Prelude.{◌≡◌, ◌↔◌, false, true, ℕ, List, Ok, IfOk, IsErrOf, OnOk};
ghost use Rattle.giop_cdr.specs.declared.order.Order.{Order};
ghost use Rattle.giop_cdr.specs.Writing.Outcome.{Appends};
ghost use Rattle.giop_cdr.specs.Layout.{sequence, AreOctets};
ghost use Rattle.giop_ior.specs.Iiop.{tagged_component, components_of, iiop_layout, iiop_octets, iiop_of};

use crate::references::ior_writing::{append_tagged, are_writable, is_countable, is_text};
use crate::references::profile::IiopProfile;
use crate::references::tagged_profile::{TaggedComponent, TaggedProfile};
use giop_cdr::{CdrOut, EncodeFault, OctetList, Order};
use std::alloc::{AllocError, Global};

impl IiopProfile {
    /// Whether octets spell the profile: its major version is 1, in version 1.0 it has no
    /// components, no null is in the host, and each text and list is short enough for its count. It
    /// takes no memory.
    #[tactic(auto, unfolding(crate::specs::Iiop::iiop_layout, crate::specs::Iiop::major_version, giop_cdr::specs::Layout::field, giop_cdr::specs::Layout::such, giop_cdr::specs::Layout::number, giop_cdr::specs::Layout::octets, giop_cdr::specs::Layout::text, giop_cdr::specs::Layout::gives))]
    pub fn is_writable(&self) -> bool
        ensures { result ≡ iiop_layout.fits self.now }
    {
        self.major == 1
            && is_text(self.host.as_slice())
            && is_countable(self.key.as_slice())
            && are_components(self.minor, self.components.as_slice())
    }
}

/// The profile of tag 0 whose octets these are (CORBA 3.3 Part 2, 9.7.2): written big-endian,
/// without octets behind the last field.
///
/// Refused as Unfit where `is_writable` is false, and then no octets spell the profile; else as
/// NoMemory when out of memory.
#[tactic(auto, unfolding(crate::specs::Iiop::iiop_octets), using(crate::proofs::IiopLemmas::begun, crate::proofs::IiopLemmas::iiop_unspelled))]
pub fn iiop_profile(alloc: Global, profile: &IiopProfile) -> Result<TaggedProfile, EncodeFault>
    ensures tag { IfOk result (λ tagged. tagged.tag ≡ 0) }
    ensures value { IfOk result (λ tagged. tagged.octets ≡ iiop_octets profile.now) }
    ensures err { IsErrOf result EncodeFault.Unfit ↔ (iiop_layout.fits profile.now ≡ false) }
    ensures unfit { IsErrOf result EncodeFault.Unfit → (order : Order) (at : ℕ) (octets : List ℕ)
        → AreOctets octets → iiop_layout.spells order at profile.now octets → ⊥ }

    // What was written is in the ranges of its types, and is read as the profile again.
    ensures held { OnOk result (iiop_layout.holds profile.now) }
    ensures back { IfOk result (λ tagged. iiop_of tagged.octets ≡ Ok profile.now) }
{
    if !profile.is_writable() {
        return Err(EncodeFault::Unfit);
    }
    let mut out = CdrOut::new(alloc, Order::Big, 0);
    out.write_octet(0)?;
    append_profile(profile, &mut out)?;
    Ok(TaggedProfile {
        tag: 0,
        octets: OctetList::from(out.into_bytes()),
    })
}

#[tactic(auto, unfolding(crate::specs::Iiop::tagged_component))]
fn is_sequence(components: &[TaggedComponent]) -> bool
    ensures { result ≡ (sequence tagged_component).fits components.now }
{
    are_writable(components)
}

// Whether a profile of this minor version may have these components.
#[tactic(auto, unfolding(crate::specs::Iiop::components_of, crate::specs::Iiop::no_components, giop_cdr::specs::Layout::chosen), using(crate::proofs::IiopLemmas::components_fit))]
pub fn are_components(minor: u8, components: &[TaggedComponent]) -> bool
    ensures { result ≡ (components_of minor).fits components.now }
{
    if minor == 0 {
        return components.is_empty();
    }
    is_sequence(components)
}

#[tactic(auto, unfolding(crate::specs::Iiop::tagged_component))]
fn append_sequence(components: &[TaggedComponent], out: &mut CdrOut) -> Result<(), AllocError>
    requires { (sequence tagged_component).fits components.now ≡ true }
    ensures written { Appends out.old result out.new
        ((sequence tagged_component).written components.now out.old) }
    ensures held { OnOk result ((sequence tagged_component).holds components.now) }
{
    append_tagged(components, out)
}

#[tactic(auto, unfolding(crate::specs::Iiop::components_of, crate::specs::Iiop::no_components, giop_cdr::specs::Layout::chosen), using(crate::proofs::IiopLemmas::components_fit, crate::proofs::IiopLemmas::components_written, giop_cdr::proofs::Writing::WriterLemmas::grows_not))]
fn append_components(
    minor: u8,
    components: &[TaggedComponent],
    out: &mut CdrOut,
) -> Result<(), AllocError>
    requires { (components_of minor).fits components.now ≡ true }
    ensures written { Appends out.old result out.new
        ((components_of minor).written components.now out.old) }
    ensures held { OnOk result ((components_of minor).holds components.now) }
{
    if minor == 0 {
        return Ok(());
    }
    append_sequence(components, out)
}

// Appends the fields in their order. Out of memory, a part of them is left.
#[tactic(auto, unfolding(crate::specs::Iiop::iiop_layout, crate::specs::Iiop::major_version, giop_cdr::specs::Layout::field, giop_cdr::specs::Layout::such, giop_cdr::specs::Layout::number, giop_cdr::specs::Layout::octets, giop_cdr::specs::Layout::text, giop_cdr::specs::Layout::gives), using(giop_cdr::proofs::Writing::WriterLemmas::grows_then, giop_cdr::proofs::Writing::WriterLemmas::grows_not))]
fn append_profile(profile: &IiopProfile, out: &mut CdrOut) -> Result<(), AllocError>
    requires { iiop_layout.fits profile.now ≡ true }
    ensures written { Appends out.old result out.new (iiop_layout.written profile.now out.old) }
    ensures held { OnOk result (iiop_layout.holds profile.now) }
{
    out.write_octet(profile.major)?;
    out.write_octet(profile.minor)?;
    out.write_string(profile.host.as_slice())?;
    out.write_ushort(profile.port)?;
    out.write_octets(profile.key.as_slice())?;
    append_components(profile.minor, profile.components.as_slice(), out)?;
    Ok(())
}
