//! The exported functions that make IIOP profiles and references of their parts, and that go from
//! the text of a reference to its octets and back. They take no handle.
ghost use Rattle.std.specs.Prelude.{◌≡◌, ◌∷◌, [], ◌⊎◌, Ok, Err, IfOk, IfErr};
ghost use Rattle.giop_cdr.specs.Layout.{is_countable, is_spellable};
ghost use Rattle.giop_ior.specs.Iiop.{iiop_layout, iiop_octets, iiop_of};
ghost use Rattle.giop_ior.specs.Ior.{ior_layout};
ghost use Rattle.giop_ior_text.specs.declared.ior_text_fault.IorTextFault.TheVariants.{NoMemory};
ghost use Rattle.giop_ior_text.specs.IorText.{ior_text_of, octets_of};
ghost use Rattle.giop_c.specs.MadeReferences.{ReadsOctets, WritesProfile, WritesReference, WritesText, profile_at};
ghost use Rattle.giop_c.specs.References.{ReadsTypeId};

use crate::act_fault::{ActFault, told_act};
use crate::client::copy_reference;
use crate::copying::copy_octets;
use crate::end_records::EndFault;
use crate::status::{FAULT, NO_MEMORY};
use giop_cdr::{EncodeFault, OctetList};
use giop_ior::{IiopProfile, Ior, Sequence, TaggedProfile, iiop_profile, ior_from_text};
use giop_ior_text::{IorTextFault, ior_octets_from_text, ior_octets_to_text};
use std::alloc::{AllocError, Global};

/// Copies the octets of an IIOP profile of version 1 and this minor version, without components:
/// big-endian, from the byte order on. It answers OK; SMALL, where the buffer has no room for them;
/// FAULT, where a null is in the host, or the host or the key is too long for its count; or
/// NO_MEMORY, only where it isn't.
#[unsafe(no_mangle)]
pub extern "C" fn giop_iiop_octets(
    alloc: Global,
    minor: u8,
    host: &[u8],
    port: u16,
    key: &[u8],
    buffer: &mut [u8],
    size: &mut usize,
) -> u32
    ensures { WritesProfile (profile_at minor host.now port key.now)
        buffer.old buffer.new size.old size.new result }
{
    if !is_profile(minor, host, port, key) {
        return FAULT;
    }
    match profile_of(alloc, minor, host, port, key) {
        Ok(profile) => copy_octets(Some(profile.octets.as_slice()), buffer, size),
        Err(_) => NO_MEMORY,
    }
}

/// Copies the text of the reference of this type id that has one IIOP profile, which is the one of
/// `giop_iiop_octets`. It answers OK; SMALL, where the buffer has no room for it; FAULT, where a null
/// is in the type id or the host, or one of the three or the profile is too long for its count; or
/// NO_MEMORY.
#[unsafe(no_mangle)]
pub extern "C" fn giop_iiop_reference(
    alloc: Global,
    type_id: &[u8],
    minor: u8,
    host: &[u8],
    port: u16,
    key: &[u8],
    buffer: &mut [u8],
    size: &mut usize,
) -> u32
    ensures { WritesReference type_id.now (profile_at minor host.now port key.now)
        buffer.old buffer.new size.old size.new result }
{
    if !is_text(type_id) || !is_profile(minor, host, port, key) {
        return FAULT;
    }
    let Ok(profile) = profile_of(alloc, minor, host, port, key) else {
        return NO_MEMORY;
    };
    match reference_of(alloc, type_id, profile) {
        Ok(ior) => copy_reference(alloc, Some(&ior), buffer, size),
        Err(_) => NO_MEMORY,
    }
}

// Whether octets are a string's, and few enough for their count.
fn is_text(octets: &[u8]) -> bool
    ensures { result ≡ is_spellable octets.now }
{
    octets.len() < u32::MAX as usize && !octets.contains(&0)
}

// Whether octets are few enough for the count of a sequence.
fn is_countable(octets: &[u8]) -> bool
    ensures { result ≡ is_countable octets.now }
{
    octets.len() <= u32::MAX as usize
}

// Whether the profile of these can be written. It takes no memory.
#[tactic(auto, unfolding(giop_ior::specs::Iiop::iiop_layout, giop_ior::specs::Iiop::major_version, giop_ior::specs::Iiop::components_of, giop_ior::specs::Iiop::no_components, giop_ior::specs::Iiop::tagged_component, giop_cdr::specs::Layout::chosen, giop_cdr::specs::Layout::sequence, giop_cdr::specs::Layout::field, giop_cdr::specs::Layout::such, giop_cdr::specs::Layout::number, giop_cdr::specs::Layout::octets, giop_cdr::specs::Layout::text, giop_cdr::specs::Layout::gives))]
fn is_profile(minor: u8, host: &[u8], port: u16, key: &[u8]) -> bool
    ensures { result ≡ iiop_layout.fits (profile_at minor host.now port key.now) }
{
    is_text(host) && is_countable(key)
}

// The profile of these, with the tag of IIOP.
fn profile_of(
    alloc: Global,
    minor: u8,
    host: &[u8],
    port: u16,
    key: &[u8],
) -> Result<TaggedProfile, EncodeFault>
    ensures value { IfOk result (λ profile. profile ≡ record {
      tag = 0;
      octets = iiop_octets (profile_at minor host.now port key.now);
    }) }
    ensures back { IfOk result
        (λ profile. iiop_of profile.octets ≡ Ok (profile_at minor host.now port key.now)) }
{
    let profile = IiopProfile {
        major: 1,
        minor,
        host: OctetList::from_slice(alloc, host)?,
        port,
        key: OctetList::from_slice(alloc, key)?,
        components: Sequence::new(alloc),
    };
    iiop_profile(alloc, &profile)
}

// A reference of one profile.
fn reference_of(alloc: Global, type_id: &[u8], profile: TaggedProfile) -> Result<Ior, AllocError>
    ensures { IfOk result (λ ior. ior ≡ record { type_id = type_id.now; profiles = profile ∷ [] }) }
{
    let mut profiles = Vec::with_capacity(alloc, 1)?;
    profiles.push(profile)?;
    Ok(Ior {
        type_id: OctetList::from_slice(alloc, type_id)?,
        profiles: Sequence::from(profiles),
    })
}

/// Copies the type id of a reference, which is given as its text. It answers OK; SMALL, where the
/// buffer has no room for it; or FAULT or NO_MEMORY, and writes the fault.
#[unsafe(no_mangle)]
pub extern "C" fn giop_reference_type_id(
    alloc: Global,
    text: &[u8],
    buffer: &mut [u8],
    size: &mut usize,
    fault: &mut EndFault,
) -> u32
    ensures { ReadsTypeId text.now buffer.old buffer.new size.old size.new
        fault.old fault.new result }
{
    match ior_from_text(alloc, text) {
        Ok(ior) => copy_octets(Some(ior.type_id.as_slice()), buffer, size),
        Err(why) => told_act(Err(ActFault::Reference(why)), fault),
    }
}

/// Copies the octets that the text of a reference says, from the byte order on. It answers OK; SMALL,
/// where the buffer has no room for them; or FAULT or NO_MEMORY, and writes the fault.
#[unsafe(no_mangle)]
pub extern "C" fn giop_reference_octets(
    alloc: Global,
    text: &[u8],
    buffer: &mut [u8],
    size: &mut usize,
    fault: &mut EndFault,
) -> u32
    ensures { ReadsOctets text.now buffer.old buffer.new size.old size.new
        fault.old fault.new result }
{
    match read_octets(alloc, text) {
        Ok((_ior, octets)) => copy_octets(Some(octets.as_slice()), buffer, size),
        Err(why) => told_act(Err(ActFault::Reference(why)), fault),
    }
}

// The reference that a text is, and the octets that it says.
fn read_octets(alloc: Global, text: &[u8]) -> Result<(Ior, Vec<u8>), IorTextFault>
    ensures ok { IfOk result (λ read. (ior_text_of ior_layout.read text.now ≡ Ok read.0)
        × (octets_of text.now ≡ Ok read.1.items)) }
    ensures err { IfErr result (λ e. (ior_text_of ior_layout.read text.now ≡ Err e)
        ⊎ (e ≡ NoMemory)) }
{
    let ior = ior_from_text(alloc, text)?;
    let octets = octets_said(alloc, text)?;
    Ok((ior, octets))
}

// The octets that a text says.
#[tactic(auto, unfolding(giop_ior_text::specs::IorText::ior_text_of))]
fn octets_said(alloc: Global, text: &[u8]) -> Result<Vec<u8>, IorTextFault>
    ensures ok { IfOk result (λ octets. octets_of text.now ≡ Ok octets.items) }
    ensures err { IfErr result (λ e. (ior_text_of ior_layout.read text.now ≡ Err e)
        ⊎ (e ≡ NoMemory)) }
{
    ior_octets_from_text(alloc, text)
}

/// Copies the text that says the octets of a reference, which are given from the byte order on. It
/// answers OK; SMALL, where the buffer has no room for it; or FAULT or NO_MEMORY, and writes the
/// fault.
#[unsafe(no_mangle)]
pub extern "C" fn giop_reference_text(
    alloc: Global,
    octets: &[u8],
    buffer: &mut [u8],
    size: &mut usize,
    fault: &mut EndFault,
) -> u32
    ensures { WritesText octets.now buffer.old buffer.new size.old size.new
        fault.old fault.new result }
{
    let Ok(text) = ior_octets_to_text(alloc, octets) else {
        return told_act(Err(ActFault::Reference(IorTextFault::NoMemory)), fault);
    };
    match ior_from_text(alloc, text.as_bytes()) {
        Ok(_ior) => copy_octets(Some(text.as_bytes()), buffer, size),
        Err(why) => told_act(Err(ActFault::Reference(why)), fault),
    }
}
