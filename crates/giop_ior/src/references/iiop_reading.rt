//! An IIOP profile read from the octets of a tagged profile (CORBA 3.3 Part 2, 9.7.2): viewed
//! first, then copied. The fields are those of `specs/Iiop.antt`, in its order: to add a field,
//! change both.
ghost use Rattle.std.specs.Prelude.{◌≡◌, ◌≤◌, ◌^◌, ◌⊎◌, length, Ok, Err, IfOk, IfErr, IsOk};
ghost use Rattle.giop_cdr.specs.Reading.Outcome.{Exactly};
ghost use Rattle.giop_cdr.specs.Layout.{sequence};
ghost use Rattle.giop_ior.specs.Iiop.{ExactlyAs, tagged_component, major_version, components_of, iiop_layout, IiopOctets, IsAnswered, order_in, iiop_of, no_memory, listed, profile_view};

use crate::references::profile::IiopProfile;
use crate::references::sequence::Sequence;
use crate::references::tagged_profile::{TaggedComponent, TaggedProfile};
use giop_cdr::{CdrFault, CdrIn, CdrKind, OctetsAt, Order, SliceOctets, TaggedListAt};
use std::alloc::{AllocError, Global};

type Lies<'a, 's> = OctetsAt<'a, SliceOctets<'s>>;

type ComponentsAt<'a, 's> = TaggedListAt<'a, SliceOctets<'s>, TaggedComponent>;

// A profile whose octets lie where they were read, without components in version 1.0.
type ProfileAt<'a, 's> = IiopProfile<Lies<'a, 's>, Option<ComponentsAt<'a, 's>>>;

/// The profile that a profile of tag 0 holds: `profile_body` of its octets.
pub fn iiop_view(alloc: Global, profile: &TaggedProfile) -> Result<IiopProfile, CdrFault>
    requires tag { profile.now.tag ≡ 0 }
    requires short { length profile.now.octets ≤ 2 ^ 62 }
    // What is returned is what the octets are, and what they are is returned.
    ensures found { IfOk result (λ p. IiopOctets p profile.now.octets) }
    ensures only { (p : _) → IiopOctets p profile.now.octets → IsAnswered result p }

    // Which refusal it is.
    ensures exact { IfOk result (λ p. iiop_of profile.now.octets ≡ Ok p) }
    ensures err { IfErr result (λ e. (iiop_of profile.now.octets ≡ Err e)
        ⊎ ((e ≡ no_memory) × IsOk (iiop_of profile.now.octets))) }
{
    profile_body(alloc, profile.octets.as_slice())
}

/// The profile that the octets of tag 0 are, `profile_data` of the standard (CORBA 3.3 Part 2,
/// 9.7.2), read where they lie. Octets behind the last field are passed over.
///
/// Refused as the first field that is refused, in reading order. Its offset counts from the first
/// octet, which is the byte order. That one is refused as Short or BadOrder at 0, a major version
/// other than 1 as BadLabel at 1, each other field as its own reader says. When out of memory, for
/// octets that no field refuses, it is NoMemory at 0.
pub fn profile_body(alloc: Global, octets: &[u8]) -> Result<IiopProfile, CdrFault>
    requires short { length octets.now ≤ 2 ^ 62 }
    // What is returned is what the octets are, and what they are is returned.
    ensures found { IfOk result (λ p. IiopOctets p octets.now) }
    ensures only { (p : _) → IiopOctets p octets.now → IsAnswered result p }

    // Which refusal it is.
    ensures exact { IfOk result (λ p. iiop_of octets.now ≡ Ok p) }
    ensures err { IfErr result (λ e. (iiop_of octets.now ≡ Err e)
        ⊎ ((e ≡ no_memory) × IsOk (iiop_of octets.now))) }
{
    iiop_of(alloc, octets)
}

#[tactic(auto, unfolding(crate::specs::Iiop::iiop_of))]
fn iiop_of(alloc: Global, octets: &[u8]) -> Result<IiopProfile, CdrFault>
    requires { length octets.now ≤ 2 ^ 62 }
    ensures value { IfOk result (λ p. iiop_of octets.now ≡ Ok p) }
    ensures err { IfErr result (λ e. (iiop_of octets.now ≡ Err e)
        ⊎ ((e ≡ no_memory) × IsOk (iiop_of octets.now))) }
{
    let order = order_in(octets)?;
    let content = SliceOctets::new(&octets[1..]);
    let view = view_profile(&mut CdrIn::new(&content, order, 1))?;
    match to_owned(alloc, &view) {
        Ok(profile) => Ok(profile),
        Err(_) => Err(CdrFault {
            at: 0,
            kind: CdrKind::NoMemory,
        }),
    }
}

fn order_in(octets: &[u8]) -> Result<Order, CdrFault>
    ensures { result ≡ order_in octets.now }
{
    if octets.is_empty() {
        return Err(CdrFault {
            at: 0,
            kind: CdrKind::Short,
        });
    }
    match octets[0] {
        0 => Ok(Order::Big),
        1 => Ok(Order::Little),
        _ => Err(CdrFault {
            at: 0,
            kind: CdrKind::BadOrder,
        }),
    }
}

#[tactic(auto, unfolding(crate::specs::Iiop::major_version, giop_cdr::specs::Layout::such, giop_cdr::specs::Layout::number, giop_cdr::specs::Reading::Values::such_at))]
fn read_major(input: &mut CdrIn<SliceOctets>) -> Result<u8, CdrFault>
    ensures { Exactly result input.new (major_version.read input.old) }
{
    let at = input.place::<1>();
    let major = input.read_octet()?;
    if major != 1 {
        return Err(CdrFault {
            at,
            kind: CdrKind::BadLabel,
        });
    }
    Ok(major)
}

#[tactic(auto, unfolding(crate::specs::Iiop::tagged_component, giop_cdr::specs::Layout::field, giop_cdr::specs::Layout::number, giop_cdr::specs::Layout::octets, giop_cdr::specs::Layout::sequence, giop_cdr::specs::Layout::tagged, giop_cdr::specs::Layout::gives, giop_cdr::specs::Reading::View::tagged_at))]
fn view_sequence<'a, 's>(
    input: &mut CdrIn<'a, SliceOctets<'s>>,
) -> Result<ComponentsAt<'a, 's>, CdrFault>
    ensures { Exactly result input.new ((sequence tagged_component).read input.old) }
{
    input.view_tagged_list()
}

#[tactic(auto, unfolding(crate::specs::Iiop::components_of, crate::specs::Iiop::no_components, giop_cdr::specs::Layout::chosen), using(crate::proofs::IiopLemmas::components_read))]
fn view_components<'a, 's>(
    minor: u8,
    input: &mut CdrIn<'a, SliceOctets<'s>>,
) -> Result<Option<ComponentsAt<'a, 's>>, CdrFault>
    ensures { ExactlyAs listed result input.new ((components_of minor).read input.old) }
{
    if minor == 0 {
        return Ok(None);
    }
    let components = view_sequence(input)?;
    Ok(Some(components))
}

// The fields in their order.
#[tactic(auto, unfolding(crate::specs::Iiop::iiop_layout, giop_cdr::specs::Layout::field, giop_cdr::specs::Layout::number, giop_cdr::specs::Layout::octets, giop_cdr::specs::Layout::text, giop_cdr::specs::Layout::gives))]
fn view_profile<'a, 's>(
    input: &mut CdrIn<'a, SliceOctets<'s>>,
) -> Result<ProfileAt<'a, 's>, CdrFault>
    ensures { ExactlyAs profile_view result input.new (iiop_layout.read input.old) }
{
    let major = read_major(input)?;
    let minor = input.read_octet()?;
    let host = input.view_string(0)?;
    let port = input.read_ushort()?;
    let key = input.view_octets(0)?;
    let components = view_components(minor, input)?;
    Ok(IiopProfile {
        major,
        minor,
        host,
        port,
        key,
        components,
    })
}

fn owned_components(
    alloc: Global,
    components: &Option<ComponentsAt>,
) -> Result<Sequence<TaggedComponent>, AllocError>
    ensures { IfOk result (λ own. own ≡ listed components.now) }
{
    match components {
        Some(components) => Ok(Sequence::from(components.to_vec(alloc)?)),
        None => Ok(Sequence::new(alloc)),
    }
}

// A copy of the profile, which owns its octets and components.
fn to_owned(alloc: Global, view: &ProfileAt) -> Result<IiopProfile, AllocError>
    ensures { IfOk result (λ own. own ≡ profile_view view.now) }
{
    Ok(IiopProfile {
        major: view.major,
        minor: view.minor,
        host: view.host.to_list(alloc)?,
        port: view.port,
        key: view.key.to_list(alloc)?,
        components: owned_components(alloc, &view.components)?,
    })
}
