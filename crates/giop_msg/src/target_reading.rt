//! Reading the target of a Request or a LocateRequest (9.4.2.1). The layout is specs/Target.antt,
//! and target_writing.rt writes it: change them together.
#![tactic(auto, unfolding(crate::specs::Target::target_layout, crate::specs::Target::target_by, crate::specs::Target::disposition, crate::specs::Target::key_target, crate::specs::Target::profile_target, crate::specs::Target::reference_target, crate::specs::Target::object_key, crate::specs::Meaning::meaning, giop_ior::specs::Ior::tagged_profile, giop_cdr::specs::Layout::chosen, giop_cdr::specs::Layout::field, giop_cdr::specs::Layout::such, giop_cdr::specs::Layout::number, giop_cdr::specs::Layout::signed, giop_cdr::specs::Layout::octets, giop_cdr::specs::Layout::gives, giop_cdr::specs::Layout::tagged, giop_cdr::specs::Reading::Values::such_at))]

ghost use Rattle.std.specs.Prelude.{◌≡◌};
ghost use Rattle.giop_cdr.specs.Reading.Outcome.{Exactly, Follows};
ghost use Rattle.giop_ior.specs.Ior.{tagged_profile};
ghost use Rattle.giop_msg.specs.Target.{disposition, key_target, object_key, profile_target, reference_target, target_layout};

use crate::target::{ProfileAt, Target, TargetAt};
use giop_cdr::{CdrFault, CdrIn, CdrKind, OctetList, Octets};
use giop_ior::{TaggedProfile, read_ior, view_ior};
use std::alloc::Global;

// Reads the disposition of a target: 0, 1 or 2.
#[inline(always)]
fn read_disposition<S: Octets>(input: &mut CdrIn<S>) -> Result<i16, CdrFault>
    ensures { Exactly result input.new (disposition.read input.old) }
{
    let at = input.place::<2>();
    let disposition = input.read_short()?;
    if !matches!(disposition, 0 | 1 | 2) {
        return Err(CdrFault {
            at,
            kind: CdrKind::BadLabel,
        });
    }
    Ok(disposition)
}

#[inline(always)]
fn view_key<'a, S: Octets>(input: &mut CdrIn<'a, S>) -> Result<TargetAt<'a, S>, CdrFault>
    ensures { Exactly result input.new (key_target.read input.old) }
{
    let key = input.view_octets(0)?;
    Ok(Target::Key(key))
}

fn view_tagged_profile<'a, S: Octets>(
    input: &mut CdrIn<'a, S>,
) -> Result<ProfileAt<'a, S>, CdrFault>
    ensures { Exactly result input.new (tagged_profile.read input.old) }
{
    let tag = input.read_ulong()?;
    let octets = input.view_octets(0)?;
    Ok(ProfileAt { tag, octets })
}

fn view_profile<'a, S: Octets>(input: &mut CdrIn<'a, S>) -> Result<TargetAt<'a, S>, CdrFault>
    ensures { Exactly result input.new (profile_target.read input.old) }
{
    let profile = view_tagged_profile(input)?;
    Ok(Target::Profile(profile))
}

// Reads a profile target by a reader of its own, so that only inlined calls borrow the reader of
// the head.
#[inline(always)]
fn view_profile_ahead<'a, S: Octets>(input: &mut CdrIn<'a, S>) -> Result<TargetAt<'a, S>, CdrFault>
    ensures { Exactly result input.new (profile_target.read input.old) }
{
    let mut ahead = input.fork();
    let target = view_profile(&mut ahead)?;
    *input = ahead;
    Ok(target)
}

fn view_reference<'a, S: Octets>(input: &mut CdrIn<'a, S>) -> Result<TargetAt<'a, S>, CdrFault>
    ensures { Exactly result input.new (reference_target.read input.old) }
{
    let index = input.read_ulong()?;
    let ior = view_ior(input)?;
    Ok(Target::Reference { index, ior })
}

// Reads a reference target by a reader of its own, so that only inlined calls borrow the reader of
// the head.
#[inline(always)]
fn view_reference_ahead<'a, S: Octets>(
    input: &mut CdrIn<'a, S>,
) -> Result<TargetAt<'a, S>, CdrFault>
    ensures { Exactly result input.new (reference_target.read input.old) }
{
    let mut ahead = input.fork();
    let target = view_reference(&mut ahead)?;
    *input = ahead;
    Ok(target)
}

// Reads a target of 1.2: the disposition, and what follows by it.
#[inline(always)]
pub(crate) fn view_target<'a, S: Octets>(
    input: &mut CdrIn<'a, S>,
) -> Result<TargetAt<'a, S>, CdrFault>
    ensures { Exactly result input.new (target_layout.read input.old) }
{
    match read_disposition(input)? {
        0 => view_key(input),
        1 => view_profile_ahead(input),
        _ => view_reference_ahead(input),
    }
}

// Reads a key with a copy of its octets.
#[inline(always)]
fn read_key<S: Octets>(alloc: Global, input: &mut CdrIn<S>) -> Result<Target, CdrFault>
    ensures { Follows (λ target. target) result input.new (key_target.read input.old) }
{
    let key = input.read_octets(alloc, 0)?;
    Ok(Target::Key(OctetList::from(key)))
}

fn read_tagged_profile<S: Octets>(
    alloc: Global,
    input: &mut CdrIn<S>,
) -> Result<TaggedProfile, CdrFault>
    ensures { Follows (λ profile. profile) result input.new (tagged_profile.read input.old) }
{
    let tag = input.read_ulong()?;
    let octets = input.read_octets(alloc, 0)?;
    Ok(TaggedProfile {
        tag,
        octets: OctetList::from(octets),
    })
}

fn read_profile<S: Octets>(alloc: Global, input: &mut CdrIn<S>) -> Result<Target, CdrFault>
    ensures { Follows (λ target. target) result input.new (profile_target.read input.old) }
{
    let profile = read_tagged_profile(alloc, input)?;
    Ok(Target::Profile(profile))
}

fn read_reference<S: Octets>(alloc: Global, input: &mut CdrIn<S>) -> Result<Target, CdrFault>
    ensures { Follows (λ target. target) result input.new (reference_target.read input.old) }
{
    let index = input.read_ulong()?;
    let ior = read_ior(alloc, input)?;
    Ok(Target::Reference { index, ior })
}

// Reads a profile target by a reader of its own, as `view_profile_ahead` does.
#[inline(always)]
fn read_profile_ahead<S: Octets>(alloc: Global, input: &mut CdrIn<S>) -> Result<Target, CdrFault>
    ensures { Follows (λ target. target) result input.new (profile_target.read input.old) }
{
    let mut ahead = input.fork();
    let target = read_profile(alloc, &mut ahead)?;
    *input = ahead;
    Ok(target)
}

// Reads a reference target by a reader of its own, as `view_reference_ahead` does.
#[inline(always)]
fn read_reference_ahead<S: Octets>(alloc: Global, input: &mut CdrIn<S>) -> Result<Target, CdrFault>
    ensures { Follows (λ target. target) result input.new (reference_target.read input.old) }
{
    let mut ahead = input.fork();
    let target = read_reference(alloc, &mut ahead)?;
    *input = ahead;
    Ok(target)
}

// Reads a target of 1.2 with copies of its octets: the disposition, and what follows by it.
#[inline(always)]
pub(crate) fn read_target<S: Octets>(
    alloc: Global,
    input: &mut CdrIn<S>,
) -> Result<Target, CdrFault>
    ensures { Follows (λ target. target) result input.new (target_layout.read input.old) }
{
    match read_disposition(input)? {
        0 => read_key(alloc, input),
        1 => read_profile_ahead(alloc, input),
        _ => read_reference_ahead(alloc, input),
    }
}

// Reads a target before 1.2: an object key.
#[inline(always)]
pub(crate) fn view_object_key<'a, S: Octets>(
    input: &mut CdrIn<'a, S>,
) -> Result<TargetAt<'a, S>, CdrFault>
    ensures { Exactly result input.new (object_key.read input.old) }
{
    let key = input.view_octets(0)?;
    Ok(Target::Key(key))
}
