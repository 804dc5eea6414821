//! Writing the target of a Request or a LocateRequest (9.4.2.1). The layout is specs/Target.antt,
//! and target_reading.rt reads it: change them together.
#![tactic(auto, unfolding(crate::specs::Target::target_layout, crate::specs::Target::target_by, crate::specs::Target::disposition, crate::specs::Target::key_target, crate::specs::Target::profile_target, crate::specs::Target::reference_target, crate::specs::Target::object_key, crate::specs::Meaning::meaning, giop_ior::specs::Ior::tagged_profile, giop_cdr::specs::Layout::chosen, giop_cdr::specs::Layout::field, giop_cdr::specs::Layout::such, giop_cdr::specs::Layout::number, giop_cdr::specs::Layout::signed, giop_cdr::specs::Layout::octets, giop_cdr::specs::Layout::gives, giop_cdr::specs::Layout::tagged), using(giop_cdr::proofs::Writing::WriterLemmas::grows_then, giop_cdr::proofs::Writing::WriterLemmas::grows_not))]

ghost use Rattle.std.specs.Prelude.{◌≡◌, true, OnOk};
ghost use Rattle.giop_cdr.specs.Layout.{is_countable};
ghost use Rattle.giop_cdr.specs.Writing.Outcome.{Appends};
ghost use Rattle.giop_ior.specs.Ior.{ior_layout, tagged_profile};
ghost use Rattle.giop_msg.specs.Target.{object_key, target_layout};

use crate::target::Target;
use giop_cdr::CdrOut;
use giop_ior::{Ior, TaggedProfile, write_ior};
use std::alloc::AllocError;

fn is_countable(octets: &[u8]) -> bool
    ensures { result ≡ is_countable octets.now }
{
    octets.len() <= u32::MAX as usize
}

// Whether octets spell the target in 1.2.
pub(crate) fn is_writable_target(target: &Target) -> bool
    ensures { result ≡ target_layout.fits target.now }
{
    match target {
        Target::Key(key) => is_countable(key.as_slice()),
        Target::Profile(profile) => is_countable(profile.octets.as_slice()),
        Target::Reference { index: _, ior } => ior.is_writable(),
    }
}

// Whether octets spell the target before 1.2: a key alone.
pub(crate) fn is_writable_key(target: &Target) -> bool
    ensures { result ≡ object_key.fits target.now }
{
    match target {
        Target::Key(key) => is_countable(key.as_slice()),
        _ => false,
    }
}

fn append_profile(profile: &TaggedProfile, out: &mut CdrOut) -> Result<(), AllocError>
    requires { tagged_profile.fits profile.now ≡ true }
    ensures written { Appends out.old result out.new
        (tagged_profile.written profile.now out.old) }
    ensures held { OnOk result (tagged_profile.holds profile.now) }
{
    out.write_ulong(profile.tag)?;
    out.write_octets(profile.octets.as_slice())?;
    Ok(())
}

// Appends a reference that is writable, so that it is refused only when out of memory.
pub(crate) fn append_reference(ior: &Ior, out: &mut CdrOut) -> Result<(), AllocError>
    requires { ior_layout.fits ior.now ≡ true }
    ensures written { Appends out.old result out.new (ior_layout.written ior.now out.old) }
    ensures held { OnOk result (ior_layout.holds ior.now) }
{
    match write_ior(out, ior) {
        Ok(()) => Ok(()),
        Err(_) => Err(AllocError),
    }
}

// Appends a target of 1.2: the disposition, and what follows by it.
pub(crate) fn append_target(target: &Target, out: &mut CdrOut) -> Result<(), AllocError>
    requires { target_layout.fits target.now ≡ true }
    ensures written { Appends out.old result out.new
        (target_layout.written target.now out.old) }
    ensures held { OnOk result (target_layout.holds target.now) }
{
    match target {
        Target::Key(key) => {
            out.write_short(0)?;
            out.write_octets(key.as_slice())?;
        }
        Target::Profile(profile) => {
            out.write_short(1)?;
            append_profile(profile, out)?;
        }
        Target::Reference { index, ior } => {
            out.write_short(2)?;
            out.write_ulong(*index)?;
            append_reference(ior, out)?;
        }
    }
    Ok(())
}

// Appends a target before 1.2, which is a key.
pub(crate) fn append_key(target: &Target, out: &mut CdrOut) -> Result<(), AllocError>
    requires { object_key.fits target.now ≡ true }
    ensures written { Appends out.old result out.new (object_key.written target.now out.old) }
    ensures held { OnOk result (object_key.holds target.now) }
{
    match target {
        Target::Key(key) => out.write_octets(key.as_slice()),
        _ => Ok(()),
    }
}
