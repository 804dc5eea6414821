//! The exported functions that read references, corbalocs and IIOP profiles, out of the caller's
//! octets. They take no handle.
ghost use Rattle.std.specs.Prelude.{◌≡◌, ◌≤◌, ◌^◌, length, option_copied, Some};
ghost use Rattle.giop_ior.specs.Iiop.{iiop_of};
ghost use Rattle.giop_c.specs.References.{CopiesProfile, ReadsCorbaloc, ReadsIiopOrNot, ReadsProfile, WritesCorbaloc, c_corbaloc_fault, c_profile, corbaloc_status};

use crate::act_fault::{ActFault, told_act};
use crate::client::copy_reference;
use crate::copying::copy_octets;
use crate::end_records::EndFault;
use crate::records::{Fault, Profile};
use crate::request_calls::copy_both;
use crate::status::{FAULT, NO_MEMORY};
use giop_cdr::{CdrKind, EncodeFault};
use giop_ior::{
    Corbaloc, CorbalocFault, CorbalocKind, IiopProfile, TaggedProfile, corbaloc_from_text,
    ior_from_text, profile_body,
};
use std::alloc::Global;

/// Copies the octets of the profile at an index of a reference, the first at 0, and writes its tag.
/// The reference is given as its text. It answers OK; SMALL, where the buffer has no room for them;
/// WAITS, where there is no such profile; or FAULT or NO_MEMORY, and writes the fault.
#[unsafe(no_mangle)]
pub extern "C" fn giop_reference_profile(
    alloc: Global,
    text: &[u8],
    index: usize,
    tag: &mut u32,
    buffer: &mut [u8],
    size: &mut usize,
    fault: &mut EndFault,
) -> u32
    ensures { ReadsProfile text.now index tag.old tag.new buffer.old buffer.new size.old size.new
        fault.old fault.new result }
{
    match ior_from_text(alloc, text) {
        Ok(ior) => copy_profile(ior.profiles.as_slice().get(index), tag, buffer, size),
        Err(why) => told_act(Err(ActFault::Reference(why)), fault),
    }
}

// Writes the tag of a profile and copies its octets, where there is one.
fn copy_profile(
    profile: Option<&TaggedProfile>,
    tag: &mut u32,
    buffer: &mut [u8],
    size: &mut usize,
) -> u32
    ensures { CopiesProfile (option_copied profile.entry) tag.old tag.new
        buffer.old buffer.new size.old size.new result }
{
    match profile {
        Some(profile) => {
            *tag = profile.tag;
            copy_octets(Some(profile.octets.as_slice()), buffer, size)
        }
        None => copy_octets(None, buffer, size),
    }
}

/// Reads the octets of an IIOP profile, and copies its host and its key into the buffers. It answers
/// OK; SMALL, where one of them has no room, and copies nothing; FAULT, and writes the fault; or
/// NO_MEMORY, only where the octets are a profile, and writes nothing. With OK and SMALL the profile
/// is written.
///
/// Places are counted from the first of the octets, which is the byte order.
#[unsafe(no_mangle)]
pub extern "C" fn giop_iiop_profile(
    alloc: Global,
    octets: &[u8],
    profile: &mut Profile,
    host: &mut [u8],
    key: &mut [u8],
    fault: &mut Fault,
) -> u32
    requires { length octets.now ≤ 2 ^ 62 }
    ensures { ReadsIiopOrNot (iiop_of octets.now) profile.old profile.new host.old host.new
        key.old key.new fault.old fault.new result }
{
    match profile_body(alloc, octets) {
        Ok(read) => {
            *profile = written(&read);
            copy_both(read.host.as_slice(), read.key.as_slice(), host, key)
        }
        Err(refused) if refused.kind == CdrKind::NoMemory => NO_MEMORY,
        Err(refused) => {
            *fault = Fault::of_cdr(refused);
            FAULT
        }
    }
}

// What is written of a profile for C.
fn written(read: &IiopProfile) -> Profile
    ensures { result ≡ c_profile read.now }
{
    Profile {
        host: read.host.len(),
        key: read.key.len(),
        components: read.components.len(),
        port: read.port,
        minor: read.minor,
    }
}

/// Copies the text of the reference of a corbaloc, which is given as its text: an IIOP profile for
/// each address. It answers OK; SMALL, where the buffer has no room for it; FAULT, and writes the
/// fault; or NO_MEMORY.
#[unsafe(no_mangle)]
pub extern "C" fn giop_corbaloc_reference(
    alloc: Global,
    text: &[u8],
    buffer: &mut [u8],
    size: &mut usize,
    fault: &mut Fault,
) -> u32
    ensures { ReadsCorbaloc text.now buffer.old buffer.new size.old size.new
        fault.old fault.new result }
{
    match corbaloc_from_text(alloc, text) {
        Ok(corbaloc) => copy_corbaloc(alloc, &corbaloc, buffer, size, fault),
        Err(refused) => {
            *fault = fault_of(refused);
            status_of(refused.kind)
        }
    }
}

// Copies the text of a corbaloc's reference.
fn copy_corbaloc(
    alloc: Global,
    corbaloc: &Corbaloc,
    buffer: &mut [u8],
    size: &mut usize,
    fault: &mut Fault,
) -> u32
    ensures { WritesCorbaloc corbaloc.now buffer.old buffer.new size.old size.new
        fault.old fault.new result }
{
    match corbaloc.to_ior(alloc) {
        Ok(ior) if ior.is_writable() => copy_reference(alloc, Some(&ior), buffer, size),
        Err(EncodeFault::NoMemory) => NO_MEMORY,
        _ => {
            *fault = Fault { at: 0, number: 9 };
            FAULT
        }
    }
}

// A fault of a corbaloc, as C sees it.
fn fault_of(refused: CorbalocFault) -> Fault
    ensures { result ≡ c_corbaloc_fault refused }
{
    Fault {
        at: refused.at,
        number: u32::from(refused.number()),
    }
}

// The status of a refused corbaloc.
fn status_of(kind: CorbalocKind) -> u32
    ensures { result ≡ corbaloc_status kind }
{
    match kind {
        CorbalocKind::NoMemory => NO_MEMORY,
        _ => FAULT,
    }
}
