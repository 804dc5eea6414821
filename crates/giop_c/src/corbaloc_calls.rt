//! The exported function that says a reference as a corbaloc. It takes no handle.
ghost use Rattle.std.specs.Prelude.{◌≡◌, ◌++◌, ◌∷◌, [], Some, map, IfOk, OnOk};
ghost use Rattle.std.specs.List.{filter_map, list_all};
ghost use Rattle.giop_c.specs.Corbalocs.{CopiesCorbaloc, ReadsAsCorbaloc, address_of, corbaloc_in, has_key, iiop_in, said_by, written};

use crate::act_fault::{ActFault, told_act};
use crate::copying::copy_octets;
use crate::end_records::EndFault;
use crate::status::NO_MEMORY;
use giop_cdr::{CdrKind, OctetList};
use giop_ior::{
    Address, Corbaloc, IiopProfile, Ior, Sequence, TaggedProfile, corbaloc_to_text, iiop_view,
    ior_from_text,
};
use std::alloc::{AllocError, Global};

/// Copies the text of the corbaloc that says where the object of a reference is: an address for each
/// IIOP profile that can be read, in their order, and their key. The reference is given as its text;
/// its type id, its components and its other profiles are passed over. It answers OK; SMALL, where
/// the buffer has no room for it; WAITS, where no corbaloc says it: there is no such profile, two
/// have different keys, or a host has an octet that none may have; FAULT, and writes the fault; or
/// NO_MEMORY.
#[unsafe(no_mangle)]
pub extern "C" fn giop_reference_corbaloc(
    alloc: Global,
    text: &[u8],
    buffer: &mut [u8],
    size: &mut usize,
    fault: &mut EndFault,
) -> u32
    ensures { ReadsAsCorbaloc text.now buffer.old buffer.new size.old size.new
        fault.old fault.new result }
{
    match ior_from_text(alloc, text) {
        Ok(ior) => copy_corbaloc_of(alloc, &ior, buffer, size),
        Err(why) => told_act(Err(ActFault::Reference(why)), fault),
    }
}

// Copies the text of the corbaloc of a reference, where there is one.
fn copy_corbaloc_of(alloc: Global, ior: &Ior, buffer: &mut [u8], size: &mut usize) -> u32
    ensures { CopiesCorbaloc (corbaloc_in ior.now) buffer.old buffer.new size.old size.new result }
{
    match corbaloc_in(alloc, ior) {
        Ok(Some(corbaloc)) => copy_text(alloc, &corbaloc, buffer, size),
        Ok(None) => copy_octets(None, buffer, size),
        Err(_) => NO_MEMORY,
    }
}

// Copies the text of a corbaloc.
fn copy_text(alloc: Global, corbaloc: &Corbaloc, buffer: &mut [u8], size: &mut usize) -> u32
    ensures { CopiesCorbaloc (Some corbaloc.now) buffer.old buffer.new size.old size.new result }
{
    match corbaloc_to_text(alloc, corbaloc) {
        Ok(text) => copy_octets(Some(text.as_slice()), buffer, size),
        Err(_) => NO_MEMORY,
    }
}

// The corbaloc that says where the object of a reference is.
fn corbaloc_in(alloc: Global, ior: &Ior) -> Result<Option<Corbaloc>, AllocError>
    ensures { IfOk result (λ corbaloc. corbaloc ≡ corbaloc_in ior.now) }
{
    let profiles = iiop_profiles(alloc, ior.profiles.as_slice())?;
    said_by(alloc, profiles.as_slice())
}

// The profiles of IIOP that can be read.
fn iiop_profiles(alloc: Global, profiles: &[TaggedProfile]) -> Result<Vec<IiopProfile>, AllocError>
    ensures { IfOk result (λ read. read.items ≡ filter_map iiop_in profiles.now) }
{
    let mut read = Vec::new(alloc);
    for profile in profiles {
        append_iiop(alloc, profile, &mut read)?;
    }
    Ok(read)
}

// Appends what a profile says, where it is one of IIOP and can be read.
fn append_iiop(
    alloc: Global,
    profile: &TaggedProfile,
    read: &mut Vec<IiopProfile>,
) -> Result<(), AllocError>
    ensures { OnOk result
        (read.new.items ≡ read.old.items ++ filter_map iiop_in (profile.now ∷ [])) }
{
    if let Some(iiop) = iiop_in(alloc, profile)? {
        read.push(iiop)?;
    }
    Ok(())
}

// What a profile says, where it is one of IIOP and can be read.
fn iiop_in(alloc: Global, profile: &TaggedProfile) -> Result<Option<IiopProfile>, AllocError>
    ensures { IfOk result (λ view. view ≡ iiop_in profile.now) }
{
    if profile.tag != 0 {
        return Ok(None);
    }
    if profile.octets.len() > 1 << 62 {
        return Err(AllocError);
    }
    match iiop_view(alloc, profile) {
        Ok(view) => Ok(Some(view)),
        Err(fault) => match fault.kind {
            CdrKind::NoMemory => Err(AllocError),
            _ => Ok(None),
        },
    }
}

// The addresses of profiles that have one key, where a text can say them.
fn said_by(alloc: Global, profiles: &[IiopProfile]) -> Result<Option<Corbaloc>, AllocError>
    ensures { IfOk result (λ corbaloc. corbaloc ≡ said_by profiles.now) }
{
    let Some((first, more)) = profiles.split_first() else {
        return Ok(None);
    };
    if !have_key(first.key.as_slice(), more) {
        return Ok(None);
    }
    let corbaloc = Corbaloc {
        addresses: Sequence::from(addresses_of(alloc, profiles)?),
        key: OctetList::from_slice(alloc, first.key.as_slice())?,
    };
    Ok(written(corbaloc))
}

// Whether each profile has this key.
fn have_key(key: &[u8], profiles: &[IiopProfile]) -> bool
    ensures { result ≡ list_all (has_key key.now) profiles.now }
{
    profiles.iter().all(|profile| profile.key.as_slice() == key)
}

// Where each profile is reached.
fn addresses_of(alloc: Global, profiles: &[IiopProfile]) -> Result<Vec<Address>, AllocError>
    ensures { IfOk result (λ addresses. addresses.items ≡ map address_of profiles.now) }
{
    let mut addresses = Vec::new(alloc);
    for profile in profiles {
        addresses.push(address_of(alloc, profile)?)?;
    }
    Ok(addresses)
}

// Where a profile is reached.
fn address_of(alloc: Global, profile: &IiopProfile) -> Result<Address, AllocError>
    ensures { IfOk result (λ address. address ≡ address_of profile.now) }
{
    Ok(Address {
        major: profile.major,
        minor: profile.minor,
        host: OctetList::from_slice(alloc, profile.host.as_slice())?,
        port: profile.port,
    })
}

// The corbaloc, where a text can say it.
fn written(corbaloc: Corbaloc) -> Option<Corbaloc>
    ensures { result ≡ written corbaloc }
{
    if corbaloc.is_writable() {
        Some(corbaloc)
    } else {
        None
    }
}
