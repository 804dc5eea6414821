//! References, profiles and corbalocs that are read, and written again.

use crate::reading::front;
use anyhow::{Result, bail};
use giop_cdr::{CdrIn, CdrOut, OctetList, SliceOctets};
use giop_ior::{
    IiopProfile, Ior, TaggedProfile, corbaloc_from_text, corbaloc_to_text, iiop_profile, iiop_view,
    ior_from_text, ior_to_text, read_ior, write_ior,
};
use rows::{octets, order, shown};
use std::alloc::{AllocError, Global};
use std::fmt::Write;

/// A reference by its octets from offset 0 on, and how it is written again; or the fault and where
/// the reader stands then.
pub fn ior(alloc: Global, of_order: &str, digits: &str) -> Result<String> {
    let of_order = order(of_order)?;
    let octets = octets(alloc, digits)?;
    let source = SliceOctets::new(front(octets.as_slice()));
    let mut input = CdrIn::new(&source, of_order, 0);
    let ior = match read_ior(alloc, &mut input) {
        Ok(ior) => ior,
        Err(fault) => return Ok(format!(in alloc; "{fault}, at {}", input.position())?),
    };
    let said = ior_said(alloc, &ior)?;
    let mut out = CdrOut::new(alloc, of_order, 0);
    write_ior(&mut out, &ior)?;
    let again = shown(alloc, out.as_slice())?;
    Ok(format!(in alloc; "{said}, at {}, {again}", input.position())?)
}

/// The reference that a text says, and its text again.
pub fn text(alloc: Global, text: &str) -> Result<String> {
    let ior = match ior_from_text(alloc, text.as_bytes()) {
        Ok(ior) => ior,
        Err(fault) => return Ok(format!(in alloc; "{fault}")?),
    };
    let said = ior_said(alloc, &ior)?;
    let again = ior_to_text(alloc, &ior)?;
    Ok(format!(in alloc;
        "{said}, {}",
        String::from_utf8_lossy(alloc, again.as_slice())?
    )?)
}

// `type TYPE`, and each profile.
fn ior_said(alloc: Global, ior: &Ior) -> Result<String> {
    let mut text = format!(in alloc; "type {}", shown(alloc, ior.type_id.as_slice())?)?;
    if !ior.is_writable() {
        bail!("it was read, and can't be written");
    }
    for profile in ior.profiles.as_slice() {
        write!(
            text,
            " {}={}",
            profile.tag,
            shown(alloc, profile.octets.as_slice())?
        )?;
    }
    Ok(text)
}

/// The profile that the octets of tag 0 are, and its octets again; or the fault.
pub fn profile(alloc: Global, digits: &str) -> Result<String> {
    let octets = octets(alloc, digits)?;
    let tagged = TaggedProfile {
        tag: 0,
        octets: OctetList::from_slice(alloc, front(octets.as_slice()))?,
    };
    let profile = match iiop_view(alloc, &tagged) {
        Ok(profile) => profile,
        Err(fault) => return Ok(format!(in alloc; "{fault}")?),
    };
    let again = iiop_profile(alloc, &profile)?;
    let again = shown(alloc, again.octets.as_slice())?;
    Ok(format!(in alloc; "{}, {again}", profile_said(alloc, &profile)?)?)
}

// `1.MINOR HOST PORT key KEY`, and each component.
fn profile_said(alloc: Global, profile: &IiopProfile) -> Result<String, AllocError> {
    let host = String::from_utf8_lossy(alloc, profile.host.as_slice())?;
    let key = shown(alloc, profile.key.as_slice())?;
    let (major, minor, port) = (profile.major, profile.minor, profile.port);
    let mut text = format!(in alloc; "{major}.{minor} {host} {port} key {key}")?;
    for component in profile.components.as_slice() {
        write!(
            text,
            " {}={}",
            component.tag,
            shown(alloc, component.octets.as_slice())?
        )?;
    }
    Ok(text)
}

/// What a text of these octets says: its addresses, the key, the text again and the profiles of its
/// reference; or the fault.
pub fn corbaloc(alloc: Global, digits: &str) -> Result<String> {
    let octets = octets(alloc, digits)?;
    let corbaloc = match corbaloc_from_text(alloc, octets.as_slice()) {
        Ok(corbaloc) => corbaloc,
        Err(fault) => return Ok(format!(in alloc; "{fault}")?),
    };
    let mut text = String::new(alloc);
    for address in corbaloc.addresses.as_slice() {
        let host = String::from_utf8_lossy(alloc, address.host.as_slice())?;
        write!(
            text,
            "{}.{} {host} {}, ",
            address.major, address.minor, address.port
        )?;
    }
    let key = shown(alloc, corbaloc.key.as_slice())?;
    let again = corbaloc_to_text(alloc, &corbaloc)?;
    let again = String::from_utf8_lossy(alloc, again.as_slice())?;
    let ior = ior_said(alloc, &corbaloc.to_ior(alloc)?)?;
    Ok(format!(in alloc; "{text}key {key}, {again}, {ior}")?)
}
