//! The object that is called, by the text of its reference or by a corbaloc.
ghost use Rattle.std.specs.Prelude.{◌≡◌};
ghost use Rattle.giop_msg.specs.Version.{version_of};

use crate::commands::convert_reference::ior_refusal;
use crate::failure::Failure;
use crate::lines::RefusalLine;
use giop_cdr::{CdrKind, OctetList};
use giop_ior::{
    CorbalocKind, IiopProfile, TaggedProfile, corbaloc_from_text, iiop_view, ior_from_text,
};
use giop_msg::Version;
use std::alloc::Global;

/// Where an object is reached, in which version, and by which key.
#[derive(Debug, Drop)]
pub struct Endpoint {
    /// The host's name or its address, in octets.
    pub host: OctetList,
    /// The TCP port.
    pub port: u16,
    /// The version in which it is spoken to: 1.2 where its minor number is greater than 2.
    pub version: Version,
    /// The object key.
    pub key: OctetList,
}

/// What a text of a target says: an object, or how the text is refused.
#[derive(Drop)]
pub enum Targeted {
    /// The object.
    At(Endpoint),
    /// The refusal.
    Refused(RefusalLine),
}

/// The object of a target's text: where it begins with `IOR:` in any case the text of a reference
/// (CORBA 3.3 Part 2, 7.6.9), of which the first IIOP profile is taken that can be read; else a
/// corbaloc (7.6.10.1), of which the first address is taken. Refused as by `convert`, and a
/// reference without such a profile as that.
pub fn target_of(alloc: Global, text: &[u8]) -> Result<Targeted, Failure> {
    if is_reference(text) {
        by_reference(alloc, text)
    } else {
        by_corbaloc(alloc, text)
    }
}

fn is_reference(text: &[u8]) -> bool {
    text.len() >= 4 && text[..4].eq_ignore_ascii_case(b"IOR:")
}

fn by_reference(alloc: Global, text: &[u8]) -> Result<Targeted, Failure> {
    let ior = match ior_from_text(alloc, text) {
        Ok(ior) => ior,
        Err(fault) => return Ok(Targeted::Refused(ior_refusal(fault)?)),
    };
    for profile in ior.profiles.as_slice() {
        if let Some(iiop) = view_of(alloc, profile)? {
            return Ok(Targeted::At(Endpoint {
                host: iiop.host,
                port: iiop.port,
                version: version_of(iiop.minor),
                key: iiop.key,
            }));
        }
    }
    Ok(Targeted::Refused(RefusalLine::NoIiopProfile))
}

// What a profile says where it is one of IIOP.
fn view_of(alloc: Global, profile: &TaggedProfile) -> Result<Option<IiopProfile>, Failure> {
    if profile.tag != 0 {
        return Ok(None);
    }
    if profile.octets.len() > 1 << 62 {
        return Err(Failure::Memory);
    }
    match iiop_view(alloc, profile) {
        Ok(view) => Ok(Some(view)),
        Err(fault) => match fault.kind {
            CdrKind::NoMemory => Err(Failure::Memory),
            _ => Ok(None),
        },
    }
}

fn by_corbaloc(alloc: Global, text: &[u8]) -> Result<Targeted, Failure> {
    let corbaloc = match corbaloc_from_text(alloc, text) {
        Ok(corbaloc) => corbaloc,
        Err(fault) => match fault.kind {
            CorbalocKind::NoMemory => return Err(Failure::Memory),
            _ => return Ok(Targeted::Refused(RefusalLine::Corbaloc(fault))),
        },
    };
    match corbaloc.addresses.as_slice().first() {
        Some(address) => Ok(Targeted::At(Endpoint {
            host: OctetList::from_slice(alloc, address.host.as_slice())?,
            port: address.port,
            version: version_of(address.minor),
            key: OctetList::from_slice(alloc, corbaloc.key.as_slice())?,
        })),
        None => Ok(Targeted::Refused(RefusalLine::NoIiopProfile)),
    }
}

// The version of a minor number.
fn version_of(minor: u8) -> Version
    ensures { result ≡ version_of minor }
{
    match minor {
        0 => Version::V10,
        1 => Version::V11,
        _ => Version::V12,
    }
}
