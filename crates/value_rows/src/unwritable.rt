//! References, profiles and corbalocs that are made, of which no octets or no text may be.

use anyhow::{Context, Result, bail};
use giop_cdr::{CdrOut, EncodeFault, OctetList, Order};
use giop_ior::{
    Address, Corbaloc, IiopProfile, Ior, Sequence, TaggedComponent, corbaloc_to_text, iiop_profile,
    ior_to_text, write_ior,
};
use rows::{number, octets, parsed, shown, small};
use std::alloc::Global;

/// The octets and the text of a reference of this type and no profiles, or `Unfit`.
pub fn type_id(alloc: Global, digits: &str) -> Result<String> {
    let ior = Ior {
        type_id: OctetList::from(octets(alloc, digits)?),
        profiles: Sequence::new(alloc),
    };
    let mut out = CdrOut::new(alloc, Order::Big, 0);
    let answer = write_ior(&mut out, &ior);
    match (answer, ior_to_text(alloc, &ior), ior.is_writable()) {
        (Ok(()), Ok(text), true) => {
            let written = shown(alloc, out.as_slice())?;
            let text = String::from_utf8_lossy(alloc, text.as_slice())?;
            Ok(format!(in alloc; "{written} {text}")?)
        }
        (Err(EncodeFault::Unfit), Err(EncodeFault::Unfit), false) if out.as_slice().is_empty() => {
            Ok("Unfit".to_string(alloc)?)
        }
        _ => bail!("two answers"),
    }
}

/// The octets of a profile of a version, with this host, port 1, no key and so many components of
/// tag 1 and no octets; or `Unfit`.
pub fn components(alloc: Global, version: [&str; 2], host: &str, count: &str) -> Result<String> {
    let mut components = Vec::new(alloc);
    for _ in 0..small(count)? {
        components.push(TaggedComponent {
            tag: 1,
            octets: OctetList::new(alloc),
        })?;
    }
    let profile = IiopProfile {
        major: small(version[0])?,
        minor: small(version[1])?,
        host: OctetList::from(octets(alloc, host)?),
        port: 1,
        key: OctetList::new(alloc),
        components: Sequence::from(components),
    };
    match (iiop_profile(alloc, &profile), profile.is_writable()) {
        (Ok(tagged), true) => Ok(shown(alloc, tagged.octets.as_slice())?),
        (Err(EncodeFault::Unfit), false) => Ok("Unfit".to_string(alloc)?),
        _ => bail!("two answers"),
    }
}

/// The text of a corbaloc with the key 00, and these addresses, each `MAJOR:HOST` with the minor
/// version 255 and the port 65535; or `none`.
pub fn addresses(alloc: Global, words: &[&str]) -> Result<String> {
    let mut addresses = Vec::new(alloc);
    for word in words {
        let (major, host) = word.split_once(':').context("an address is MAJOR:HOST")?;
        addresses.push(Address {
            major: small(major)?,
            minor: 255,
            host: OctetList::from(octets(alloc, host)?),
            port: 65535,
        })?;
    }
    let corbaloc = Corbaloc {
        addresses: Sequence::from(addresses),
        key: OctetList::from_slice(alloc, &[0])?,
    };
    if !corbaloc.is_writable() {
        return Ok("none".to_string(alloc)?);
    }
    let text = corbaloc_to_text(alloc, &corbaloc)?;
    Ok(String::from_utf8_lossy(alloc, text.as_slice())?.to_string(alloc)?)
}
