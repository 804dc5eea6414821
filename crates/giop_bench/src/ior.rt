//! References as text: one of a megabyte read, each of its profiles viewed, and written again, as
//! `convert ior` does; and a corbaloc of 10,000 addresses read. Both ten times as large too.
//! `bench/ior/twin.rs` does the same in plain Rust.
use crate::work::mixed;
use giop_cdr::OctetList;
use giop_ior::{
    Corbaloc, IiopProfile, Ior, Sequence, TaggedComponent, TaggedProfile, corbaloc_from_text,
    iiop_profile, iiop_view, ior_from_text, ior_to_text,
};
use std::alloc::{AllocError, Global};

const PROFILES: u32 = 1_000;

const ADDRESSES: u32 = 10_000;

// How often a text is read, and one that is ten times as large.
const TIMES: u32 = 100;

const TIMES_10: u32 = 10;

// A profile whose octets are some 500.
fn profile(alloc: Global) -> Option<TaggedProfile> {
    let mut components = Vec::new(alloc);
    components
        .push(TaggedComponent {
            tag: 1,
            octets: OctetList::from_slice(alloc, &[7; 440]).ok()?,
        })
        .ok()?;
    let profile = IiopProfile {
        major: 1,
        minor: 2,
        host: OctetList::from_slice(alloc, b"printer.example").ok()?,
        port: 2809,
        key: OctetList::from_slice(alloc, b"the key").ok()?,
        components: Sequence::from(components),
    };
    iiop_profile(alloc, &profile).ok()
}

fn reference_text(alloc: Global, count: u32) -> Option<Vec<u8>> {
    let mut profiles = Vec::new(alloc);
    for _ in 0..count {
        profiles.push(profile(alloc)?).ok()?;
    }
    let ior = Ior {
        type_id: OctetList::from_slice(alloc, b"IDL:Printer:1.0").ok()?,
        profiles: Sequence::from(profiles),
    };
    ior_to_text(alloc, &ior).ok()
}

// What a profile says, or a number for one that isn't viewed.
fn viewed(alloc: Global, profile: &TaggedProfile) -> u64 {
    if profile.tag != 0 || profile.octets.len() > 1 << 62 {
        return 1;
    }
    let Ok(view) = iiop_view(alloc, profile) else {
        return 2;
    };
    let sum = mixed(view.port as u64, view.host.len() as u64);
    mixed(
        mixed(sum, view.key.len() as u64),
        view.components.len() as u64,
    )
}

// Reads the text, views its profiles, and writes it again.
fn converted(alloc: Global, text: &[u8]) -> Option<u64> {
    let ior = ior_from_text(alloc, text).ok()?;
    let mut sum = ior.type_id.len() as u64;
    for profile in ior.profiles.as_slice() {
        sum = mixed(sum, viewed(alloc, profile));
    }
    let again = ior_to_text(alloc, &ior).ok()?;
    sum = mixed(sum, again.len() as u64);
    Some(mixed(sum, again.last().map_or(0, |octet| *octet as u64)))
}

fn append_address(alloc: Global, text: &mut Vec<u8>, i: u32) -> Result<(), AllocError> {
    if i > 0 {
        text.extend_from_slice(b",")?;
    }
    let address = format!(in alloc; "iiop:1.2@printer{i}.example:2809")?;
    text.extend_from_slice(address.as_bytes())
}

fn corbaloc_text(alloc: Global, count: u32) -> Result<Vec<u8>, AllocError> {
    let mut text = Vec::new(alloc);
    text.extend_from_slice(b"corbaloc:")?;
    for i in 0..count {
        append_address(alloc, &mut text, i)?;
    }
    text.extend_from_slice(b"/the%20key")?;
    Ok(text)
}

fn checksum(corbaloc: &Corbaloc) -> u64 {
    let mut sum = corbaloc.key.len() as u64;
    for address in corbaloc.addresses.as_slice() {
        sum = mixed(sum, address.minor as u64 ^ address.port as u64);
        sum = mixed(sum, address.host.len() as u64);
    }
    sum
}

// Reads the text of a corbaloc.
fn read(alloc: Global, text: &[u8]) -> Option<u64> {
    let corbaloc = corbaloc_from_text(alloc, text).ok()?;
    Some(checksum(&corbaloc))
}

/// Runs a loop, and returns its checksum; `None` where there is no such loop, or it is out of
/// memory.
pub fn run(alloc: Global, name: &str) -> Option<u64> {
    let is_reference = name.starts_with("text");
    let text = match name {
        "text" => reference_text(alloc, PROFILES)?,
        "text-10" => reference_text(alloc, 10 * PROFILES)?,
        "corbaloc" => corbaloc_text(alloc, ADDRESSES).ok()?,
        "corbaloc-10" => corbaloc_text(alloc, 10 * ADDRESSES).ok()?,
        _ => return None,
    };
    let mut sum = 0;
    let times = if name.ends_with("-10") {
        TIMES_10
    } else {
        TIMES
    };
    for _ in 0..times {
        let one = if is_reference {
            converted(alloc, &text)?
        } else {
            read(alloc, &text)?
        };
        sum = mixed(sum, one);
    }
    Some(sum)
}
