//! The object that is called, by the text of its reference (CORBA 3.3 Part 2, 7.6.9) or by a
//! corbaloc (7.6.10.1). Its meaning is specs/Session/Target.antt: change both.
ghost use Rattle.std.specs.Prelude.{◌≡◌, IfOk, IfErr};
ghost use Rattle.giop_ior.specs.CorbalocReading.{corbaloc_of};
ghost use Rattle.giop_ior.specs.CorbalocWriting.{corbaloc_text};
ghost use Rattle.giop_ior.specs.Ior.{ior_layout};
ghost use Rattle.giop_msg.specs.Version.{version_of};
ghost use Rattle.giop_ior_text.specs.IorText.{ior_text_of};
ghost use Rattle.giop_show.specs.declared.failure.Failure.TheVariants.{Memory};
ghost use Rattle.giop_commands.specs.Session.Target.{at_first, at_profile, by_corbaloc, by_reference, corbaloc_at, first_iiop, iiop_in, is_reference, place_in, said, target_of};

use giop_cdr::{CdrKind, OctetList};
use giop_ior::{
    Address, Corbaloc, CorbalocKind, IiopProfile, Ior, Sequence, TaggedProfile, corbaloc_from_text,
    corbaloc_to_text, iiop_view, ior_from_text,
};
use giop_lines::RefusalLine;
use giop_msg::Version;
use giop_show::failure::Failure;
use giop_show::ior_refusal;
use std::alloc::{AllocError, Global};

/// Where an object is reached, in which version, and by which key.
#[derive(Debug, Drop, PartialEq, Eq)]
pub struct Endpoint {
    /// The host's name or its address, in octets.
    pub host: OctetList,
    /// The TCP port.
    pub port: u16,
    /// The version in which it is spoken to: 1.2 where its minor number is greater than 2.
    pub version: Version,
    /// The object key.
    pub key: OctetList,
}

/// What a text of a target says: an object, or how the text is refused.
#[derive(Drop)]
pub enum Targeted {
    /// The object.
    At(Endpoint),
    /// The refusal.
    Refused(RefusalLine),
}

/// The object of a target's text. A text that begins with `IOR:`, in upper or lower case, is that
/// of a reference (CORBA 3.3 Part 2, 7.6.9), of which the first IIOP profile is taken that can be
/// read. Any other is a corbaloc (7.6.10.1), of which the first address is taken.
///
/// Refused as by `convert`; a reference without such a profile is refused as NoIiopProfile.
pub fn target_of(alloc: Global, text: &[u8]) -> Result<Targeted, Failure>
    ensures ok { IfOk result (λ targeted. said targeted ≡ target_of text.now) }
    ensures err { IfErr result (λ failure. failure ≡ Memory) }
{
    if is_reference(text) {
        by_reference(alloc, text)
    } else {
        by_corbaloc(alloc, text)
    }
}

/// Whether a text is that of a reference: it begins with `IOR:`, in any case.
pub fn is_reference(text: &[u8]) -> bool
    ensures { result ≡ is_reference text.now }
{
    text.len() >= 4 && text[..4].eq_ignore_ascii_case(b"IOR:")
}

fn by_reference(alloc: Global, text: &[u8]) -> Result<Targeted, Failure>
    ensures ok { IfOk result (λ targeted. said targeted
        ≡ by_reference (ior_text_of ior_layout.read text.now)) }
    ensures err { IfErr result (λ failure. failure ≡ Memory) }
{
    match ior_from_text(alloc, text) {
        Ok(ior) => Ok(at_profile(first_iiop(alloc, ior.profiles.as_slice())?)),
        Err(fault) => Ok(Targeted::Refused(ior_refusal(fault)?)),
    }
}

/// Where the object of a reference is reached, by the first IIOP profile that can be read, if it
/// has one.
pub fn place_in(alloc: Global, ior: &Ior) -> Result<Option<Endpoint>, Failure>
    ensures ok { IfOk result (λ place. place ≡ place_in ior.now) }
    ensures err { IfErr result (λ failure. failure ≡ Memory) }
{
    match at_profile(first_iiop(alloc, ior.profiles.as_slice())?) {
        Targeted::At(endpoint) => Ok(Some(endpoint)),
        Targeted::Refused(_) => Ok(None),
    }
}

/// The text of the corbaloc of an object.
pub fn endpoint_text(alloc: Global, endpoint: &Endpoint) -> Result<Vec<u8>, AllocError>
    ensures { IfOk result (λ text. text.items ≡ corbaloc_text (corbaloc_at endpoint.now)) }
{
    let mut addresses = Vec::with_capacity(alloc, 1)?;
    addresses.push(Address {
        major: 1,
        minor: endpoint.version.minor(),
        host: OctetList::from_slice(alloc, endpoint.host.as_slice())?,
        port: endpoint.port,
    })?;
    let corbaloc = Corbaloc {
        addresses: Sequence::from(addresses),
        key: OctetList::from_slice(alloc, endpoint.key.as_slice())?,
    };
    corbaloc_to_text(alloc, &corbaloc)
}

// Where the object of an IIOP profile is reached; refused where there is none.
fn at_profile(profile: Option<IiopProfile>) -> Targeted
    ensures { said result ≡ at_profile profile }
{
    match profile {
        Some(iiop) => Targeted::At(Endpoint {
            host: iiop.host,
            port: iiop.port,
            version: version_of(iiop.minor),
            key: iiop.key,
        }),
        None => Targeted::Refused(RefusalLine::NoIiopProfile),
    }
}

// What the first of some profiles says that is one of IIOP.
fn first_iiop(alloc: Global, profiles: &[TaggedProfile]) -> Result<Option<IiopProfile>, Failure>
    ensures ok { IfOk result (λ first. first ≡ first_iiop profiles.now) }
    ensures err { IfErr result (λ failure. failure ≡ Memory) }
{
    for profile in profiles {
        if let Some(iiop) = iiop_in(alloc, profile)? {
            return Ok(Some(iiop));
        }
    }
    Ok(None)
}

// What a profile says where it is one of IIOP.
fn iiop_in(alloc: Global, profile: &TaggedProfile) -> Result<Option<IiopProfile>, Failure>
    ensures ok { IfOk result (λ view. view ≡ iiop_in profile.now) }
    ensures err { IfErr result (λ failure. failure ≡ Memory) }
{
    if profile.tag != 0 {
        return Ok(None);
    }
    if profile.octets.len() > 1 << 62 {
        return Err(Failure::Memory);
    }
    match iiop_view(alloc, profile) {
        Ok(view) => Ok(Some(view)),
        Err(fault) => match fault.kind {
            CdrKind::NoMemory => Err(Failure::Memory),
            _ => Ok(None),
        },
    }
}

fn by_corbaloc(alloc: Global, text: &[u8]) -> Result<Targeted, Failure>
    ensures ok { IfOk result (λ targeted. said targeted ≡ by_corbaloc (corbaloc_of text.now)) }
    ensures err { IfErr result (λ failure. failure ≡ Memory) }
{
    match corbaloc_from_text(alloc, text) {
        Ok(corbaloc) => at_first(
            alloc,
            corbaloc.addresses.as_slice(),
            corbaloc.key.as_slice(),
        ),
        Err(fault) => match fault.kind {
            CorbalocKind::NoMemory => Err(Failure::Memory),
            _ => Ok(Targeted::Refused(RefusalLine::Corbaloc(fault))),
        },
    }
}

// Where the object of a key is reached by the first of some addresses.
fn at_first(alloc: Global, addresses: &[Address], key: &[u8]) -> Result<Targeted, Failure>
    ensures ok { IfOk result (λ targeted. said targeted ≡ at_first addresses.now key.now) }
    ensures err { IfErr result (λ failure. failure ≡ Memory) }
{
    match addresses.first() {
        Some(address) => Ok(Targeted::At(Endpoint {
            host: OctetList::from_slice(alloc, address.host.as_slice())?,
            port: address.port,
            version: version_of(address.minor),
            key: OctetList::from_slice(alloc, key)?,
        })),
        None => Ok(Targeted::Refused(RefusalLine::NoIiopProfile)),
    }
}

// The version that a minor number of IIOP is spoken to in: 1.2 for any above 1.
fn version_of(minor: u8) -> Version
    ensures { result ≡ version_of minor }
{
    match minor {
        0 => Version::V10,
        1 => Version::V11,
        _ => Version::V12,
    }
}
