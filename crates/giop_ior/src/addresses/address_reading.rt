//! One address of a corbaloc (CORBA 3.3 Part 2, 7.6.10.3), read where it lies: without memory. Each
//! fault and its place is defined in `specs/CorbalocReading.antt`, under the names of the functions
//! here.
ghost use Rattle.std.specs.Prelude.{◌≡◌, ◌+◌, ◌<◌, ◌^◌, length};
ghost use Rattle.std.specs.List.{list_all};
ghost use Rattle.giop_ior.specs.AddressAt.{address_view};
ghost use Rattle.giop_ior.specs.CorbalocFault.{Answers};
ghost use Rattle.giop_ior.specs.Corbaloc.{is_host_octet};
ghost use Rattle.giop_ior.specs.CorbalocReading.{minor_of, port_of, is_host, endpoint_at, located_at, protocol_len, address_at};

use crate::addresses::corbaloc_fault::{CorbalocFault, CorbalocKind};
use crate::addresses::cuts::{cut, number_of};

// An address whose host lies in the text.
#[derive(Clone, Copy)]
pub struct AddressAt<'a> {
    pub major: u8,
    pub minor: u8,
    pub host: &'a [u8],
    pub port: u16,
}

const IIOP_PORT: u16 = 2809;

fn minor_of(version: &[u8]) -> Option<u8>
    ensures { result ≡ minor_of version.now }
{
    let (major, minor) = cut(b'.', version)?;
    if number_of(3, major)? != 1 {
        return None;
    }
    u8::try_from(number_of(3, minor)?).ok()
}

fn port_of(text: &[u8]) -> Option<u16>
    ensures { result ≡ port_of text.now }
{
    u16::try_from(number_of(5, text)?).ok()
}

fn is_host_octet(octet: u8) -> bool
    ensures { result ≡ is_host_octet octet }
{
    octet.is_ascii_alphanumeric() || b"-_.".contains(&octet)
}

fn are_host_octets(text: &[u8]) -> bool
    ensures { result ≡ list_all is_host_octet text.now }
{
    text.iter().all(|octet| is_host_octet(*octet))
}

/// Whether octets are a host's name: one or more, each a letter, a digit, `-`, `_` or `.`.
pub fn is_host(text: &[u8]) -> bool
    ensures { result ≡ is_host text.now }
{
    !text.is_empty() && are_host_octets(text)
}

// An address from its host on, which begins at this place.
fn endpoint_at(minor: u8, at: usize, text: &[u8]) -> Result<AddressAt<'_>, CorbalocFault>
    requires { at + length text.now < 2 ^ 64 }
    ensures { Answers address_view result (endpoint_at minor at text.now) }
{
    let (host, port) = match cut(b':', text) {
        Some((host, port)) => (host, Some(port)),
        None => (text, None),
    };
    if !is_host(host) {
        return Err(CorbalocFault {
            at,
            kind: CorbalocKind::BadHost,
        });
    }
    let port = match port {
        Some(digits) => port_of(digits).ok_or(CorbalocFault {
            at: at + host.len() + 1,
            kind: CorbalocKind::BadPort,
        })?,
        None => IIOP_PORT,
    };
    Ok(AddressAt {
        major: 1,
        minor,
        host,
        port,
    })
}

// An address from its version on, which begins at this place.
fn located_at(at: usize, text: &[u8]) -> Result<AddressAt<'_>, CorbalocFault>
    requires { at + length text.now < 2 ^ 64 }
    ensures { Answers address_view result (located_at at text.now) }
{
    let Some((version, endpoint)) = cut(b'@', text) else {
        return endpoint_at(0, at, text);
    };
    let minor = minor_of(version).ok_or(CorbalocFault {
        at,
        kind: CorbalocKind::BadVersion,
    })?;
    endpoint_at(minor, at + version.len() + 1, endpoint)
}

fn protocol_len(text: &[u8]) -> Option<usize>
    ensures { result ≡ protocol_len text.now }
{
    if text.strip_prefix(b":").is_some() {
        Some(1)
    } else if text.strip_prefix(b"iiop:").is_some() {
        Some(5)
    } else {
        None
    }
}

// The address that begins at this place.
#[tactic(auto, unfolding(crate::specs::CorbalocReading::address_at))]
pub fn address_at(at: usize, text: &[u8]) -> Result<AddressAt<'_>, CorbalocFault>
    requires { at + length text.now < 2 ^ 64 }
    ensures { Answers address_view result (address_at at text.now) }
{
    let protocol = protocol_len(text).ok_or(CorbalocFault {
        at,
        kind: CorbalocKind::BadProtocol,
    })?;
    located_at(at + protocol, &text[protocol..])
}
