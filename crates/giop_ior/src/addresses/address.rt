//! One address of a corbaloc (CORBA 3.3 Part 2, 7.6.10.3) as a value.
use giop_cdr::OctetList;

/// A host that answers over IIOP, and the version that it speaks (CORBA 3.3 Part 2, 7.6.10.3).
#[derive(Debug, Drop, PartialEq, Eq)]
pub struct Address {
    /// The major version of IIOP: 1.
    pub major: u8,
    /// The minor version.
    pub minor: u8,
    /// The host's name or its IPv4 address, in octets.
    pub host: OctetList,
    /// The TCP port.
    pub port: u16,
}
