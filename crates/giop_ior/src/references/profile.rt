//! An IIOP profile (CORBA 3.3 Part 2, 9.7.2) as a value. To add a field, change `specs/Iiop.antt`
//! too, and then both reading and writing.
use crate::references::sequence::Sequence;
use crate::references::tagged_profile::TaggedComponent;
use giop_cdr::OctetList;

/// The profile of tag 0: an object that is reached over IIOP (CORBA 3.3 Part 2, 9.7.2). It owns its
/// octets and components, or has them where they lie; contracts see both as one value.
#[derive(Debug, Drop)]
pub struct IiopProfile<O = OctetList, C = Sequence<TaggedComponent>> {
    /// The major version of IIOP: 1.
    pub major: u8,
    /// The minor version.
    pub minor: u8,
    /// The host's name or its address, in octets.
    pub host: O,
    /// The TCP port.
    pub port: u16,
    /// The object key, as its own broker reads it.
    pub key: O,
    /// The components, in their order: none in version 1.0.
    pub components: C,
}
