//! An object reference (CORBA 3.3 Part 2, 7.6.2) as a value, and its view. To add a field, change
//! `specs/Ior.antt` too, and then both reading and writing.
use crate::references::sequence::Sequence;
use crate::references::tagged_profile::TaggedProfile;
use giop_cdr::{OctetList, OctetsAt, TaggedListAt};

/// An interoperable object reference (CORBA 3.3 Part 2, 7.6.2): it owns its octets and profiles or,
/// as an `IorAt`, has them where they lie. Contracts see both as one value.
///
/// The nil reference has an empty type id and no profiles.
#[derive(Debug, Drop, PartialEq, Eq)]
pub struct Ior<O = OctetList, P = Sequence<TaggedProfile>> {
    /// The repository id of the object's most derived interface, in octets; it may be empty.
    pub type_id: O,
    /// The ways to reach the object, in their order.
    pub profiles: P,
}

/// A reference whose octets and profiles lie where they were read. It takes no memory.
pub type IorAt<'a, S> = Ior<OctetsAt<'a, S>, TaggedListAt<'a, S, TaggedProfile>>;
