//! A corbaloc (CORBA 3.3 Part 2, 7.6.10.1) as a value.
use crate::addresses::address::Address;
use crate::references::sequence::Sequence;
use giop_cdr::OctetList;

/// Where an object is, as a person would write it: the addresses at which it may be reached, and
/// the key by which it is named there (CORBA 3.3 Part 2, 7.6.10.1).
#[derive(Debug, Drop)]
pub struct Corbaloc {
    /// The addresses, in their order: one at least in a text.
    pub addresses: Sequence<Address>,
    /// The object key, in octets: empty where the text has none.
    pub key: OctetList,
}
