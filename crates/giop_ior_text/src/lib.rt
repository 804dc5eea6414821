//! The text of a reference (CORBA 3.3 Part 2, 7.6.9): `IOR:` and the hexadecimal digits of an
//! encapsulation, whatever is encapsulated. giop_ior and giop_json read and write their references
//! so.
#![tactic(auto)]

mod ior_text;
mod ior_text_fault;

pub use ior_text::{ior_octets_from_text, ior_octets_to_text, open_octets};
pub use ior_text_fault::IorTextFault;
