//! Descriptions of IDL types, and the values that they describe, in CDR (CORBA 3.3 Part 2, 9.3). It
//! is for types that are known only when a program runs.
#![tactic(auto)]

mod codec;
mod description;
mod interfaces;
pub mod laws;
pub mod parts;
mod same;
mod value;
mod value_list;
mod without_memory;

pub use codec::arriving::ArrivingValues;
pub use codec::decoder::decode;
pub use codec::encoder::encode;
pub use codec::fitting::fits;
pub use codec::value_memory::ValueMemory;
pub use description::checked_desc::CheckedDesc;
pub use description::desc::{CaseDesc, Desc, NamedDesc};
pub use description::desc_fault::DescFault;
pub use interfaces::interface::{Interface, Operation};
pub use interfaces::offer::Offer;
pub use interfaces::parameters::{Parameter, Parameters};
pub use value::Value;
pub use value_list::ValueList;
