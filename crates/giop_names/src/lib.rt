//! Interface files in which types have names (docs/FORMATS.md): the plain form of such a file, in
//! which each name stands no more, but what it stands for. `interface_from_json` of giop_json
//! reads that.
#![tactic(auto)]

mod beside;
mod interface;
pub mod laws;
mod naming;
mod rewriting;
mod room;
mod scope;

pub use interface::{interface_id, plain_interface};
