//! What giopctl's commands have in common, over any reader and any writer: lines of text or of JSON,
//! what the bodies of messages hold, the octets of a reader piece by piece, and what a command comes
//! to. A contract says what is printed. What a command does is a crate of its own above this one.
#![tactic(auto)]

mod behind_fault;
pub mod bodies;
pub mod failure;
mod file_text;
pub mod form;
pub mod pieces;
mod refusals;
mod rest;
pub mod status;

pub use behind_fault::BehindFault;
pub use file_text::unended;
pub use form::refuse_in;
pub use refusals::{form_refusal, ior_refusal};
pub use rest::write_rest;
