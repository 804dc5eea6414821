//! A table of calls by request id. It stores the entry of one call for each id, and an event for an
//! id changes that entry alone, by a rule. So interleaving is harmless: each id's entry is its own
//! events folded alone.
#![tactic(auto)]

pub mod laws;
mod mux;
mod refusal;
mod rule;
mod side;
mod slots;
mod step;

pub use giop_ids::Addressed;
pub use mux::Mux;
pub use refusal::{Refusal, StillOpen};
pub use rule::CallRule;
pub use side::Side;
pub use step::Step;
