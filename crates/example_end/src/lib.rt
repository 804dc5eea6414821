//! An example for those who build a session: one end of a connection, which gathers the pieces of
//! many messages and keeps a table of their calls, over a toy rule.
//!
//! The rule (`Meter`) counts the octets of each message. The end keeps two structures, a `Mux` of
//! entries and a `Gather` of pieces, that have to change together:
//!
//! - Contracts see both as one `Held` (`specs/End.antt`). `turn` says what happens to one id
//!   there, `limit` what the whole refuses, and with these `end_rules` is one use of the theory of
//!   tables by id (`giop_ids`).
//! - Each call `Does` its act by those rules: a refused one changes nothing. So each is judged
//!   before either structure changes, and what is begun in one is undone where the other is out of
//!   memory.
//! - An id has pieces exactly where its entry is `Arriving` (`IsTied`), the invariant of the end.
//! - The laws of the theory then hold of the end: whatever happens to other ids, each message has
//!   the entry, the pieces and the answers of its own acts alone (`laws`).
#![tactic(auto)]

mod end;
mod fault;
pub mod laws;
mod meter;
mod steps;

pub use end::End;
pub use fault::EndFault;
pub use meter::{Entry, Event, Meter, MeterFault};

#[cfg(test)]
mod tests;
