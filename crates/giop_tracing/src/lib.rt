//! What `trace` of giopctl does, over any readers and any writer: a line for each call of a
//! connection, by the octets of both directions, in words or as JSON. It returns the exit status,
//! and a contract says what it prints.
#![tactic(auto)]

pub mod laws;
pub mod trace;

pub use trace::text::trace_text;
pub use trace::{Heard, trace_stream};
