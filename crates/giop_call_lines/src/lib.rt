//! The lines that giopctl writes of calls, without their newlines: of the entries in the tables of
//! both ends, of calls that a server answered or a client didn't make, of a connection and of the
//! end of a direction, in words and as JSON. Each is pinned to a text in specs/TableLines.antt or
//! Direction.antt, and docs/giopctl.md shows it; or, as JSON, in specs/TableJson.antt,
//! SessionJson.antt or Direction.antt, and docs/FORMATS.md shows it: change all three. The lines of
//! messages, which need no calls, are giop_lines'.
#![tactic(auto)]

mod answered;
mod client_entry;
mod direction;
mod json;
mod server_entry;

pub use answered::{AnsweredLine, ConnectionLine, UnsentLine};
pub use client_entry::{ClientEntryLine, CompletionText, ReplyText};
pub use direction::DirectionEndLine;
pub use json::answered::{AnswerJson, AnsweredJson, ConnectionJson};
pub use json::client_entry::{ClientEntryJson, OutcomeJson, UnsentJson};
pub use json::direction::DirectionEndJson;
pub use json::server_entry::{AskedJson, EntryJson, ServerEntryJson};
pub use server_entry::{AskedText, ServerEntryLine};
