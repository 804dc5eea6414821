//! What the commands of giopctl do that make calls, over any reader and any writer: `call`,
//! `locate` and `ping`. Each returns the exit status, and a contract says what it prints. What it
//! has in common with `serve` is giop_commands.
#![tactic(auto)]

pub mod call;
pub mod laws;

pub use call::given::Calling;
pub use call::{call_over, call_session};
