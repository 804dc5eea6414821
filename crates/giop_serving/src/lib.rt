//! What `serve` of giopctl does, over any reader and any writer. It returns the exit status, and a
//! contract says what it prints. What it has in common with `call` is giop_commands.
#![tactic(auto)]

pub mod laws;
pub mod serve;

pub use serve::answering::{Answer, Due, due_to};
pub use serve::given::Serving;
pub use serve::{serve_over, serve_session};
