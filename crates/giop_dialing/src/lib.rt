//! `call`, `locate` and `ping` of giopctl over files, connections and the standard output. What they
//! send, read and print is giop_calling's, over any reader and writer.
#![tactic(auto)]

pub mod call;
mod forwards;
pub mod locate;
mod object;
pub mod ping;
mod session;
mod target;
