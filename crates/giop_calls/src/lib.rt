//! The rules of both ends of a connection: what every event does to one call, at a server and at a
//! client (CORBA 3.3 Part 2, 9.4 and 9.6).
#![tactic(auto)]

mod aside;
mod client;
mod fault;
mod kind;
pub mod laws;
mod locate_call;
mod outcome;
mod server;

pub use aside::Aside;
pub use client::call::Call;
pub use client::entry::ClientEntry;
pub use client::event::ClientEvent;
pub use client::heard::HeardReply;
pub use client::late::Late;
pub use client::rule::ClientRule;
pub use fault::CallFault;
pub use kind::CallKind;
pub use locate_call::{LocateCall, with_target_aside};
pub use outcome::Outcome;
pub use server::entry::ServerEntry;
pub use server::event::ServerEvent;
pub use server::heard::HeardCall;
pub use server::question::Question;
pub use server::rule::ServerRule;
pub use server::undecoded::UndecodedCall;
