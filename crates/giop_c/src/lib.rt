//! The framer of giop_msg, the heads of a Request and a Reply, references, interfaces and both ends
//! of giop_session for C, C++ and Rust: a handle each, and one exported function for each call.
#![tactic(auto)]

mod act_fault;
mod client;
mod contexts;
mod converting;
mod copying;
mod corbaloc_calls;
mod end_records;
mod framer_calls;
mod framer_handle;
mod header_calls;
mod interface_calls;
mod interface_handle;
mod json_values;
pub mod laws;
pub mod laws_in_use;
mod making_calls;
mod parameters;
mod reader;
mod records;
mod reference_calls;
mod reply_calls;
mod request_calls;
mod server;
mod shared;
mod status;
pub mod threads;
mod value_form;
mod values;

pub use client::{CallHead, Caller, ClientHandle, ClientRow};
pub use end_records::{EndFault, EndLimits, SendForm};
pub use framer_handle::{FramerHandle, Opaque};
pub use interface_handle::InterfaceHandle;
pub use reader::Reader;
pub use records::{Fault, Message, Profile, Reply, Request, TextFault};
pub use server::{Served, ServerHandle, ServerRow};
pub use shared::Shared;
