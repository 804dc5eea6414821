//! A client's end for C: its handle, what lies behind it, and the exported functions.

pub mod ask_calls;
mod asking;
mod caller;
pub mod calls;
mod client_handle;
mod entries;
pub mod entry_calls;
mod replies;

pub use asking::CallHead;
pub use caller::Caller;
pub use client_handle::ClientHandle;
pub use entries::ClientRow;
pub use replies::copy_reference;
