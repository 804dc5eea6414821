//! A server's end for C: its handle, what lies behind it, and the exported functions.

pub mod answer_calls;
mod answers;
pub mod calls;
mod entries;
pub mod entry_calls;
mod requests;
mod served;
mod server_handle;

pub use entries::ServerRow;
pub use served::Served;
pub use server_handle::ServerHandle;
