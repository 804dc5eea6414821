//! The calls of one end of a GIOP connection (CORBA 3.3 Part 2, 9.4): for each request id the entry
//! of its call, the messages of the call that are still to be sent, and the pieces of it that are
//! gathered.
//!
//! A rule of calls (`giop_mux::CallRule`) is wrapped so that a call's entry and its unsent messages
//! share one slot of the table. One event changes both or neither (`Sending`), and comes with what
//! it does to the messages (`Planned`).
#![tactic(auto)]

mod call_table;
mod messages;
mod plan;
mod sending;
mod slot;
mod table_fault;
mod unsent;

pub use call_table::CallTable;
pub use messages::Messages;
pub use plan::{Plan, Planned};
pub use sending::Sending;
pub use slot::Slot;
pub use table_fault::TableFault;
pub use unsent::Unsent;
