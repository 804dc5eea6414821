//! The calls of one end: the entry of each id, its messages that are still to be sent, the pieces that
//! are gathered, and what an event does to them.

pub mod call_table;
pub mod plan;
pub mod sending;
pub mod side;
pub mod sides;
pub mod slot;
pub mod table_fault;
pub mod unsent;
