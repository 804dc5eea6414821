//! The lines of calls: of those in the tables of both ends, of those that are over, and of what
//! `trace` tells.

pub mod answered;
pub mod client_entry;
pub mod server_entry;
pub mod traced;
