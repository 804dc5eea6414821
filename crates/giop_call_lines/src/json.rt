//! The JSON lines of calls. Their texts are specs/TableJson.antt, SessionJson.antt and
//! Direction.antt.

pub mod answered;
pub mod client_entry;
pub mod direction;
pub mod server_entry;
