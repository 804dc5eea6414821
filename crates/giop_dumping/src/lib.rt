//! What `dump` of giopctl does, over any reader and any writer: each message of a file, and how the
//! file ends. It returns the exit status, and its contract says what it prints.
#![tactic(auto)]

pub mod dump;

pub use dump::teller::Teller;
pub use dump::text::dump_text;
pub use dump::{MESSAGE_LIMIT, dump_by, dump_octets, dump_stream};
