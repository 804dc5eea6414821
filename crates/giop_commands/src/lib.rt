//! What a command of giopctl does that holds an end of a connection, over any reader and any
//! writer: `check`, and what `call` and `serve` have in common, which giop_calling and giop_serving
//! are. Each returns the exit status, and a contract says what it prints. Words, files and sockets
//! are the program's; giop_show has the commands that hold no end.
#![tactic(auto)]

pub mod check;
pub mod laws;
pub mod session;

pub use check::text::check_text;
pub use check::{Checking, check_octets, check_stream};
pub use session::ending::Ending;
pub use session::table::{Tabled, write_table};
pub use session::target::{Endpoint, Targeted, target_of};
