//! The server's end of a call (CORBA 3.3 Part 2, 9.4 and 9.6): what is stored for it, what may
//! happen to it, and the rule that says what each event does.

pub mod entry;
pub mod event;
pub mod heard;
pub mod question;
pub mod rule;
mod steps;
pub mod undecoded;
