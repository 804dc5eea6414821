//! The client's end of a call (CORBA 3.3 Part 2, 9.4 and 9.6): what a call is, what is stored for
//! it, what may happen to it, and the rule that says what each event does.

pub mod call;
pub mod entry;
pub mod event;
pub mod heard;
pub mod late;
pub mod rule;
mod steps;
