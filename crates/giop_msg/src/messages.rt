//! Whole messages: a Request (9.4.2), a Reply (9.4.3) and a LocateReply (9.4.6), each of them a
//! head and what follows it. Their layouts are in specs/Messages.

pub mod alone;
pub mod body;
mod body_checking;
pub mod body_writing;
pub mod completion;
pub mod locate_reply;
pub mod reply;
pub mod reply_body;
mod reply_body_writing;
mod reply_checking;
pub mod reply_reading;
mod reply_writing;
pub mod request;
pub mod request_fault;
pub mod request_writing;
