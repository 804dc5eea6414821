//! The lines that the commands write, without their newlines.

mod end;
mod locate;
mod message;
mod octets;
mod reference;
mod refusal;
mod reply;
mod request;
mod target;

pub use end::{FaultLine, HeadFaultLine, RestLine};
pub use locate::{LocateReplyLine, LocateRequestLine};
pub use message::MessageLine;
pub use octets::{EscapedText, HexText};
pub use reference::{IiopLine, ProfileLine, TypeLine};
pub use refusal::RefusalLine;
pub use reply::ReplyLine;
pub use request::RequestLine;
