//! What the joined octets of a Reply or a LocateReply come to (CORBA 3.3 Part 2, 9.4.3 and 9.4.6).
use crate::aside::Aside;
use giop_cdr::CdrFault;
use giop_msg::{LocateReply, Reply};

/// What a message that a server sent comes to, once its last piece is there.
#[derive(Debug, Drop)]
pub enum HeardReply {
    /// A Reply to the Request.
    Reply(Aside<Reply>),
    /// A LocateReply.
    Locate(LocateReply),
    /// One of them that can't be decoded, for this fault.
    Undecoded(CdrFault),
    /// It wasn't decoded, since no call of its id waits for it.
    Unread,
}
