//! What the joined octets of a Request or a LocateRequest come to (CORBA 3.3 Part 2, 9.4.2 and
//! 9.4.5).
use crate::aside::Aside;
use crate::locate_call::LocateCall;
use crate::server::undecoded::UndecodedCall;
use giop_msg::Request;

/// What a message that a client sent comes to, once its last piece is there.
#[derive(Debug, Drop)]
pub enum HeardCall {
    /// A Request of the interface.
    Request(Aside<Request>),
    /// A LocateRequest.
    Locate(LocateCall),
    /// One of them that can't be decoded.
    Undecoded(UndecodedCall),
}
