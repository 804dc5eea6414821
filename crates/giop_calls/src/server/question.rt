//! What a stored Reply answers, also where its Request couldn't be decoded.
use crate::aside::Aside;
use giop_msg::{Request, RequestFault};

/// What a reply of a server answers.
#[derive(Debug, Drop)]
pub enum Question {
    /// A Request.
    Request(Aside<Request>),
    /// A Request that couldn't be decoded, for this fault.
    Undecoded(RequestFault),
}
