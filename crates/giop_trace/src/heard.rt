//! What an observer tells of a message that it heard.
use crate::Flow;

/// What is over by one message: at most two calls, in this order.
#[derive(Debug, Drop)]
pub struct Heard {
    /// The request id that the message names; `None` where it has none that can be read.
    pub id: Option<u32>,
    /// The call that had the id before, and was not over: the id is used again.
    pub earlier: Option<Flow>,
    /// The call that is over by this message, or a message that has no place in a call, by itself.
    pub over: Option<Flow>,
}
