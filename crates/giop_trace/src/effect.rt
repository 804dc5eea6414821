//! What a message does to what stands under its id. The private form of `Heard`.
use crate::Flow;

/// What one message does to the flow of its id.
#[derive(Debug, Drop)]
pub struct Effect {
    /// The call that had the id before, where the message begins another.
    pub earlier: Option<Flow>,
    /// What stands under the id then.
    pub stays: Option<Flow>,
    /// The call that is over by the message.
    pub over: Option<Flow>,
}
