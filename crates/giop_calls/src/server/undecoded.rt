//! A call at a server that can't be decoded, and may still be answered.
use crate::kind::CallKind;
use giop_msg::{RequestFault, Version};

/// A Request or a LocateRequest that came whole and can't be decoded.
#[derive(Clone, Copy, Debug, PartialEq, Eq)]
pub struct UndecodedCall {
    /// The version in which it is laid out, and in which it is to be answered.
    pub version: Version,
    /// Which reply is expected: none for a Request whose head was decoded and has flags 0, else
    /// that of its kind.
    pub expects: Option<CallKind>,
    /// What is wrong with it.
    pub fault: RequestFault,
}
