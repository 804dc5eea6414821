//! What a Reply says, by its status (CORBA 3.3 Part 2, 9.4.3.1). The bodies of the statuses are in
//! specs/Messages/Reply.antt, and are read, checked and written in reply_reading.rt,
//! reply_checking.rt and reply_body_writing.rt.
use crate::messages::completion::Completion;
use giop_cdr::OctetList;
use giop_ior::Ior;
use giop_types::ValueList;

/// What a Reply answers, by its status (CORBA 3.3 Part 2, 9.4.3).
#[derive(Debug, Drop)]
pub enum ReplyBody {
    /// Status 0: the result, then the inout and out parameters in their order; none where the flags
    /// of the request are 1.
    NoException(ValueList),
    /// Status 1: an exception that the operation may raise.
    UserException {
        /// The repository id of the exception, without its null.
        id: OctetList,
        /// The members of the exception, in their order.
        members: ValueList,
    },
    /// Status 2: an exception of the broker.
    SystemException {
        /// The repository id of the exception, without its null.
        id: OctetList,
        /// The vendor's minor code, which says more of the exception.
        minor: u32,
        /// Whether the operation was completed.
        completion: Completion,
    },
    /// Status 3: where the object is, for this request.
    Forward(Ior),
    /// Status 4, in 1.2 alone: where the object is from now on.
    ForwardPerm(Ior),
    /// Status 5, in 1.2 alone: the disposition in which the target has to be addressed, any value.
    NeedsAddressing(i16),
}
