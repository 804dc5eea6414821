//! Why joined octets are no Request (9.4.2), and in which part of it the fault is. The order of the
//! parts is specs/Messages/RequestAnswer.antt.
use giop_cdr::CdrFault;

/// Why joined octets are no Request of an interface. The first that holds, in reading order, is
/// returned.
#[derive(Clone, Copy, Debug, PartialEq, Eq)]
pub enum RequestFault {
    /// A field of the head is refused.
    Header(CdrFault),
    /// The interface has no such operation.
    Operation,
    /// A value of the body is refused, or octets are left behind it.
    Body(CdrFault),
}
