//! The two kinds of calls. Replies are named by the kind that they answer.

/// Which message of a client a call is, or a reply answers.
#[derive(Clone, Copy, Debug, PartialEq, Eq)]
pub enum CallKind {
    /// A Request (CORBA 3.3 Part 2, 9.4.2), which a Reply answers.
    Request,
    /// A LocateRequest (9.4.5), which a LocateReply answers.
    Locate,
}
