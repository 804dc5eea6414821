//! What a call came to, in the same words at a client and at a server. Which entry has which
//! outcome is `outcome` in specs/ClientTable.antt and specs/ServerTable.antt.

/// What a call came to. `R` is its reply; both ends return a reference to it.
#[derive(Clone, Copy, Debug, PartialEq, Eq)]
pub enum Outcome<R> {
    /// It isn't over.
    Pending,
    /// It was cancelled.
    Cancelled,
    /// It was a Request that expects no reply, and all of it was sent, or came.
    OneWay,
    /// It was a Request, and this is its reply.
    Replied(R),
    /// It was a LocateRequest, and this is the status of its reply.
    Located(u32),
    /// What came of it, the call or its reply, can't be decoded.
    Undecoded,
}
