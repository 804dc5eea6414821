//! The reply to a cancelled call (CORBA 3.3 Part 2, 9.4.4), which may come all the same.

/// How much came of the reply to a call that was cancelled.
#[derive(Clone, Copy, Debug, PartialEq, Eq)]
pub enum Late {
    /// Nothing.
    None,
    /// Its first piece, and not its last one yet.
    Begun,
    /// All of it.
    Seen,
}
