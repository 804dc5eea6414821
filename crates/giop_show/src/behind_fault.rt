//! What becomes of the input behind a fault in a header.

/// What becomes of the input behind a fault in a header, of which nothing is shown.
#[derive(Clone, Copy, Debug, PartialEq, Eq)]
pub enum BehindFault {
    /// It is read to its end before the fault is reported, so that a read that fails comes first:
    /// for files.
    Read,
    /// It is left unread, and the fault is reported at once: for what may never end.
    Leave,
}
