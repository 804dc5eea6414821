//! What an end's own program does: the messages of a call or an answer, within the limits, and what
//! is put out of them.

pub mod answering;
pub mod calling;
pub mod cancelling;
pub mod form;
pub mod in_pieces;
pub mod local;
pub mod locating;
pub mod outgoing;
pub mod putting;
pub mod sendable;
