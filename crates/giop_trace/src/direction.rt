//! The two directions of a connection.

/// Who sent a message.
#[derive(Clone, Copy, Debug, PartialEq, Eq)]
pub enum Direction {
    /// The client, which asks.
    Client,
    /// The server, which answers.
    Server,
}
