//! What the table of an end's calls stores for one request id.
use crate::unsent::Unsent;

/// What is stored for the id of a call: its entry, and its messages that are not put out yet, the
/// next one first.
#[derive(Drop)]
pub struct Slot<E> {
    pub entry: E,
    pub unsent: Unsent,
}
