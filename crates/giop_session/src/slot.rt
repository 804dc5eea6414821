use crate::unsent::Unsent;

/// What stands in the table under the id of a call: its entry, and its messages that are not put
/// out yet.
#[derive(Drop)]
pub struct Slot<E> {
    pub entry: E,
    pub unsent: Unsent,
}
