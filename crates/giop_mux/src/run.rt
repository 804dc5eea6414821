use crate::Refusal;

/// An event with the id of the call that it befalls.
#[derive(Debug, PartialEq, Eq, Drop)]
pub struct Addressed<E> {
    pub id: u32,
    pub event: E,
}

/// Where a run over a list of events stopped: the place of the refused event in the list, from 0,
/// and why it is refused.
#[derive(Debug, PartialEq, Eq, Drop)]
pub struct Stopped<F> {
    pub at: usize,
    pub why: Refusal<F>,
}
