//! What a `CallRule` returns for an event. The `Mux` stores the entry and passes the outcome on.

/// What one event does to one call: the entry that it leaves, if it leaves one, and its answer, or
/// the fault for which it is refused.
#[derive(Debug, PartialEq, Eq, Drop)]
pub struct Step<E, A, F> {
    pub entry: Option<E>,
    pub outcome: Result<A, F>,
}
