//! The one data type of the theory: a run is a list of acts, each with its id, and its results are
//! listed with the ids too.

/// Something that is for one request id, such as an act or its result.
#[derive(Debug, PartialEq, Eq, Drop)]
pub struct Addressed<T> {
    pub id: u32,
    pub what: T,
}
