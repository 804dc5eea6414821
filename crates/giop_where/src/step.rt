//! One step of a path.
use std::fmt;

/// A step from a part of a file to a part of that.
#[derive(Debug, Drop)]
pub enum Step {
    /// To the member of an object under this key.
    Key(String),
    /// To the item of a list that has so many before it.
    Index(usize),
}

/// The step as it stands in a path: `.ins`, `[0]`.
impl fmt::Display for Step {
    fn fmt<W: fmt::Write>(&self, f: &mut fmt::Formatter<W>) -> fmt::Result {
        match self {
            Step::Key(key) => write!(f, ".{key}"),
            Step::Index(index) => write!(f, "[{index}]"),
        }
    }
}
