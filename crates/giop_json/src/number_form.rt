//! How whole numbers are written as JSON.

/// How the whole numbers of a value are written as JSON. What is written in either form is read as
/// the value.
#[derive(Clone, Copy, Debug, PartialEq, Eq)]
pub enum NumberForm {
    /// As JSON numbers. A reader that holds them as floats, as jq and JavaScript do, rounds those
    /// beyond 2^53.
    Plain,
    /// Those beyond 2^53 - 1, JavaScript's `Number.MAX_SAFE_INTEGER`, in absolute value as JSON
    /// texts of their digits, all others as JSON numbers.
    Quoted,
}
