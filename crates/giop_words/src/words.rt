//! The options and words that several commands have. A change here is one in docs/giopctl.md and
//! tests/program too.

pub mod file;
pub mod form;
pub mod limit;
pub mod number;
pub mod object;
pub mod row;
pub mod session;
