//! How the crates are called: small callers, each with its contract, that the pages CALLING.md
//! show.
#![tactic(auto)]

mod gathered;
mod point;
mod reached;

pub use gathered::front_of_two;
pub use point::{Point, points_are_spelled, read_point, write_point};
pub use reached::endpoint;
