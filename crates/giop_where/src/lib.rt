//! Where a file of an interface, a description or a value is at fault (docs/FORMATS.md): the path
//! to the first part that giop_json refuses when it stands alone, with the fault of the file.
#![tactic(auto)]

mod alone;
mod first;
mod judge;
pub mod laws;
mod no_place;
mod part;
mod parts;
mod place;
mod role;
mod shallow;
mod step;
mod texts;
mod values;
mod words;

pub use first::{Found, first_fault};
pub use judge::fault_code;
pub use no_place::NoPlace;
pub use part::Part;
pub use place::Place;
pub use role::Role;
pub use shallow::is_shallow;
pub use step::Step;
