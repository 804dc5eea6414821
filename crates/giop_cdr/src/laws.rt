//! Laws of the definitions that contracts cite. Each function's contract is one of them; the bodies
//! are empty, and no program calls them. A definition that changes must still satisfy them.
mod laid;
mod layouts;
mod primitives;
mod refusals;

pub use laid::Laid;
pub use layouts::{encapsulations_are_lawful, primitives_are_lawful};
pub use primitives::{
    booleans_are_spelled, encapsulations_are_opened_again, numbers_are_spelled, octets_are_spelled,
    padding_is_least, strings_are_spelled, written_values_are_read_back,
};
pub use refusals::{
    no_fault_is_told_as_want_of_memory, what_is_not_written_may_be_written_again,
    what_is_refused_is_refused_again,
};
