//! Laws of the definitions that contracts cite. Each function's contract is one of them, and no
//! program calls these.
mod at_once;
mod values;

pub use at_once::longs_at_once_are_items;
pub use values::{
    descriptions_are_checked_node_by_node, encoded_and_decoded, equal_values_are_the_same,
    leaves_count_every_part, spelled_values_fit, values_are_bounded, values_are_spelled,
    written_values_are_read_back,
};
