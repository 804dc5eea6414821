//! Laws of the definitions that contracts cite. Each function's contract is one of them, and no
//! program calls these.
mod ior_texts;
mod json;

pub use ior_texts::{ior_texts_are_read, written_ior_texts_are_read_back};
pub use json::{
    json_gives_descriptions_back, json_gives_interfaces_back, json_gives_values_back,
    what_is_read_as_json_is_written_so, written_and_read_as_json,
};
