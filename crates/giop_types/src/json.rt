//! Values, descriptions and interfaces as JSON. The forms are in specs/JsonForms, and for users on
//! the page docs/FORMATS.md: change them together.

mod appending;
mod desc_json;
pub mod form_fault;
mod from_json;
pub mod interface;
mod interface_form;
mod interface_json;
mod leaves;
pub mod number_form;
mod number_text;
mod objects;
pub mod offer;
mod ordinals;
pub mod parameters;
mod parse;
mod read_leaves;
mod reference;
mod texts;
mod to_json;

pub use appending::{append_values, values_to_text};
pub use desc_json::desc_from_json;
pub use from_json::value_from_json;
pub use parse::parse as parse_json;
pub use reference::reference_desc;
pub use to_json::{value_to_json, value_to_json_in};
