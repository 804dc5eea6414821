//! Values, descriptions and interfaces of giop_types as JSON. The forms are in specs, and for users
//! on the page docs/FORMATS.md: change them together.
#![tactic(auto)]

mod appending;
mod desc_json;
mod form_fault;
mod from_json;
mod interface_form;
mod interface_json;
pub mod laws;
mod leaves;
mod number_form;
mod number_text;
mod ordinals;
mod parse;
mod read_leaves;
mod reference;
mod texts;
mod to_json;

pub use appending::{append_values, values_to_text};
pub use desc_json::desc_from_json;
pub use form_fault::FormFault;
pub use from_json::value_from_json;
pub use interface_json::interface_from_json;
pub use number_form::NumberForm;
pub use parse::parse as parse_json;
pub use reference::reference_desc;
pub use to_json::{value_to_json, value_to_json_in};
