//! Which way `convert` goes.

use giop_json::NumberForm;

/// Which way a value is converted, between JSON and octets.
#[derive(Clone, Copy, Debug, PartialEq, Eq)]
pub enum Way {
    /// From JSON to octets.
    Encode,
    /// From octets to JSON, whole numbers in a form.
    Decode(NumberForm),
}
