//! What `convert` of giopctl does, over any writer: references, corbalocs and values in another
//! form. Each function returns the exit status, and a contract says what it prints.
#![tactic(auto)]

mod convert;

pub use convert::described::convert_value;
pub use convert::reference::{convert_corbaloc, convert_ior};
pub use convert::value::{convert_decode, convert_encode};
