//! Calls on what a description is made of. A crate that reads and writes values in another form, as
//! giop_json does, goes from part to part by them.

pub use crate::codec::append::append;
pub use crate::codec::decoder::value_of;
pub use crate::codec::reading::has_label;
pub use crate::description::name_check::has_doubled_member;
