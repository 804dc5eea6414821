//! The tests of giop_types, a subject a file.
mod descriptions;
mod json;
mod memory;
mod value_list;
