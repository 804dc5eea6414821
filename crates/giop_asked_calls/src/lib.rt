//! The calls that `call` of giopctl is asked to make: those that a file lists, those of lines that are
//! read as they are called, and one in words. Which octets and words are which calls is defined in
//! specs.
#![tactic(auto)]

pub mod calls;
pub mod feed;
pub mod lines;
pub mod words;
