//! `dump` and `convert` of giopctl over files and the standard output. What they print is
//! giop_dumping's and giop_converting's, over any reader and writer.
#![tactic(auto)]

pub mod convert;
pub mod dump;
