//! A file and a folder for each command but `dump` and `convert`, which are giop_files': the files,
//! connections and standard output that it runs over. Its words are giop_words', and what it prints
//! is that of giop_commands and the crates beside it, over any reader and writer.

pub mod check;
pub mod trace;
