//! Each command with the files, the connections and the standard output that it runs over.

pub mod call;
pub mod check;
pub mod convert;
pub mod dump;
pub mod following;
pub mod interfaces;
pub mod link;
pub mod locating;
pub mod object;
pub mod objects;
pub mod reach;
pub mod serve;
pub mod session;
pub mod trace;
