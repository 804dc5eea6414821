//! The text of worked files, runs that fail, and targets.

mod dump;
mod failing;
mod limits;
mod octets;
mod reading;
mod serving;
mod session_files;
mod target;
