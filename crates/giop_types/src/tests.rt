//! What no clause says: worked octets, and runs without memory.

mod check;
mod decoding;
mod encoding;
mod interface;
mod json;
mod memory;
mod recorded;
mod samples;
mod values;
