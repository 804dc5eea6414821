//! What is read.

use crate::failure::Failure;
use std::fs;
use std::io::Read;
use std::rt::Files;

/// The octets of the file of this name, or of the standard input where the name is `-`.
pub fn octets_of<R: Files + Input + AllocGlobal>(rt: &R, name: &str) -> Result<Vec<u8>, Failure> {
    let mut octets = Vec::new(rt.alloc());
    if name == "-" {
        rt.reader().read_to_end(&mut octets)?;
    } else {
        fs::open(rt, name)?.read_to_end(&mut octets)?;
    }
    Ok(octets)
}
