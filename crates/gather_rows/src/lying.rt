//! The octets of an id where they lie.

use giop_cdr::Octets;
use giop_frag::Chain;
use std::alloc::{AllocError, Global};

/// The octets of a chain, run by run.
pub fn runs(alloc: Global, chain: &Chain<'_>) -> Result<Vec<u8>, AllocError> {
    let mut octets = Vec::new(alloc);
    let mut at: usize = 0;
    for _ in 0..chain.len() {
        if at >= chain.len() {
            return Ok(octets);
        }
        let run = chain.run(at);
        octets.extend_from_slice(run)?;
        at += run.len();
    }
    Ok(octets)
}

/// The octets of a chain, one by one.
pub fn each_octet(alloc: Global, chain: &Chain<'_>) -> Result<Vec<u8>, AllocError> {
    let mut octets = Vec::new(alloc);
    for i in 0..chain.len() {
        octets.push(chain.at(i))?;
    }
    Ok(octets)
}
