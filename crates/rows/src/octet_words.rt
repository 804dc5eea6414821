//! Octets as words.

use anyhow::{Result, bail};
use std::alloc::{AllocError, Global};

/// Octets in hexadecimal digits, `-` for none, or `HH*N` for N times the same.
pub fn octets(alloc: Global, word: &str) -> Result<Vec<u8>> {
    if word == "-" {
        return Ok(Vec::new(alloc));
    }
    let Some((octet, count)) = word.split_once('*') else {
        return Ok(hex::decode(alloc, word)?);
    };
    let octet = hex::decode(alloc, octet)?;
    let Ok(count) = count.parse::<u32>() else {
        bail!("no count: {word}");
    };
    match octet.as_slice() {
        [octet] => Ok(vec![in alloc; *octet; count as usize]?),
        _ => bail!("not one octet: {word}"),
    }
}

/// Octets likewise: more than 64 that are the same as `HH*N`.
pub fn shown(alloc: Global, octets: &[u8]) -> Result<String, AllocError> {
    match octets.first() {
        None => "-".to_string(alloc),
        Some(first) if octets.len() > 64 && octets.iter().all(|octet| *octet == *first) => {
            format!(in alloc; "{:02x}*{}", *first, octets.len())
        }
        Some(_) => hex::encode(alloc, octets),
    }
}
