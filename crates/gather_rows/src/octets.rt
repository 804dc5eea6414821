//! Octets as words, and their order.

use anyhow::{Result, bail};
use giop_cdr::{Octets, Order};
use giop_frag::Chain;
use std::alloc::{AllocError, Global};

/// `big` or `little`.
pub fn order(word: &str) -> Result<Order> {
    Ok(match word {
        "big" => Order::Big,
        "little" => Order::Little,
        _ => bail!("no byte order: {word}"),
    })
}

/// `big` or `little`.
pub fn order_word(order: Order) -> &'static str {
    match order {
        Order::Big => "big",
        Order::Little => "little",
    }
}

/// Octets in hexadecimal digits, `-` for none, or `HH*N` for N times the same.
pub fn octets(alloc: Global, word: &str) -> Result<Vec<u8>> {
    if word == "-" {
        return Ok(Vec::new(alloc));
    }
    let Some((octet, count)) = word.split_once('*') else {
        return Ok(hex::decode(alloc, word)?);
    };
    let octet = hex::decode(alloc, octet)?;
    let Ok(count) = count.parse::<u32>() else {
        bail!("no count: {word}");
    };
    match octet.as_slice() {
        [octet] => Ok(vec![in alloc; *octet; count as usize]?),
        _ => bail!("not one octet: {word}"),
    }
}

/// Octets likewise: more than 64 that are the same as `HH*N`.
pub fn shown(alloc: Global, octets: &[u8]) -> Result<String, AllocError> {
    match octets.first() {
        None => "-".to_string(alloc),
        Some(first) if octets.len() > 64 && octets.iter().all(|octet| *octet == *first) => {
            format!(in alloc; "{:02x}*{}", *first, octets.len())
        }
        Some(_) => hex::encode(alloc, octets),
    }
}

/// The octets of a chain, run by run.
pub fn runs(alloc: Global, chain: &Chain<'_>) -> Result<Vec<u8>, AllocError> {
    let mut octets = Vec::new(alloc);
    let mut at: usize = 0;
    for _ in 0..chain.len() {
        if at >= chain.len() {
            return Ok(octets);
        }
        let run = chain.run(at);
        octets.extend_from_slice(run)?;
        at += run.len();
    }
    Ok(octets)
}

/// The octets of a chain, one by one.
pub fn each_octet(alloc: Global, chain: &Chain<'_>) -> Result<Vec<u8>, AllocError> {
    let mut octets = Vec::new(alloc);
    for i in 0..chain.len() {
        octets.push(chain.at(i))?;
    }
    Ok(octets)
}
