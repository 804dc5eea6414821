//! A value that is read where gathered octets lie.

use anyhow::{Result, bail};
use giop_cdr::{CdrFault, CdrIn, Octets};
use giop_frag::{Chain, Gather};
use rows::{number, shown, small};
use std::alloc::{AllocError, Global};
use std::fmt;

/// A value of an id's octets, or its fault, and where the reader stands then; by the id, the offset
/// of the first octet, how many octets are read one by one before it, and its kind.
pub fn read(alloc: Global, gather: &Gather, words: [&str; 4]) -> Result<String> {
    let [id, start, before, kind] = words;
    let Some((order, chain)) = gather.chain(number(id)?) else {
        return Ok("absent".to_string(alloc)?);
    };
    let mut input = CdrIn::new(&chain, order, small(start)? as usize);
    for _ in 0..number(before)? {
        if let Err(fault) = input.read_octet() {
            bail!("so many octets aren't there: {fault}");
        }
    }
    let value = value(alloc, &mut input, kind)?;
    Ok(format!(in alloc; "{value}, at {} of {}", input.position(), input.remaining())?)
}

fn value(alloc: Global, input: &mut CdrIn<Chain<'_>>, kind: &str) -> Result<String> {
    Ok(match kind {
        "longlong" => told(alloc, input.read_longlong())?,
        "string" => match input.read_string(alloc, 0) {
            Ok(octets) => shown(alloc, octets.as_slice())?,
            Err(fault) => format!(in alloc; "{fault}")?,
        },
        _ => bail!("no kind of a value: {kind}"),
    })
}

fn told<T: fmt::Display + Drop>(
    alloc: Global,
    read: Result<T, CdrFault>,
) -> Result<String, AllocError> {
    match read {
        Ok(value) => format!(in alloc; "{value}"),
        Err(fault) => format!(in alloc; "{fault}"),
    }
}
