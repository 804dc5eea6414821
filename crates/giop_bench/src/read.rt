//! Loops that read CDR out of a slice. `bench/cdr/twin.rs` does the same in plain Rust.
ghost use Rattle.std.specs.Prelude.{◌≤◌, ◌^◌, length};

use crate::work::{Values, Work, mixed};
use crate::write::{self, GROUPS, PIECES, STRINGS, ULONGS};
use giop_cdr::{CdrFault, CdrIn, Octets, Order, SliceOctets};
use std::alloc::Global;

// Each loop is a function of its own, with a reader of its own: what else the program does then
// costs it nothing.
#[inline(never)]
fn ulongs<S: Octets>(source: &S, order: Order) -> Result<u64, CdrFault>
    requires { length (S.octets source.now) ≤ 2 ^ 62 }
{
    let mut input = CdrIn::new(source, order, 0);
    let mut sum = 0;
    for _ in 0..ULONGS {
        sum = mixed(sum, input.read_ulong()? as u64);
    }
    Ok(sum)
}

#[inline(never)]
fn strings<S: Octets>(alloc: Global, source: &S, order: Order) -> Result<u64, CdrFault>
    requires { length (S.octets source.now) ≤ 2 ^ 62 }
{
    let mut input = CdrIn::new(source, order, 0);
    let mut sum = 0;
    for _ in 0..STRINGS {
        let text = input.read_string(alloc, 0)?;
        sum = mixed(sum, text.len() as u64);
    }
    Ok(sum)
}

#[inline(never)]
fn octets<S: Octets>(alloc: Global, source: &S, order: Order) -> Result<u64, CdrFault>
    requires { length (S.octets source.now) ≤ 2 ^ 62 }
{
    let mut input = CdrIn::new(source, order, 0);
    let mut sum = 0;
    for _ in 0..PIECES {
        let octets = input.read_octets(alloc, 0)?;
        sum = mixed(sum, octets.len() as u64);
    }
    Ok(sum)
}

#[inline(always)]
fn narrow<S: Octets>(input: &mut CdrIn<S>, sum: u64) -> Result<u64, CdrFault> {
    let sum = mixed(sum, u64::from(input.read_boolean()?));
    let sum = mixed(sum, input.read_octet()? as u64);
    let sum = mixed(sum, input.read_short()?.to_le_bytes()[0] as u64);
    let sum = mixed(sum, input.read_char()? as u64);
    Ok(mixed(sum, input.read_ushort()? as u64))
}

#[inline(always)]
fn wide<S: Octets>(input: &mut CdrIn<S>, sum: u64) -> Result<u64, CdrFault> {
    let sum = mixed(sum, input.read_long()?.to_le_bytes()[0] as u64);
    let sum = mixed(sum, input.read_ulong()? as u64);
    let sum = mixed(sum, input.read_longlong()?.to_le_bytes()[0] as u64);
    Ok(mixed(sum, input.read_ulonglong()?))
}

#[inline(never)]
fn widths<S: Octets>(source: &S, order: Order) -> Result<u64, CdrFault>
    requires { length (S.octets source.now) ≤ 2 ^ 62 }
{
    let mut input = CdrIn::new(source, order, 0);
    let mut sum = 0;
    for _ in 0..GROUPS {
        sum = narrow(&mut input, sum)?;
        sum = wide(&mut input, sum)?;
    }
    Ok(sum)
}

fn values<S: Octets>(alloc: Global, source: &S, work: Work) -> Result<u64, CdrFault>
    requires { length (S.octets source.now) ≤ 2 ^ 62 }
{
    match work.values {
        Values::Ulong => ulongs(source, work.order),
        Values::String => strings(alloc, source, work.order),
        Values::Octets => octets(alloc, source, work.order),
        Values::Widths => widths(source, work.order),
    }
}

/// Reads the message of `write` so many times, and returns a checksum of the values; `None` where
/// it is out of memory.
pub fn run(alloc: Global, work: Work, times: u32) -> Option<u64> {
    let message = write::message(alloc, work).ok()?;
    if message.len() > 1 << 62 {
        return None;
    }
    let source = SliceOctets::new(&message);
    let mut sum = 0;
    for _ in 0..times {
        sum = mixed(sum, values(alloc, &source, work).ok()?);
    }
    Some(sum)
}
