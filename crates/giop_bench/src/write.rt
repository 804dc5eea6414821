//! Loops that write CDR. `bench/cdr/twin.rs` does the same in plain Rust.
use crate::work::{Values, Work, mixed};
use giop_cdr::{CdrOut, Order};
use std::alloc::{AllocError, Global};

pub const ULONGS: u32 = 1_000_000;

pub const STRINGS: u32 = 100_000;

/// How many sequences of 4,096 octets a message has: 1 MB.
pub const PIECES: u32 = 256;

pub const GROUPS: u32 = 100_000;

// Each loop is a function of its own, with an output of its own: what else the program does then
// costs it nothing.
#[inline(never)]
fn ulongs(alloc: Global, order: Order) -> Result<CdrOut, AllocError> {
    let mut out = CdrOut::new(alloc, order, 0);
    for i in 0..ULONGS {
        out.write_ulong(i.rotate_left(7) ^ 0x9E37_79B1)?;
    }
    Ok(out)
}

#[inline(never)]
fn strings(alloc: Global, order: Order) -> Result<CdrOut, AllocError> {
    let mut out = CdrOut::new(alloc, order, 0);
    for _ in 0..STRINGS {
        out.write_string(b"a text of length")?;
    }
    Ok(out)
}

// The octets that are written, made out of line: of octets that the compiler knows it would make no
// copy, but fill memory with them.
#[inline(never)]
fn piece() -> [u8; 4096] {
    [7; 4096]
}

#[inline(never)]
fn octets(alloc: Global, order: Order) -> Result<CdrOut, AllocError> {
    let piece = piece();
    let mut out = CdrOut::new(alloc, order, 0);
    for _ in 0..PIECES {
        out.write_octets(&piece)?;
    }
    Ok(out)
}

#[inline(always)]
fn narrow(out: &mut CdrOut, i: u32) -> Result<(), AllocError> {
    out.write_boolean(i % 2 == 1)?;
    out.write_octet(200)?;
    out.write_short(-2)?;
    out.write_char(b'x')?;
    out.write_ushort(50_000)
}

#[inline(always)]
fn wide(out: &mut CdrOut, i: u32) -> Result<(), AllocError> {
    out.write_long(-3)?;
    out.write_ulong(i)?;
    out.write_longlong(-4)?;
    out.write_ulonglong(i as u64)
}

#[inline(never)]
fn widths(alloc: Global, order: Order) -> Result<CdrOut, AllocError> {
    let mut out = CdrOut::new(alloc, order, 0);
    for i in 0..GROUPS {
        narrow(&mut out, i)?;
        wide(&mut out, i)?;
    }
    Ok(out)
}

/// The message that a loop writes.
pub fn message(alloc: Global, work: Work) -> Result<Vec<u8>, AllocError> {
    let out = match work.values {
        Values::Ulong => ulongs(alloc, work.order)?,
        Values::String => strings(alloc, work.order)?,
        Values::Octets => octets(alloc, work.order)?,
        Values::Widths => widths(alloc, work.order)?,
    };
    Ok(out.into_bytes())
}

/// Writes the message so many times, and returns a checksum of the lengths and the last octets.
pub fn run(alloc: Global, work: Work, times: u32) -> Result<u64, AllocError> {
    let mut sum = 0;
    for _ in 0..times {
        let message = message(alloc, work)?;
        sum = mixed(sum, message.len() as u64);
        sum = mixed(sum, message.last().map_or(0, |&octet| octet as u64));
    }
    Ok(sum)
}
