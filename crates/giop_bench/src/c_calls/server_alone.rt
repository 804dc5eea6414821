//! A server's end alone: Requests of `ping` and `add` in turn over 512 ids, each heard, answered,
//! written and taken out.
ghost use Rattle.std.specs.Prelude.{◌≡◌, ◌≤◌, length};

use crate::c_calls::answering::answers;
use crate::c_calls::row::Row;
use crate::c_calls::{LIMITS, copied, mixed};
use crate::session::{ADD, PING, feed_as};
use giop_end::ServerEnd;
use giop_types::Interface;
use std::alloc::Global;

const IDS: u32 = 512;

// Copies all that is outgoing, and says that it is written: its last octet and its length.
fn writes(end: &mut ServerEnd<'_>, sum: u64) -> Option<u64> {
    let mut octets = [0u8; 64];
    let size = copied(end.outgoing(), &mut octets)?;
    let sum = mixed(
        sum,
        octets[..size].last().map_or(0, |octet| u64::from(*octet)),
    );
    end.wrote(size);
    Some(mixed(sum, size as u64))
}

// Serves the call of an id: it looks at its entry, answers and writes, looks again and takes it out.
fn serves(
    alloc: Global,
    interface: &Interface,
    end: &mut ServerEnd<'_>,
    id: u32,
    sum: u64,
) -> Option<u64> {
    let sum = mixed(sum, Row::of(end.entry(id)).all());
    let (sum, size) = answers(alloc, interface, end, id, sum)?;
    let sum = writes(end, mixed(sum, size as u64))?;
    let sum = mixed(sum, Row::of(end.entry(id)).all());
    end.take(id).ok()?;
    Some(sum)
}

// An end hears the calls, and serves them.
fn heard(alloc: Global, interface: &Interface, end: &mut ServerEnd<'_>, calls: u32) -> Option<u64> {
    let (mut ping, mut add) = (PING, ADD);
    let mut sum = 0;
    for k in 0..calls {
        if k % 2 == 0 {
            feed_as(end, &mut ping, k % IDS)?;
        } else {
            feed_as(end, &mut add, k % IDS)?;
        }
        sum = serves(alloc, interface, end, k % IDS, sum)?;
    }
    Some(mixed(sum, end.rest() as u64))
}

/// Hears so many calls, each served before the next comes.
pub fn run(alloc: Global, interface: &Interface, calls: u32) -> Option<u64> {
    let mut end = ServerEnd::new(alloc, interface, LIMITS);
    heard(alloc, interface, &mut end, calls)
}
