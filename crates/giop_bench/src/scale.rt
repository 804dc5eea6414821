//! A server's end at scale: a million calls while 1, 1,000 or 100,000 are open; four million calls
//! over a million ids, each answered at once; and 10 GB on one connection, in Requests of `put` of
//! 16 KB, fed by 4,096 octets. `bench/session/twin.rs` does the same in plain Rust.
use crate::session::{CALLS, IDS, J, LIMITS, calls, mixed, pieces, serve, set_id};
use giop_end::{Limits, ServerEnd};
use giop_json::interface_from_json;
use giop_types::Interface;
use std::alloc::Global;

// Limits that bear 100,000 open calls.
const WIDE: Limits = Limits {
    calls: 131_072,
    message: 1 << 20,
    gathered: 8 << 20,
};

// How many Requests of 16,384 octets are 10 GB.
const MESSAGES: u32 = 625_000;

// As many octets as a turn reads at most.
const ONE_READ: usize = 4_096;

// Feeds a message as so many reads bring it.
fn feed(end: &mut ServerEnd<'_>, message: &[u8]) -> Option<()> {
    for part in message.chunks(ONE_READ) {
        end.feed(part).ok()?;
    }
    Some(())
}

// Hears 10 GB.
fn flood(alloc: Global, interface: &Interface) -> Option<u64> {
    let mut messages = pieces(alloc, interface, 32_768)?;
    let message = messages.first_mut()?;
    let mut end = ServerEnd::new(alloc, interface, LIMITS);
    heard(alloc, &mut end, message)
}

// An end hears a Request MESSAGES times, each under the next id.
fn heard(alloc: Global, end: &mut ServerEnd<'_>, message: &mut [u8]) -> Option<u64> {
    if message.len() < 16 {
        return None;
    }
    let mut sum = 0;
    for k in 0..MESSAGES {
        set_id(message, k % IDS);
        feed(end, message)?;
        sum = serve(alloc, end, k % IDS, sum)?;
    }
    Some(mixed(sum, end.rest() as u64))
}

/// Runs a loop, and returns its checksum; `None` where there is no such loop, or it is out of
/// memory.
pub fn run(alloc: Global, name: &str) -> Option<u64> {
    let interface = interface_from_json(alloc, J).ok()?;
    match name {
        "open-1" => calls(alloc, &interface, WIDE, CALLS, 1, 1),
        "open-1000" => calls(alloc, &interface, WIDE, CALLS, 1_000, 1_000),
        "open-100000" => calls(alloc, &interface, WIDE, CALLS, 100_000, 100_000),
        "ids" => calls(alloc, &interface, LIMITS, 4 * CALLS, CALLS, 1),
        "flood" => flood(alloc, &interface),
        _ => None,
    }
}
