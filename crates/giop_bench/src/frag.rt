//! 64 MB in pieces of one size, interleaved over some ids, read where they lie and dropped.
//! `bench/frag/twin.rs` does the same in plain Rust.
ghost use Rattle.std.specs.Prelude.{◌<◌, ◌≤◌, ◌^◌, length};

use giop_cdr::{Octets, Order};
use giop_frag::{Chain, Gather, GatherFault};
use std::alloc::Global;

const OCTETS: usize = 67_108_864;

fn refusals(outcome: Result<(), GatherFault>) -> u64 {
    match outcome {
        Ok(()) => 0,
        Err(_) => 1,
    }
}

fn begin(gather: &mut Gather, id: u32, octets: &[u8]) -> u64 {
    if gather.contains(id) {
        return 1;
    }
    refusals(gather.begin(id, Order::Big, octets))
}

// One piece for each id, and how many of them are refused.
fn round(gather: &mut Gather, ids: u32, turn: usize, octets: &[u8]) -> u64
    requires { 0 < ids }
{
    let mut refused = 0u64;
    for k in 0..ids {
        let id = (k.wrapping_mul(37) % ids).wrapping_mul(4099);
        let more = if turn == 0 {
            begin(gather, id, octets)
        } else {
            refusals(gather.add(id, Order::Big, octets))
        };
        refused = refused.wrapping_add(more);
    }
    refused
}

fn firsts(sum: u64, octets: &[u8]) -> u64 {
    let mut sum = sum;
    for part in octets.chunks(512) {
        sum = sum.rotate_left(1) ^ part.first().map_or(0, |octet| *octet as u64);
    }
    sum
}

// The length, and the first octet of each 512, run by run.
fn checksum(sum: u64, chain: &Chain<'_>) -> u64
    requires { length chain.now ≤ 2 ^ 62 }
{
    let mut sum = sum.rotate_left(5) ^ chain.len() as u64;
    let mut at = 0;
    'runs: while at < chain.len() {
        let run = chain.run(at);
        sum = firsts(sum, run);
        at += run.len();
    }
    sum
}

/// Runs the loop with pieces of `size` octets over so many ids, as often as `rounds` says by one
/// gatherer, and returns its checksum.
#[inline(never)]
pub fn run(alloc: Global, size: usize, ids: u32, rounds: u32) -> u64
    requires some { 0 < size }
    requires most { size ≤ 4096 }
    requires ids { 0 < ids }
{
    let mut gather = Gather::new(alloc, OCTETS);
    let mut sum = 0u64;
    for _ in 0..rounds {
        sum ^= gathered(&mut gather, size, ids);
        sum = decoded(&mut gather, ids, sum);
    }
    sum
}

// Gathers all pieces. A checksum of how many are refused and of how many octets there are.
fn gathered(gather: &mut Gather, size: usize, ids: u32) -> u64
    requires some { 0 < size }
    requires most { size ≤ 4096 }
    requires ids { 0 < ids }
{
    let mut piece = [0u8; 4096];
    let mut refused = 0u64;
    for turn in 0..OCTETS / (size * ids as usize) {
        piece[0] = (turn % 251) as u8;
        refused = refused.wrapping_add(round(gather, ids, turn, &piece[..size]));
    }
    refused ^ gather.total() as u64
}

// Reads each id's octets where they lie, and takes them out.
fn decoded(gather: &mut Gather, ids: u32, sum: u64) -> u64 {
    let mut sum = sum;
    for k in 0..ids {
        let id = k.wrapping_mul(4099);
        if let Some((_, chain)) = gather.chain(id) {
            sum = checksum(sum, &chain);
        }
        gather.discard(id);
    }
    sum
}
