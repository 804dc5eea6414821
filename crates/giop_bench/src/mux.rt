//! 1,000,000 events over 1,000 ids. `bench/mux/twin.rs` does the same in plain Rust.
ghost use Rattle.std.specs.Prelude.{◌≡◌};
ghost use Rattle.giop_bench.specs.Sums.{step_of};

use giop_mux::{CallRule, Mux, Refusal, Step};
use std::alloc::Global;

const EVENTS: u32 = 1_000_000;

const IDS: u32 = 1_000;

/// The rule of sums, which are added to, closed and removed.
#[derive(Clone, Copy)]
struct Sums;

/// The sum that is stored for an id.
#[derive(Clone, Copy)]
enum Entry {
    Open(u64),
    Closed(u64),
}

#[derive(Clone, Copy)]
enum Event {
    Add(u64),
    Close,
    Remove,
}

#[derive(Clone, Copy)]
struct NotOpen;

impl CallRule for Sums {
    ghost use Rattle.giop_bench.specs.Sums.{step_of, is_closed, fault_keeps};

    type Entry = Entry;

    type Event = Event;

    type Answer = u64;

    type Fault = NotOpen;

    ghost next = { λ rule. step_of };

    ghost closed = { λ rule. is_closed };

    ghost fault_keeps = { λ rule. fault_keeps };

    fn step(&self, entry: Option<Entry>, event: Event) -> Step<Entry, u64, NotOpen>
        ensures { result ≡ step_of entry event }
    {
        match (entry, event) {
            (None, Event::Add(n)) => accepted(Some(Entry::Open(n)), n),
            (Some(Entry::Open(sum)), Event::Add(n)) => {
                let sum = sum.wrapping_add(n);
                accepted(Some(Entry::Open(sum)), sum)
            }
            (Some(Entry::Open(sum)), Event::Close) => accepted(Some(Entry::Closed(sum)), sum),
            (Some(Entry::Closed(sum)), Event::Remove) => accepted(None, sum),
            (entry, _) => Step {
                entry,
                outcome: Err(NotOpen),
            },
        }
    }

    fn is_closed(&self, entry: &Entry) -> bool {
        match entry {
            Entry::Open(_) => false,
            Entry::Closed(_) => true,
        }
    }
}

fn accepted(entry: Option<Entry>, answer: u64) -> Step<Entry, u64, NotOpen>
    ensures { result ≡ record { entry = entry; outcome = Ok answer } }
{
    Step {
        entry,
        outcome: Ok(answer),
    }
}

fn event_at(turn: u32) -> Event {
    match turn / IDS % 16 {
        14 => Event::Close,
        15 => Event::Remove,
        n => Event::Add((turn ^ n) as u64),
    }
}

fn checksum(sum: u64, outcome: Result<u64, Refusal<NotOpen>>) -> u64 {
    let more = match outcome {
        Ok(answer) => answer,
        Err(Refusal::Rule(NotOpen)) => 3,
        Err(Refusal::TooManyCalls) => 5,
        Err(Refusal::NoMemory) => 7,
    };
    sum.rotate_left(5) ^ more
}

fn held(entry: Option<&Entry>) -> u64 {
    match entry {
        Some(Entry::Open(sum)) => *sum,
        Some(Entry::Closed(sum)) => sum ^ 1,
        None => 2,
    }
}

/// Runs the loop, and returns its checksum.
#[inline(never)]
pub fn run(alloc: Global) -> u64 {
    let mut mux = Mux::new(alloc, Sums, IDS);
    let mut sum = 0;
    for turn in 0..EVENTS {
        let id = turn.wrapping_mul(617) % IDS * 4099;
        sum = checksum(sum, mux.apply(id, event_at(turn)));
    }
    for id in 0..IDS {
        sum = sum.rotate_left(5) ^ held(mux.entry(id * 4099));
    }
    sum
}
