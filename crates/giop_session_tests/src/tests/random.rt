//! Pieces of five calls, interleaved and cut into reads at random from fixed seeds, each call in a
//! byte order at random: one table, written by hand, for all of ten thousand runs. They are four
//! tests, since each test has a minute.
use super::interfaces::interface;
use super::octets::{
    ADD_1, ADD_2, ADD_3, ADD_4, ADD_5, LOCATE_1, LOCATE_2, ONE_1, ONE_2, ONE_3, ONE_4, TELL_1,
    TELL_2, TELL_3, TELL_4, TELL_5, TWO_1, TWO_2, TWO_3, TWO_4,
};
use super::servers::server_end;
use super::shown::server_table;
use giop_session::{Limits, ServerEnd, SessionFault};
use giop_types::Interface;
use std::alloc::Global;
use std::process::Abort;
use std::test::Fail;

// From each seed.
const RUNS: usize = 2_500;

const CALLS: usize = 5;

// How many pieces each call has at most, and all calls together.
const MOST: usize = 5;

const TOGETHER: usize = 20;

// The pieces of each call, big-endian, and then those of the same calls, little-endian.
const PIECES: [[&str; MOST]; 10] = [
    [ONE_1, ONE_2, ONE_3, ONE_4, ""],
    [
        "47494f50010202000000000c000000020300000000000000",
        "47494f50010202070000000c00000002000000016b000000",
        "47494f50010202070000000c000000020000000570696e67",
        "47494f50010200070000000c000000020000000000000000",
        "",
    ],
    [ADD_1, ADD_2, ADD_3, ADD_4, ADD_5],
    [LOCATE_1, LOCATE_2, "", "", ""],
    [TELL_1, TELL_2, TELL_3, TELL_4, TELL_5],
    [
        "47494f50010203000c000000010000000300000000000000",
        "47494f50010203070c00000001000000010000006b000000",
        "47494f50010203070c000000010000000500000070696e67",
        "47494f50010201070c000000010000000000000000000000",
        "",
    ],
    [TWO_1, TWO_2, TWO_3, TWO_4, ""],
    [
        "47494f50010203000c000000040000000300000000000000",
        "47494f50010203070c00000004000000010000006b000000",
        "47494f50010203070c000000040000000400000061646400",
        "47494f50010203070c000000040000000000000000000000",
        "47494f50010201070c000000040000000200000005000000",
    ],
    [
        "47494f50010203030c000000060000000000000001000000",
        "47494f500102010705000000060000006b",
        "",
        "",
        "",
    ],
    [
        "47494f50010203000c000000080000000000000000000000",
        "47494f50010203070c00000008000000010000006b000000",
        "47494f50010203070c000000080000000500000074656c6c",
        "47494f50010203070c000000080000000000000000000000",
        "47494f50010201070a00000008000000020000007800",
    ],
];

const TABLE: &str =
    "1 Asked ping, 2 Asked ping, 4 Asked add 2 5, 6 LocateAsked, 8 Delivered tell text, open";

// Numbers that look random (Marsaglia's xorshift, of 64 bits).
#[derive(Drop)]
struct Random(u64);

impl Random {
    fn below(&mut self, n: usize) -> usize {
        self.0 ^= self.0 << 13;
        self.0 ^= self.0 >> 7;
        self.0 ^= self.0 << 17;
        (self.0 >> 33) as usize % n.max(1)
    }
}

// One call: where its next piece stands among all pieces, and where its last one.
#[derive(Clone, Copy)]
struct Left {
    next: usize,
    end: usize,
}

fn octets_of(alloc: Global, pieces: &[[&str; MOST]]) -> Option<Vec<Vec<u8>>> {
    let mut octets = Vec::new(alloc);
    for row in pieces {
        for piece in row {
            octets.push(hex::decode(alloc, *piece).ok()?).ok()?;
        }
    }
    Some(octets)
}

// A call that begins, in a byte order at random.
fn begun(call: usize, pieces: usize, random: &mut Random) -> Left {
    let row = (call % CALLS) + CALLS * (random.below(2) % 2);
    let next = row * MOST;
    Left {
        next,
        end: next + pieces % (MOST + 1),
    }
}

fn calls(random: &mut Random) -> [Left; CALLS] {
    [
        begun(0, 4, random),
        begun(1, 4, random),
        begun(2, 5, random),
        begun(3, 2, random),
        begun(4, 5, random),
    ]
}

// The place of the next piece of some call, from a call at random on.
fn picked(calls: &mut [Left; CALLS], random: &mut Random) -> Option<usize> {
    let from = random.below(CALLS);
    for k in 0..CALLS {
        let call = calls.get_mut((from % CALLS + k) % CALLS)?;
        if call.next < call.end {
            let place = call.next;
            call.next += 1;
            return Some(place);
        }
    }
    None
}

// All pieces of all calls, those of each call in their order.
fn interleaved(alloc: Global, pieces: &[Vec<u8>], random: &mut Random) -> Option<Vec<u8>> {
    let mut stream = Vec::new(alloc);
    let mut calls = calls(random);
    for _ in 0..TOGETHER {
        let piece = pieces.get(picked(&mut calls, random)?)?;
        stream.extend_from_slice(piece).ok()?;
    }
    Some(stream)
}

// Feeds a stream in reads of 1 to 60 octets.
fn feed_in_reads(
    end: &mut ServerEnd<'_>,
    stream: &[u8],
    random: &mut Random,
) -> Result<(), SessionFault> {
    let mut rest = stream;
    for _ in 0..stream.len() {
        let n = random.below(60).min(59) + 1;
        let n = n.min(rest.len());
        end.feed(&rest[..n])?;
        rest = &rest[n..];
    }
    Ok(())
}

// The table behind one run.
fn run(
    alloc: Global,
    interface: &Interface,
    pieces: &[Vec<u8>],
    random: &mut Random,
) -> Option<String> {
    let stream = interleaved(alloc, pieces, random)?;
    let mut end = server_end(alloc, interface, Limits::default());
    feed_in_reads(&mut end, &stream, random).ok()?;
    server_table(alloc, &end)
}

// All runs from a seed give the table.
fn all_give_the_table(rt: &(impl Abort + AllocGlobal), seed: u64) -> Result<(), Fail> {
    let alloc = rt.alloc();
    let interface = interface(alloc)?;
    let pieces = octets_of(alloc, &PIECES).ok_or("no memory")?;
    let mut random = Random(seed);
    for i in 0..RUNS {
        let text = run(alloc, &interface, &pieces, &mut random).ok_or("refused")?;
        assert_eq!(rt; text.as_str(), TABLE, "in run {i}");
    }
    Ok(())
}

#[test]
fn any_interleaving_in_any_reads_gives_one_table(rt: HostRuntime) -> Result<(), Fail> {
    all_give_the_table(&rt, 88_172_645_463_325_252)
}

#[test]
fn so_do_those_of_a_second_seed(rt: HostRuntime) -> Result<(), Fail> {
    all_give_the_table(&rt, 1_070_372_123_456_789)
}

#[test]
fn so_do_those_of_a_third_seed(rt: HostRuntime) -> Result<(), Fail> {
    all_give_the_table(&rt, 2_862_933_555_777_941_757)
}

#[test]
fn so_do_those_of_a_fourth_seed(rt: HostRuntime) -> Result<(), Fail> {
    all_give_the_table(&rt, 3_202_034_522_624_059_733)
}
