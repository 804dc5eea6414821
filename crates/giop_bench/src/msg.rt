//! 100,000 Requests read and written, ten times: of `add`, of two longs, and of `put`, of a struct
//! of five members. And 64 MB cut into messages of 4,096 octets, and joined again by `Gather`.
//! `bench/msg/twin.rs` does the same in plain Rust.
ghost use Rattle.std.specs.Prelude.{◌≤◌, ◌^◌, length};

use giop_cdr::{Order, SliceOctets};
use giop_frag::Gather;
use giop_json::interface_from_json;
use giop_msg::{Kind, Msg, Request, Version, can_cut, cut};
use giop_types::{Interface, Value};
use std::alloc::Global;

const MESSAGES: u32 = 100_000;

const OCTETS: usize = 67_108_864;

const TIMES: u32 = 10;

const J: &[u8] =
    b"{\"operations\":{\"add\":{\"ins\":[[\"a\",\"long\"],[\"b\",\"long\"]]},\"put\":{\"ins\":[[\"s\",{\"struct\":[[\"a\",\"octet\"],[\"b\",\"longlong\"],[\"c\",\"string\"],[\"d\",\"ushort\"],[\"e\",\"boolean\"]]}]]}}}";

// Request 4 for `add` of 2 and 5.
const ADD: &[u8] = &[
    0, 0, 0, 4, 3, 0, 0, 0, 0, 0, 0, 0, 0, 0, 0, 1, 0x6B, 0, 0, 0, 0, 0, 0, 4, 0x61, 0x64, 0x64, 0,
    0, 0, 0, 0, 0, 0, 0, 0, 0, 0, 0, 2, 0, 0, 0, 5,
];

// Request 4 for `put`.
const PUT: &[u8] = &[
    0, 0, 0, 4, 3, 0, 0, 0, 0, 0, 0, 0, 0, 0, 0, 1, 0x6B, 0, 0, 0, 0, 0, 0, 4, 0x70, 0x75, 0x74, 0,
    0, 0, 0, 0, 0, 0, 0, 0, 7, 0, 0, 0, 0, 0, 0, 0, 0, 0, 0, 0, 0, 0, 0, 9, 0, 0, 0, 17, 0x61,
    0x20, 0x74, 0x65, 0x78, 0x74, 0x20, 0x6F, 0x66, 0x20, 0x6C, 0x65, 0x6E, 0x67, 0x74, 0x68, 0, 0,
    0, 9, 1,
];

fn mixed(sum: u64, value: u64) -> u64 {
    sum.wrapping_mul(1_099_511_628_211) ^ value
}

fn leaf(value: &Value) -> u64 {
    match value {
        Value::Octet(n) => *n as u64,
        Value::LongLong(n) => n.to_le_bytes()[0] as u64,
        Value::Long(n) => n.to_le_bytes()[0] as u64,
        Value::UShort(n) => *n as u64,
        Value::Text(text) => text.len() as u64,
        _ => 1,
    }
}

// A checksum of a Request: its id, the length of its operation, and its values.
fn checksum(sum: u64, request: &Request) -> u64 {
    let mut sum = mixed(sum, request.head.id as u64);
    sum = mixed(sum, request.head.operation.len() as u64);
    for value in request.body.as_slice() {
        sum = match value {
            Value::Members(members) => members
                .iter()
                .fold(sum, |sum, member| mixed(sum, leaf(member))),
            other => mixed(sum, leaf(other)),
        };
    }
    sum
}

// Reads a Request, MESSAGES times TIMES.
fn read(alloc: Global, interface: &Interface, octets: &[u8]) -> Option<u64> {
    if octets.len() > 1 << 62 {
        return None;
    }
    let source = SliceOctets::new(octets);
    let mut sum = 0;
    for k in 0..MESSAGES * TIMES {
        sum = mixed(sum, k as u64);
        let request = Request::decode(alloc, interface, &source, Version::V12, Order::Big).ok()?;
        sum = checksum(sum, &request);
    }
    Some(sum)
}

// Writes a Request, MESSAGES times TIMES.
fn write(alloc: Global, interface: &Interface, octets: &[u8]) -> Option<u64> {
    if octets.len() > 1 << 62 {
        return None;
    }
    let source = SliceOctets::new(octets);
    let request = Request::decode(alloc, interface, &source, Version::V12, Order::Big).ok()?;
    let mut sum = 0;
    for k in 0..MESSAGES * TIMES {
        sum = mixed(sum, k as u64);
        let written = request.encode(alloc, interface, Order::Big).ok()?;
        sum = mixed(sum, written.last().map_or(0, |octet| *octet as u64));
        sum = mixed(sum, written.len() as u64);
    }
    Some(sum)
}

// 64 MB that differ from octet to octet.
fn octets(alloc: Global) -> Option<Vec<u8>> {
    let mut octets = Vec::with_capacity(alloc, OCTETS).ok()?;
    for n in 0..OCTETS {
        octets.push((n % 251) as u8).ok()?;
    }
    Some(octets)
}

fn pieces(alloc: Global, joined: &[u8]) -> Option<Vec<Msg>> {
    if !can_cut(Kind::Request, joined, 4096) {
        return None;
    }
    cut(alloc, Version::V12, Kind::Request, Order::Big, joined, 4096).ok()
}

// A checksum of messages: how many, and the last octet of each.
fn ends(sum: u64, messages: &[Msg]) -> u64 {
    let mut sum = mixed(sum, messages.len() as u64);
    for message in messages {
        sum = mixed(
            sum,
            message
                .payload
                .as_slice()
                .last()
                .map_or(0, |octet| *octet as u64),
        );
    }
    sum
}

// Cuts 64 MB, TIMES times.
fn cut_all(alloc: Global) -> Option<u64> {
    let joined = octets(alloc)?;
    let mut sum = 0;
    for _ in 0..TIMES {
        let messages = pieces(alloc, joined.as_slice())?;
        sum = ends(sum, messages.as_slice());
    }
    Some(sum)
}

// What a message adds to the joined octets: the Fragments without their request id.
fn added(message: &Msg) -> &[u8] {
    let payload = message.payload.as_slice();
    match message.kind {
        Kind::Fragment => payload.get(4..).unwrap_or(payload),
        _ => payload,
    }
}

fn join(alloc: Global, messages: &[Msg]) -> Option<u64> {
    let mut gather = Gather::new(alloc, OCTETS);
    for message in messages {
        if gather.contains(4) {
            gather.add(4, Order::Big, added(message)).ok()?;
        } else {
            gather.begin(4, Order::Big, added(message)).ok()?;
        }
    }
    let total = gather.total() as u64;
    gather.discard(4);
    Some(total)
}

// Cuts 64 MB once, and joins the messages, TIMES times.
fn join_all(alloc: Global) -> Option<u64> {
    let joined = octets(alloc)?;
    let messages = pieces(alloc, joined.as_slice())?;
    let mut sum = 0;
    for _ in 0..TIMES {
        sum = mixed(sum, join(alloc, messages.as_slice())?);
    }
    Some(sum)
}

/// Runs a loop, and returns its checksum; `None` where there is no such loop, or it is out of
/// memory.
pub fn run(alloc: Global, name: &str) -> Option<u64> {
    let interface = interface_from_json(alloc, J).ok()?;
    match name {
        "add-read" => read(alloc, &interface, ADD),
        "add-write" => write(alloc, &interface, ADD),
        "put-read" => read(alloc, &interface, PUT),
        "put-write" => write(alloc, &interface, PUT),
        "cut" => cut_all(alloc),
        "join" => join_all(alloc),
        _ => None,
    }
}
