//! A server's end: 1,000,000 Requests of `ping` and `add` in turn over 512 ids, each heard,
//! answered, written and taken; answered at once, or with 512 calls that wait. And 64 MB of
//! Requests of `put`, ten times, each of some 16 KB in messages of 512 octets, 64 of them piece by
//! piece. `bench/session/twin.rs` does the same in plain Rust.
ghost use Rattle.std.specs.Prelude.{◌≡◌, ◌<◌, ◌≤◌, ◌^◌, length};

use giop_calls::ServerEntry;
use giop_cdr::{OctetList, Order};
use giop_end::{Form, Limits, ServerEnd};
use giop_json::interface_from_json;
use giop_msg::{
    Kind, Msg, Reply, ReplyBody, Request, RequestHead, ServiceContexts, Target, Version, can_cut,
    cut,
};
use giop_types::{Interface, Value, ValueList};
use std::alloc::{AllocError, Global};

/// How many calls a loop hears.
pub const CALLS: u32 = 1_000_000;

/// Over how many ids.
pub const IDS: u32 = 512;

// How many Requests come piece by piece together, of how many octets, and how often they come:
// 64 MB, ten times.
const TOGETHER: u32 = 64;

const PUT: usize = 16_384;

const ROUNDS: u32 = 640;

/// The interface of the loops.
pub const J: &[u8] =
    b"{\"operations\":{\"ping\":{},\"add\":{\"ins\":[[\"a\",\"long\"],[\"b\",\"long\"]],\"outs\":[[\"sum\",\"long\"]]},\"put\":{\"ins\":[[\"o\",\"octets\"]]}}}";

/// Limits that no loop meets but one with more calls open.
pub const LIMITS: Limits = Limits {
    calls: 1024,
    message: 1 << 20,
    gathered: 8 << 20,
};

/// A Request of `ping`.
pub const PING: [u8; 48] = [
    0x47, 0x49, 0x4F, 0x50, 1, 2, 0, 0, 0, 0, 0, 0x24, 0, 0, 0, 1, 3, 0, 0, 0, 0, 0, 0, 0, 0, 0, 0,
    1, 0x6B, 0, 0, 0, 0, 0, 0, 5, 0x70, 0x69, 0x6E, 0x67, 0, 0, 0, 0, 0, 0, 0, 0,
];

/// A Request of `add` of 2 and 5.
pub const ADD: [u8; 56] = [
    0x47, 0x49, 0x4F, 0x50, 1, 2, 0, 0, 0, 0, 0, 0x2C, 0, 0, 0, 4, 3, 0, 0, 0, 0, 0, 0, 0, 0, 0, 0,
    1, 0x6B, 0, 0, 0, 0, 0, 0, 4, 0x61, 0x64, 0x64, 0, 0, 0, 0, 0, 0, 0, 0, 0, 0, 0, 0, 2, 0, 0, 0,
    5,
];

/// A checksum of what came before and one value more.
pub fn mixed(sum: u64, value: u64) -> u64 {
    sum.wrapping_mul(1_099_511_628_211) ^ value
}

fn leaf(value: &Value) -> u64 {
    match value {
        Value::Long(n) => n.to_le_bytes()[0] as u64,
        Value::Octets(octets) => octets.as_slice().last().map_or(0, |octet| *octet as u64),
        _ => 1,
    }
}

// A checksum of what was asked: its id, the length of its operation, and its values.
fn checksum(sum: u64, request: &Request) -> u64 {
    let sum = mixed(sum, request.head.id as u64);
    let sum = mixed(sum, request.head.operation.len() as u64);
    request
        .body
        .as_slice()
        .iter()
        .fold(sum, |sum, value| mixed(sum, leaf(value)))
}

fn plus(sum: i32, value: &Value) -> i32 {
    match value {
        Value::Long(n) => sum.wrapping_add(*n),
        _ => sum,
    }
}

// What is answered: to `add` the sum, and else nothing.
fn outs(alloc: Global, request: &Request) -> Result<ValueList, AllocError> {
    let mut outs = ValueList::new(alloc);
    if request.head.operation.as_slice() == b"add".as_slice() {
        let sum = request.body.as_slice().iter().fold(0, plus);
        outs.push(Value::Long(sum))?;
    }
    Ok(outs)
}

// Answers the call of an id.
fn answer(alloc: Global, end: &mut ServerEnd<'_>, id: u32, sum: u64) -> Option<u64> {
    let ServerEntry::Asked { request } = end.entry(id)? else {
        return None;
    };
    let sum = checksum(sum, request);
    let reply = Reply {
        version: Version::V12,
        id,
        contexts: ServiceContexts::new(alloc),
        body: ReplyBody::NoException(outs(alloc, request).ok()?),
    };
    end.answer(reply, Form::default()).ok()?;
    Some(sum)
}

// Writes all that is outgoing: its length, and its last octet.
fn write(end: &mut ServerEnd<'_>, sum: u64) -> u64 {
    let octets = end.outgoing();
    let n = octets.len();
    let sum = mixed(sum, octets.last().map_or(0, |octet| *octet as u64));
    end.wrote(n);
    mixed(sum, n as u64)
}

/// Answers the call of an id, writes the reply, and takes the entry.
pub fn serve(alloc: Global, end: &mut ServerEnd<'_>, id: u32, sum: u64) -> Option<u64> {
    let sum = answer(alloc, end, id, sum)?;
    let sum = write(end, sum);
    match end.take(id).ok()?? {
        ServerEntry::Answered { left, .. } => Some(mixed(sum, left as u64)),
        _ => None,
    }
}

/// Writes the request id of a message.
pub fn set_id(message: &mut [u8], id: u32)
    requires { 16 ≤ length message.old }
    ensures { length message.new ≡ length message.old }
{
    message[12..16].copy_from_slice(&id.to_be_bytes());
}

/// Feeds a message under a request id.
pub fn feed_as(end: &mut ServerEnd<'_>, message: &mut [u8], id: u32) -> Option<()>
    requires { 16 ≤ length message.old }
    ensures { length message.new ≡ length message.old }
{
    set_id(message, id);
    end.feed(message).ok()
}

/// Hears so many calls over so many ids, each answered when so many wait.
pub fn calls(
    alloc: Global,
    interface: &Interface,
    limits: Limits,
    count: u32,
    ids: u32,
    waiting: u32,
) -> Option<u64>
    requires held { limits.gathered ≤ 2 ^ 62 }
    requires some { 0 < waiting }
    requires most { waiting ≤ count }
    requires ids { 0 < ids }
{
    let mut end = ServerEnd::new(alloc, interface, limits);
    heard(alloc, &mut end, count, ids, waiting)
}

// An end hears the calls, and answers them.
fn heard(alloc: Global, end: &mut ServerEnd<'_>, count: u32, ids: u32, waiting: u32) -> Option<u64>
    requires some { 0 < waiting }
    requires most { waiting ≤ count }
    requires ids { 0 < ids }
{
    let (mut ping, mut add) = (PING, ADD);
    let mut sum = 0;
    for k in 0..count {
        if k % 2 == 0 {
            feed_as(end, &mut ping, k % ids)?;
        } else {
            feed_as(end, &mut add, k % ids)?;
        }
        if k + 1 >= waiting {
            sum = serve(alloc, end, (k + 1 - waiting) % ids, sum)?;
        }
    }
    for k in count - (waiting - 1)..count {
        sum = serve(alloc, end, k % ids, sum)?;
    }
    Some(mixed(sum, end.rest() as u64))
}

// The octets of `put`, which differ from one to the next.
fn some_octets(alloc: Global) -> Result<OctetList, AllocError> {
    let mut octets = Vec::with_capacity(alloc, PUT)?;
    for n in 0..PUT {
        octets.push((n % 251) as u8)?;
    }
    Ok(OctetList::from(octets))
}

fn put_request(alloc: Global) -> Result<Request, AllocError> {
    let head = RequestHead {
        version: Version::V12,
        id: 0,
        flags: 3,
        target: Target::Key(OctetList::from_slice(alloc, b"k")?),
        operation: OctetList::from_slice(alloc, b"put")?,
        contexts: ServiceContexts::new(alloc),
    };
    let mut body = ValueList::new(alloc);
    body.push(Value::Octets(some_octets(alloc)?))?;
    Ok(Request { head, body })
}

// The octets of a message.
fn spelled(alloc: Global, message: &Msg) -> Option<Vec<u8>> {
    let payload = message.payload.as_slice();
    if payload.len() >= 1 << 32 {
        return None;
    }
    let mut octets = Vec::with_capacity(alloc, 512).ok()?;
    octets.extend_from_slice(&message.header().octets()).ok()?;
    octets.extend_from_slice(payload).ok()?;
    Some(octets)
}

fn put_octets(alloc: Global, interface: &Interface) -> Option<Vec<u8>> {
    let request = put_request(alloc).ok()?;
    request.encode(alloc, interface, Order::Big).ok()
}

// The messages of a Request's octets, of so many octets at most.
fn messages(alloc: Global, joined: &[u8], piece: u32) -> Option<Vec<Msg>> {
    if !can_cut(Kind::Request, joined, piece) {
        return None;
    }
    cut(
        alloc,
        Version::V12,
        Kind::Request,
        Order::Big,
        joined,
        piece,
    )
    .ok()
}

fn all_spelled(alloc: Global, messages: &[Msg]) -> Option<Vec<Vec<u8>>> {
    let mut pieces = Vec::new(alloc);
    for message in messages {
        pieces.push(spelled(alloc, message)?).ok()?;
    }
    Some(pieces)
}

/// The messages of a Request of `put`, of so many octets at most.
pub fn pieces(alloc: Global, interface: &Interface, piece: u32) -> Option<Vec<Vec<u8>>> {
    let joined = put_octets(alloc, interface)?;
    let messages = messages(alloc, &joined, piece)?;
    all_spelled(alloc, &messages)
}

// Feeds a message once with each id.
fn feed_all(end: &mut ServerEnd<'_>, message: &mut [u8]) -> Option<()> {
    if message.len() < 16 {
        return None;
    }
    for id in 0..TOGETHER {
        feed_as(end, message, id)?;
    }
    Some(())
}

// Feeds the pieces, each with every id before the next piece, and serves what is whole then.
fn round(alloc: Global, end: &mut ServerEnd<'_>, pieces: &mut [Vec<u8>], sum: u64) -> Option<u64> {
    for piece in pieces.iter_mut() {
        feed_all(end, piece)?;
    }
    let mut sum = sum;
    for id in 0..TOGETHER {
        sum = serve(alloc, end, id, sum)?;
    }
    Some(sum)
}

// Hears 64 MB in pieces.
fn put_all(alloc: Global, interface: &Interface) -> Option<u64> {
    let mut pieces = pieces(alloc, interface, 512)?;
    let mut end = ServerEnd::new(alloc, interface, LIMITS);
    rounds(alloc, &mut end, &mut pieces)
}

// All rounds of the pieces.
fn rounds(alloc: Global, end: &mut ServerEnd<'_>, pieces: &mut [Vec<u8>]) -> Option<u64> {
    let mut sum = 0;
    for _ in 0..ROUNDS {
        sum = round(alloc, end, pieces, sum)?;
    }
    Some(mixed(sum, end.rest() as u64))
}

/// Runs a loop, and returns its checksum; `None` where there is no such loop, or it is out of
/// memory.
pub fn run(alloc: Global, name: &str) -> Option<u64> {
    let interface = interface_from_json(alloc, J).ok()?;
    match name {
        "calls" => calls(alloc, &interface, LIMITS, CALLS, IDS, 1),
        "calls-512" => calls(alloc, &interface, LIMITS, CALLS, IDS, IDS),
        "pieces" => put_all(alloc, &interface),
        _ => None,
    }
}
