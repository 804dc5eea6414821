//! Values by their description: a sequence of 100,000 structs of an octet, a long long, a string of
//! 16 octets, an unsigned short and a boolean, and a sequence of 100,000 longs, read and written;
//! such longs in the machine's own order, read and written again as a value and as a list of
//! numbers, beside a copy and a tree.
//! And 10,000 and 100,000 such structs as JSON, written, and written and read again.
//! `bench/types/twin.rs` does the same in plain Rust, but for what reads JSON.
use crate::work::mixed;
use giop_cdr::{CdrIn, CdrOut, Order, SliceOctets};
use giop_json::{desc_from_json, value_from_json, value_to_json};
use giop_types::{CheckedDesc, Value, decode, encode};
use std::alloc::{AllocError, Global};

const STRUCTS: &[u8] =
    b"{\"sequence\":{\"struct\":[[\"a\",\"octet\"],[\"b\",\"longlong\"],[\"c\",\"string\"],[\"d\",\"ushort\"],[\"e\",\"boolean\"]]}}";

const LONGS: &[u8] = b"{\"sequence\":\"long\"}";

const VALUES: u32 = 100_000;

const TIMES: u32 = 10;

// How often longs are read and written again.
const MANY: u32 = 200;

fn structs(alloc: Global, count: u32) -> Result<Vec<u8>, AllocError> {
    let mut out = CdrOut::new(alloc, Order::Big, 0);
    out.write_ulong(count)?;
    for i in 0..count {
        out.write_octet(7)?;
        out.write_longlong(i as i64)?;
        out.write_string(b"a text of length")?;
        out.write_ushort(9)?;
        out.write_boolean(true)?;
    }
    Ok(out.into_bytes())
}

fn longs(alloc: Global, order: Order) -> Result<Vec<u8>, AllocError> {
    let mut out = CdrOut::new(alloc, order, 0);
    out.write_ulong(VALUES)?;
    for i in 0..VALUES {
        out.write_ulong(i)?;
    }
    Ok(out.into_bytes())
}

fn leaf(value: &Value) -> u64 {
    match value {
        Value::Octet(n) => *n as u64,
        Value::LongLong(n) => n.to_le_bytes()[0] as u64,
        Value::Long(n) => n.to_le_bytes()[0] as u64,
        Value::UShort(n) => *n as u64,
        Value::Text(text) => text.len() as u64,
        _ => 1,
    }
}

// A checksum of all items, or of their members.
fn checksum(value: &Value) -> u64 {
    let Value::Items(items) = value else {
        return 0;
    };
    let mut sum = 0;
    for item in items {
        sum = match item {
            Value::Members(members) => members
                .iter()
                .fold(sum, |sum, member| mixed(sum, leaf(member))),
            other => mixed(sum, leaf(other)),
        };
    }
    sum
}

// The value that a message spells.
fn value_of(alloc: Global, desc: &CheckedDesc, message: &[u8], order: Order) -> Option<Value> {
    if message.len() > 1 << 62 {
        return None;
    }
    let source = SliceOctets::new(message);
    decode(alloc, &mut CdrIn::new(&source, order, 0), desc).ok()
}

// A checksum of what came before and of octets that were written.
fn written(sum: u64, out: &CdrOut) -> u64 {
    let octets = out.as_slice();
    let sum = mixed(sum, octets.last().map_or(0, |octet| *octet as u64));
    mixed(sum, octets.len() as u64)
}

// Reads the value of a message, TIMES times.
fn read(alloc: Global, desc: &CheckedDesc, message: &[u8]) -> Option<u64> {
    let mut sum = 0;
    for _ in 0..TIMES {
        let value = value_of(alloc, desc, message, Order::Big)?;
        sum = mixed(sum, checksum(&value));
    }
    Some(sum)
}

// Writes the value of a message, TIMES times.
fn write(alloc: Global, desc: &CheckedDesc, message: &[u8]) -> Option<u64> {
    let value = value_of(alloc, desc, message, Order::Big)?;
    let mut sum = 0;
    for _ in 0..TIMES {
        let mut out = CdrOut::new(alloc, Order::Big, 0);
        encode(&mut out, desc, &value).ok()?;
        sum = written(sum, &out);
    }
    Some(sum)
}

// Reads the value of a message in little-endian order and writes it again.
fn both_once(alloc: Global, desc: &CheckedDesc, message: &[u8], sum: u64) -> Option<u64> {
    let value = value_of(alloc, desc, message, Order::Little)?;
    let mut out = CdrOut::with_room(alloc, Order::Little, 0, message.len()).ok()?;
    encode(&mut out, desc, &value).ok()?;
    Some(written(mixed(sum, checksum(&value)), &out))
}

// The same, MANY times.
fn both(alloc: Global, desc: &CheckedDesc, message: &[u8]) -> Option<u64> {
    let mut sum = 0;
    for _ in 0..MANY {
        sum = both_once(alloc, desc, message, sum)?;
    }
    Some(sum)
}

// Reads the longs of a message in little-endian order at once and writes them again, MANY times.
fn flat(alloc: Global, message: &[u8]) -> Option<u64> {
    let source = SliceOctets::new(message);
    if message.len() > 1 << 62 {
        return None;
    }
    let mut sum = 0;
    for _ in 0..MANY {
        let mut input = CdrIn::new(&source, Order::Little, 0);
        let longs = input.read_longs(alloc).ok()?;
        let read = longs
            .iter()
            .fold(0, |sum, n| mixed(sum, n.to_le_bytes()[0] as u64));
        sum = mixed(sum, read);
        let mut out = CdrOut::with_room(alloc, Order::Little, 0, message.len()).ok()?;
        out.write_longs(longs.as_slice()).ok()?;
        sum = written(sum, &out);
    }
    Some(sum)
}

fn json_once(
    alloc: Global,
    desc: &CheckedDesc,
    value: &Value,
    again: bool,
    sum: u64,
) -> Option<u64> {
    let json = value_to_json(alloc, desc, value).ok()?;
    if !again {
        return Some(sum);
    }
    let back = value_from_json(alloc, desc, &json).ok()?;
    Some(mixed(sum, checksum(&back)))
}

// Writes the value of a message as JSON, TIMES times, and reads it again where that is asked for.
fn json(alloc: Global, desc: &CheckedDesc, message: &[u8], again: bool) -> Option<u64> {
    let value = value_of(alloc, desc, message, Order::Big)?;
    let mut sum = checksum(&value);
    for _ in 0..TIMES {
        sum = json_once(alloc, desc, &value, again, sum)?;
    }
    Some(sum)
}

// The message of a loop.
fn message_of(alloc: Global, name: &str) -> Option<Vec<u8>> {
    let message = match name {
        "structs-read" | "structs-write" => structs(alloc, VALUES),
        "json-write" | "json-again" => structs(alloc, VALUES / 10),
        "json-write-10" | "json-again-10" => structs(alloc, VALUES),
        "longs-read" | "longs-write" => longs(alloc, Order::Big),
        "longs-both" | "longs-flat" => longs(alloc, Order::Little),
        _ => return None,
    };
    message.ok()
}

// The description of its value.
fn description_of(alloc: Global, name: &str) -> Option<CheckedDesc> {
    let text = if name.starts_with("longs") {
        LONGS
    } else {
        STRUCTS
    };
    desc_from_json(alloc, text).ok()
}

// Runs the loop of a name over a message.
fn looped(alloc: Global, name: &str, desc: &CheckedDesc, message: &[u8]) -> Option<u64> {
    if name.starts_with("json") {
        json(alloc, desc, message, name.starts_with("json-again"))
    } else if name.ends_with("flat") {
        flat(alloc, message)
    } else if name.ends_with("both") {
        both(alloc, desc, message)
    } else if name.ends_with("read") {
        read(alloc, desc, message)
    } else {
        write(alloc, desc, message)
    }
}

/// Runs a loop, and returns its checksum; `None` where there is no such loop, or it is out of
/// memory.
pub fn run(alloc: Global, name: &str) -> Option<u64> {
    let message = message_of(alloc, name)?;
    let desc = description_of(alloc, name)?;
    looped(alloc, name, &desc, &message)
}
