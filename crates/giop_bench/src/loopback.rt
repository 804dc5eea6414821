//! 100,000 calls of `add` on one connection over 127.0.0.1, 16 at a time: a client's end calls, a
//! server's end answers, and each writes and reads its own socket. `bench/session/twin.rs` does the
//! same in plain Rust.
ghost use Rattle.std.specs.Prelude.{◌<◌, ◌≤◌};

use giop_calls::{ClientEntry, ServerEntry};
use giop_cdr::OctetList;
use giop_end::{ClientEnd, End, Form, Hearing, Limits, ServerEnd, turn, write_out};
use giop_json::interface_from_json;
use giop_msg::{Reply, ReplyBody, Request, RequestHead, ServiceContexts, Target, Version};
use giop_types::{Interface, Value, ValueList};
use std::alloc::{AllocError, Global};
use std::net::{Ipv4Addr, TcpListener, TcpStream};

const WAVES: u32 = 6_250;

const TOGETHER: u32 = 16;

/// The octets of a Request.
pub const REQUEST: usize = 56;

/// The octets of a Reply.
pub const REPLY: usize = 28;

/// The interface of the calls.
pub const J: &[u8] =
    b"{\"operations\":{\"add\":{\"ins\":[[\"a\",\"long\"],[\"b\",\"long\"]],\"outs\":[[\"sum\",\"long\"]]}}}";

/// Limits that no loop meets.
pub const LIMITS: Limits = Limits {
    calls: 1024,
    message: 1 << 20,
    gathered: 8 << 20,
};

fn mixed(sum: u64, value: u64) -> u64 {
    sum.wrapping_mul(1_099_511_628_211) ^ value
}

fn longs(alloc: Global, values: &[i32]) -> Result<ValueList, AllocError> {
    let mut list = ValueList::new(alloc);
    for value in values {
        list.push(Value::Long(*value))?;
    }
    Ok(list)
}

// The Request of an id: it adds its id to 2.
fn asked(alloc: Global, id: u32) -> Result<Request, AllocError>
    requires { id < 16 }
{
    let head = RequestHead {
        version: Version::V12,
        id,
        flags: 3,
        target: Target::Key(OctetList::from_slice(alloc, b"k")?),
        operation: OctetList::from_slice(alloc, b"add")?,
        contexts: ServiceContexts::new(alloc),
    };
    let body = longs(alloc, &[2, id as i32])?;
    Ok(Request { head, body })
}

/// Calls so many times at once, and writes the Requests.
pub fn call_all(
    alloc: Global,
    end: &mut ClientEnd<'_>,
    stream: &TcpStream,
    at_once: u32,
) -> Option<()>
    requires { at_once ≤ 16 }
{
    for id in 0..at_once {
        end.call(asked(alloc, id).ok()?, Form::default()).ok()?;
    }
    let mut writer = stream;
    write_out(end, &mut writer).ok()
}

/// Takes turns until so many octets were read.
pub fn hear<R: Hearing>(end: &mut End<'_, R>, stream: &TcpStream, octets: usize) -> Option<()> {
    let mut reader = stream;
    let mut writer = stream;
    let mut left = octets;
    for _ in 0..octets {
        let n = turn(end, &mut reader, &mut writer).ok()?;
        if n >= left {
            return Some(());
        }
        left -= n;
    }
    None
}

fn long_of(values: &ValueList, at: usize) -> i32 {
    match values.as_slice().get(at) {
        Some(Value::Long(n)) => *n,
        _ => 0,
    }
}

// What is answered to the call of an id: its sum.
fn reply_to(alloc: Global, end: &ServerEnd<'_>, id: u32) -> Option<Reply> {
    let ServerEntry::Asked { request } = end.entry(id)? else {
        return None;
    };
    let sum = long_of(&request.body, 0).wrapping_add(long_of(&request.body, 1));
    Some(Reply {
        version: Version::V12,
        id,
        contexts: ServiceContexts::new(alloc),
        body: ReplyBody::NoException(longs(alloc, &[sum]).ok()?),
    })
}

/// Answers the call of an id, and takes it out.
pub fn answer(alloc: Global, end: &mut ServerEnd<'_>, id: u32) -> Option<()> {
    let reply = reply_to(alloc, end, id)?;
    end.answer(reply, Form::default()).ok()?;
    end.take(id).ok()?;
    Some(())
}

fn answer_all(alloc: Global, end: &mut ServerEnd<'_>, stream: &TcpStream) -> Option<()> {
    for id in 0..TOGETHER {
        answer(alloc, end, id)?;
    }
    let mut writer = stream;
    write_out(end, &mut writer).ok()
}

// What a call came to.
fn sum_of(entry: &ClientEntry) -> Option<i32> {
    let ClientEntry::Done { reply, .. } = entry else {
        return None;
    };
    let ReplyBody::NoException(outs) = &reply.body else {
        return None;
    };
    Some(long_of(outs, 0))
}

/// Takes each of so many calls out, with what it came to.
pub fn take_all(end: &mut ClientEnd<'_>, at_once: u32, sum: u64) -> Option<u64> {
    let mut sum = sum;
    for id in 0..at_once {
        let entry = end.take(id).ok()??;
        sum = mixed(sum, sum_of(&entry)?.to_le_bytes()[0] as u64);
    }
    Some(sum)
}

// Calls, answers and takes out so many calls at once, over both ends of a connection.
fn wave(
    alloc: Global,
    client: &mut ClientEnd<'_>,
    calling: &TcpStream,
    server: &mut ServerEnd<'_>,
    serving: &TcpStream,
    sum: u64,
) -> Option<u64> {
    call_all(alloc, client, calling, TOGETHER)?;
    hear(server, serving, 16 * REQUEST)?;
    answer_all(alloc, server, serving)?;
    hear(client, calling, 16 * REPLY)?;
    take_all(client, TOGETHER, sum)
}

fn waves(
    alloc: Global,
    client: &mut ClientEnd<'_>,
    calling: &TcpStream,
    server: &mut ServerEnd<'_>,
    serving: &TcpStream,
) -> Option<u64> {
    let mut sum = 0;
    for _ in 0..WAVES {
        sum = wave(alloc, client, calling, server, serving, sum)?;
    }
    Some(sum)
}

fn run_by(
    alloc: Global,
    interface: &Interface,
    client: &mut ClientEnd<'_>,
    calling: &TcpStream,
    serving: &TcpStream,
) -> Option<u64> {
    let mut server = ServerEnd::new(alloc, interface, LIMITS);
    waves(alloc, client, calling, &mut server, serving)
}

fn run_over(alloc: Global, calling: &TcpStream, serving: &TcpStream) -> Option<u64> {
    let interface = interface_from_json(alloc, J).ok()?;
    let mut client = ClientEnd::new(alloc, &interface, LIMITS);
    run_by(alloc, &interface, &mut client, calling, serving)
}

/// Runs the calls, and returns a checksum of what they came to; `None` where a connection can't be
/// made or breaks, or it is out of memory.
pub fn run(rt: &HostRuntime) -> Option<u64> {
    let listener = TcpListener::bind(rt, (Ipv4Addr::LOCALHOST, 0)).ok()?;
    let calling = TcpStream::connect(rt, listener.local_addr().ok()?).ok()?;
    let (serving, _) = listener.accept().ok()?;
    run_over(rt.alloc(), &calling, &serving)
}
