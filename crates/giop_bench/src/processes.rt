//! One end of a connection over 127.0.0.1 in a process of its own, by `turn`: a server's end, which
//! answers each call of `add` until the connection ends, and a client's end, which calls 100,000
//! times, 1 or 16 at once. `bench/processes/run` times both beside omniORB's.
ghost use Rattle.std.specs.Prelude.{◌≤◌};

use crate::loopback::{J, LIMITS, REPLY, answer, call_all, hear, take_all};
use giop_end::{ClientEnd, ServerEnd, turn};
use giop_json::interface_from_json;
use std::alloc::Global;
use std::net::{Ipv4Addr, TcpListener, TcpStream};

const CALLS: u32 = 100_000;

// Answers each call that is there, and takes it out. How many there were.
fn answer_each(alloc: Global, end: &mut ServerEnd<'_>) -> Option<u64> {
    let ids = end.ids(alloc).ok()?;
    for id in &ids {
        answer(alloc, end, *id)?;
    }
    Some(ids.len() as u64)
}

// Answers until the connection ends. How many calls there were.
fn serve_all(alloc: Global, end: &mut ServerEnd<'_>, stream: &TcpStream) -> Option<u64> {
    let mut served: u64 = 0;
    for _ in 0..u32::MAX {
        let mut reader = stream;
        let mut writer = stream;
        if turn(end, &mut reader, &mut writer).ok()? == 0 {
            return Some(served);
        }
        served = served.wrapping_add(answer_each(alloc, end)?);
    }
    None
}

fn serve(alloc: Global, stream: &TcpStream) -> Option<u64> {
    let interface = interface_from_json(alloc, J).ok()?;
    let mut end = ServerEnd::new(alloc, &interface, LIMITS);
    serve_all(alloc, &mut end, stream)
}

/// Prints its port, and serves one connection there. How many calls there were; `None` where the
/// connection breaks, or it is out of memory.
pub fn server(rt: &HostRuntime) -> Option<u64> {
    let listener = TcpListener::bind(rt, (Ipv4Addr::LOCALHOST, 0)).ok()?;
    println!(rt; "{}", listener.local_addr().ok()?.port()).ok()?;
    let (stream, _) = listener.accept().ok()?;
    serve(rt.alloc(), &stream)
}

// Calls CALLS times, so many at once.
fn call_each(
    alloc: Global,
    end: &mut ClientEnd<'_>,
    stream: &TcpStream,
    at_once: u32,
) -> Option<u64>
    requires { at_once ≤ 16 }
{
    if at_once == 0 {
        return None;
    }
    let mut sum = 0;
    for _ in 0..CALLS / at_once {
        call_all(alloc, end, stream, at_once)?;
        hear(end, stream, at_once as usize * REPLY)?;
        sum = take_all(end, at_once, sum)?;
    }
    Some(sum)
}

fn call(alloc: Global, stream: &TcpStream, at_once: u32) -> Option<u64>
    requires { at_once ≤ 16 }
{
    let interface = interface_from_json(alloc, J).ok()?;
    let mut end = ClientEnd::new(alloc, &interface, LIMITS);
    call_each(alloc, &mut end, stream, at_once)
}

/// Calls the server at a port, so many times at once. A checksum of what the calls came to; `None`
/// where no connection can be made or it breaks, or it is out of memory.
pub fn client(rt: &HostRuntime, port: &str, at_once: u32) -> Option<u64>
    requires { at_once ≤ 16 }
{
    let port = port.parse::<u16>().ok()?;
    let stream = TcpStream::connect(rt, (Ipv4Addr::LOCALHOST, port)).ok()?;
    call(rt.alloc(), &stream, at_once)
}
