//! Both ends in one process: a client's end calls `add`, so many times at once, and a server's end
//! answers. What one has to send is copied out and fed to the other, over memory or a connection.
ghost use Rattle.std.specs.Prelude.{◌≤◌};

use crate::c_calls::answering::answers;
use crate::c_calls::asking::{calls, takes};
use crate::c_calls::{LIMITS, copied};
use giop_end::{ClientEnd, End, Hearing, ServerEnd};
use giop_types::Interface;
use std::alloc::Global;
use std::io::{Read, Write};
use std::net::{Ipv4Addr, TcpListener, TcpStream};

// The octets of a Request, and of a Reply.
const REQUEST: usize = 56;

const REPLY: usize = 28;

// A buffer, into which the octets of 16 Requests go.
const ROOM: usize = 4_096;

// A connection: the client's side and the server's.
#[derive(Clone, Copy)]
struct Wires<'a> {
    client: &'a TcpStream,
    server: &'a TcpStream,
}

// Copies what an end has to send, so many octets, and says that they are written.
fn taken_out<R: Hearing>(
    end: &mut End<'_, R>,
    buffer: &mut [u8],
    wanted: usize,
    to: Option<&TcpStream>,
) -> Option<()> {
    let size = copied(end.outgoing(), buffer)?;
    if size != wanted {
        return None;
    }
    if let Some(stream) = to {
        let mut writer = stream;
        if writer.write(buffer.get(..size)?).ok()? != size {
            return None;
        }
    }
    end.wrote(size);
    Some(())
}

// Feeds an end from a connection by way of a buffer, until so many octets were read.
fn read_in<R: Hearing>(
    end: &mut End<'_, R>,
    octets: &mut [u8],
    wanted: usize,
    from: &TcpStream,
) -> Option<()> {
    let mut reader = from;
    let mut left = wanted;
    for _ in 0..wanted {
        let n = reader.read(octets).ok()?;
        if n == 0 {
            return None;
        }
        end.feed(octets.get(..n)?).ok()?;
        if n >= left {
            return Some(());
        }
        left -= n;
    }
    None
}

// What one end has to send goes to the other by way of a buffer: so many octets.
fn passes<A: Hearing, B: Hearing>(
    one: &mut End<'_, A>,
    other: &mut End<'_, B>,
    wire: Option<(&TcpStream, &TcpStream)>,
    octets: &mut [u8],
    wanted: usize,
) -> Option<()> {
    match wire {
        Some((to, from)) => {
            taken_out(one, octets, wanted, Some(to))?;
            read_in(other, octets, wanted, from)
        }
        None => {
            taken_out(one, octets, wanted, None)?;
            other.feed(octets.get(..wanted)?).ok()
        }
    }
}

fn call_all(
    alloc: Global,
    interface: &Interface,
    client: &mut ClientEnd<'_>,
    at_once: usize,
) -> Option<()>
    requires { at_once ≤ 16 }
{
    for id in 0..at_once as u32 {
        calls(alloc, interface, client, id)?;
    }
    Some(())
}

fn answer_all(
    alloc: Global,
    interface: &Interface,
    server: &mut ServerEnd<'_>,
    at_once: usize,
    sum: u64,
) -> Option<u64>
    requires { at_once ≤ 16 }
{
    let mut sum = sum;
    for id in 0..at_once as u32 {
        sum = answers(alloc, interface, server, id, sum)?.0;
        server.take(id).ok()?;
    }
    Some(sum)
}

fn take_all(
    alloc: Global,
    interface: &Interface,
    client: &mut ClientEnd<'_>,
    at_once: usize,
    sum: u64,
) -> Option<u64>
    requires { at_once ≤ 16 }
{
    let mut sum = sum;
    for id in 0..at_once as u32 {
        sum = takes(alloc, interface, client, id, sum)?;
    }
    Some(sum)
}

// So many waves of calls between two ends, and what they come to.
fn waves_of(
    alloc: Global,
    interface: &Interface,
    client: &mut ClientEnd<'_>,
    server: &mut ServerEnd<'_>,
    wires: Option<&Wires<'_>>,
    count: u32,
    at_once: usize,
) -> Option<u64>
    requires { at_once ≤ 16 }
{
    let there = wires.map(|wires| (wires.client, wires.server));
    let back = wires.map(|wires| (wires.server, wires.client));
    let mut octets = [0u8; ROOM];
    let mut sum = 0;
    for _ in 0..count {
        call_all(alloc, interface, client, at_once)?;
        passes(client, server, there, &mut octets, REQUEST * at_once)?;
        sum = answer_all(alloc, interface, server, at_once, sum)?;
        passes(server, client, back, &mut octets, REPLY * at_once)?;
        sum = take_all(alloc, interface, client, at_once, sum)?;
    }
    Some(sum)
}

fn waves(
    alloc: Global,
    interface: &Interface,
    client: &mut ClientEnd<'_>,
    wires: Option<&Wires<'_>>,
    count: u32,
    at_once: usize,
) -> Option<u64>
    requires { at_once ≤ 16 }
{
    let mut server = ServerEnd::new(alloc, interface, LIMITS);
    waves_of(alloc, interface, client, &mut server, wires, count, at_once)
}

/// Waves of calls over memory. Their checksum.
pub fn over_memory(alloc: Global, interface: &Interface, count: u32, at_once: usize) -> Option<u64>
    requires { at_once ≤ 16 }
{
    let mut client = ClientEnd::new(alloc, interface, LIMITS);
    waves(alloc, interface, &mut client, None, count, at_once)
}

/// Waves of calls over a connection on 127.0.0.1. Their checksum.
pub fn over_loopback(
    rt: &HostRuntime,
    interface: &Interface,
    count: u32,
    at_once: usize,
) -> Option<u64>
    requires { at_once ≤ 16 }
{
    let listener = TcpListener::bind(rt, (Ipv4Addr::LOCALHOST, 0)).ok()?;
    let client = TcpStream::connect(rt, listener.local_addr().ok()?).ok()?;
    let (server, _) = listener.accept().ok()?;
    let wires = Wires {
        client: &client,
        server: &server,
    };
    let mut end = ClientEnd::new(rt.alloc(), interface, LIMITS);
    waves(
        rt.alloc(),
        interface,
        &mut end,
        Some(&wires),
        count,
        at_once,
    )
}
