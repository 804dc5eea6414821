//! Where the object of a target is reached, and the connection to it.

use crate::report;
use crate::runs::link::Link;
use crate::runs::session::{linked, read, refused};
use giop_commands::convert::unended;
use giop_commands::failure::Failure;
use giop_commands::status::Status;
use giop_commands::{Endpoint, LineForm, Targeted, target_of};
use giop_lines::EscapedText;
use std::io::ErrorKind;
use std::net::{TcpStream, ToSocketAddrs};
use std::time::Duration;
use std::{io, str};

/// The text of a target: itself, or behind `@` that of a file, of which a newline at the end is
/// dropped.
pub fn target_text(rt: &HostRuntime, target: &str) -> Result<Vec<u8>, Status> {
    let text = match target.strip_prefix('@') {
        Some(file) => Vec::from_slice(rt.alloc(), unended(read(rt, file)?.as_slice())),
        None => Vec::from_slice(rt.alloc(), target.as_bytes()),
    };
    match text {
        Ok(text) => Ok(text),
        Err(_) => Err(report::answer(rt, target, Err(Failure::Memory))),
    }
}

/// The object of a target's text. Where the text is refused, its line is written in a form.
pub fn endpoint_of(
    rt: &HostRuntime,
    lines: LineForm,
    target: &str,
    text: &[u8],
) -> Result<Endpoint, Status> {
    match target_of(rt.alloc(), text) {
        Ok(Targeted::At(endpoint)) => Ok(endpoint),
        Ok(Targeted::Refused(line)) => Err(refused(rt, lines, line)),
        Err(failure) => Err(report::answer(rt, target, Err(failure))),
    }
}

/// The name of a peer, as standard error has it: `HOST:PORT`.
pub fn peer_of(rt: &HostRuntime, target: &str, endpoint: &Endpoint) -> Result<String, Status> {
    let host = EscapedText(endpoint.host.as_slice());
    match format!(in rt.alloc(); "{host}:{}", endpoint.port) {
        Ok(peer) => Ok(peer),
        Err(_) => Err(report::answer(rt, target, Err(Failure::Memory))),
    }
}

/// A connection to where an object is reached. A name is looked up, and each of its addresses is
/// tried. Where nothing comes or goes for so many seconds, if any are given, it fails.
pub fn connected(
    rt: &HostRuntime,
    endpoint: &Endpoint,
    timeout: Option<u32>,
) -> Result<Link, Failure> {
    let Ok(host) = str::from_utf8(endpoint.host.as_slice()) else {
        return Err(Failure::Connection(io::Error::from(ErrorKind::InvalidInput)));
    };
    let stream = match timeout {
        Some(seconds) => connect_within(rt, host, endpoint.port, seconds),
        None => TcpStream::connect(rt, (host, endpoint.port)),
    };
    match stream {
        Ok(stream) => linked(rt, stream, timeout),
        Err(error) => Err(Failure::connection(error)),
    }
}

// Tries each address of a host for so many seconds, and returns the last error where none answers.
fn connect_within(rt: &HostRuntime, host: &str, port: u16, seconds: u32) -> io::Result<TcpStream> {
    let mut last = io::Error::from(ErrorKind::InvalidInput);
    for address in (host, port).to_socket_addrs(rt)? {
        match TcpStream::connect_timeout(rt, &address, Duration::from_secs(u64::from(seconds))) {
            Ok(stream) => return Ok(stream),
            Err(error) => last = error,
        }
    }
    Err(last)
}
