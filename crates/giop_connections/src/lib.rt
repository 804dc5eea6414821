//! What giopctl's commands have in common over connections: how one is made, read and written, how an
//! end sends on it, and what standard error says where it ended.
#![tactic(auto)]

pub mod door;
pub mod endings;
pub mod link;
pub mod sending;

use crate::link::Link;
use giop_commands::Endpoint;
use giop_show::failure::Failure;
use std::io::ErrorKind;
use std::net::{TcpStream, ToSocketAddrs};
use std::time::Duration;
use std::{io, str};

/// A connection to where an object is reached. A name is looked up, and each of its addresses is
/// tried. Where nothing comes or goes for so many seconds, if any are given, it fails.
pub fn connect(
    rt: &HostRuntime,
    endpoint: &Endpoint,
    timeout: Option<u32>,
) -> Result<Link, Failure> {
    let Ok(host) = str::from_utf8(endpoint.host.as_slice()) else {
        return Err(Failure::Connection(io::Error::from(ErrorKind::InvalidInput)));
    };
    let stream = match timeout {
        Some(seconds) => connect_within(rt, host, endpoint.port, seconds),
        None => TcpStream::connect(rt, (host, endpoint.port)),
    };
    match stream {
        Ok(stream) => link_of(rt, stream, timeout),
        Err(error) => Err(Failure::connection(error)),
    }
}

// Tries each address of a host for so many seconds, and returns the last error where none answers.
fn connect_within(rt: &HostRuntime, host: &str, port: u16, seconds: u32) -> io::Result<TcpStream> {
    let mut last = io::Error::from(ErrorKind::InvalidInput);
    for address in (host, port).to_socket_addrs(rt)? {
        match TcpStream::connect_timeout(rt, &address, Duration::from_secs(u64::from(seconds))) {
            Ok(stream) => return Ok(stream),
            Err(error) => last = error,
        }
    }
    Err(last)
}

// A connection that is read while it is written to. Where nothing comes or goes for so many
// seconds, if any are given, it fails.
fn link_of(rt: &HostRuntime, stream: TcpStream, timeout: Option<u32>) -> Result<Link, Failure> {
    match Link::new(rt.alloc(), stream, timeout) {
        Ok(link) => Ok(link),
        Err(error) => Err(Failure::connection(error)),
    }
}
