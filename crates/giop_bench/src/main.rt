//! Loops that are timed from outside, beside plain Rust twins in `bench/`. The first argument names
//! the loop, the second how often a loop over CDR runs, or over how many ids fragments come. It
//! does its work and prints a checksum, which the twin has to print too.
#![tactic(auto)]

ghost use Rattle.std.specs.Prelude.{◌<◌};

mod c_calls;
mod frag;
mod ior;
mod loopback;
mod msg;
mod mux;
mod processes;
mod read;
mod scale;
mod session;
mod types;
mod work;
mod write;

use std::alloc::Global;
use std::{env, io};
use work::Work;

const USAGE: &str = "usage: giop_bench mux
or giop_bench frag-(24|512|4096)[-again] IDS, where IDS is 1, 64 or 1024
or giop_bench types-(structs|longs)-(read|write), types-longs-(both|flat),
or giop_bench types-json-(write|again)[-10],
or giop_bench msg-(add|put)-(read|write) or msg-cut or msg-join,
or giop_bench ior-(text|corbaloc)[-10],
or giop_bench session-calls[-512], session-pieces or session-loopback,
or giop_bench scale-(open-(1|1000|100000)|ids|flood),
or giop_bench process-server or process-client-(1|16) PORT,
or giop_bench c-(server|(memory|loopback)-(1|16)) CALLS,
or giop_bench (read|write)-VALUES-(big|little) TIMES, where VALUES is ulong, string, octets or widths";

// The checksum of a loop over CDR, or none where it isn't one or fails.
fn cdr(alloc: Global, name: &str, times: &str) -> Option<u64> {
    let times = times.parse::<u32>().ok()?;
    let work = Work::named(name)?;
    if work.reads {
        read::run(alloc, work, times)
    } else {
        write::run(alloc, work, times).ok()
    }
}

// The checksum of a loop over fragments, over values by description, over references, over a
// server's end, over messages, or over CDR.
fn named(alloc: Global, name: &str, times: &str) -> Option<u64> {
    if let Some(name) = name.strip_prefix("frag-") {
        return gathered(alloc, name, ids(times));
    }
    if let Some(name) = name.strip_prefix("types-") {
        return types::run(alloc, name);
    }
    if let Some(name) = name.strip_prefix("ior-") {
        return ior::run(alloc, name);
    }
    if let Some(name) = name.strip_prefix("session-") {
        return session::run(alloc, name);
    }
    if let Some(name) = name.strip_prefix("scale-") {
        return scale::run(alloc, name);
    }
    match name.strip_prefix("msg-") {
        Some(name) => msg::run(alloc, name),
        None => cdr(alloc, name, times),
    }
}

// Over how many ids a loop of fragments is interleaved.
fn ids(times: &str) -> u32
    ensures { 0 < result }
{
    match times {
        "1" => 1,
        "1024" => 1024,
        _ => 64,
    }
}

// The checksum of a loop over fragments: once, or four times by one gatherer.
fn gathered(alloc: Global, name: &str, ids: u32) -> Option<u64>
    requires { 0 < ids }
{
    match name {
        "24" => Some(frag::run(alloc, 24, ids, 1)),
        "512" => Some(frag::run(alloc, 512, ids, 1)),
        "4096" => Some(frag::run(alloc, 4096, ids, 1)),
        "24-again" => Some(frag::run(alloc, 24, ids, 4)),
        "512-again" => Some(frag::run(alloc, 512, ids, 4)),
        "4096-again" => Some(frag::run(alloc, 4096, ids, 4)),
        _ => None,
    }
}

// Prints a checksum, or the usage where there is none.
fn told(rt: &HostRuntime, sum: Option<u64>) -> io::Result<()> {
    match sum {
        Some(sum) => println!(rt; "{sum}"),
        None => println!(rt; "{USAGE}"),
    }
}

fn main(rt: HostRuntime) -> io::Result<()> {
    let name = env::args(&rt)?.nth(1);
    let times = env::args(&rt)?.nth(2);
    let times = times.as_ref().map_or("", |times| times.as_str());
    match name.as_ref().map_or("", |name| name.as_str()) {
        "mux" => println!(rt; "{}", mux::run(rt.alloc())),
        "session-loopback" => told(&rt, loopback::run(&rt)),
        "process-server" => told(&rt, processes::server(&rt)),
        "process-client-1" => told(&rt, processes::client(&rt, times, 1)),
        "process-client-16" => told(&rt, processes::client(&rt, times, 16)),
        name => match name.strip_prefix("c-") {
            Some(name) => told(&rt, c_calls::run(&rt, name, times)),
            None => told(&rt, named(rt.alloc(), name, times)),
        },
    }
}
