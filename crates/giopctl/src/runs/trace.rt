//! `trace` over files and the standard output. What it prints is commands/trace.rt, over any
//! readers and writer.

use crate::cli::TraceWords;
use crate::files::OUTPUT_BUFFER;
use crate::runs::interfaces::{By, Joined, Offered, join_offers, read_each};
use crate::{files, report};
use giop_commands::failure::Failure;
use giop_commands::status::Status;
use giop_commands::{Heard, trace_stream, trace_text};
use std::io;
use std::io::{BufWriter, Read, Write};

// What is named where one of two inputs fails while it is read.
const EITHER: &str = "CLIENT or SERVER";

/// Reads the files of interfaces, then traces the others piece by piece. A file that can't be opened
/// is named; nothing is written then.
pub fn trace(rt: &HostRuntime, words: &TraceWords<'_>) -> Status {
    let offered = match read_each(rt, words.interfaces.as_slice()) {
        Ok(offered) => offered,
        Err(status) => return status,
    };
    match join_offers(rt.alloc(), offered.as_slice()) {
        Ok(Joined::Whole(interface)) => {
            let tracing = Tracing {
                by: By::Interface(&interface),
                words,
                refused: None,
            };
            from_client(rt, tracing)
        }
        Ok(Joined::Refused(one)) => {
            let tracing = Tracing {
                by: By::Text(one.text.as_slice()),
                words,
                refused: Some(one),
            };
            from_client(rt, tracing)
        }
        Err(_) => report::answer(rt, EITHER, Err(Failure::Memory)),
    }
}

// What is traced, and by what; the file of an interface that is refused, if one is.
#[derive(Clone, Copy)]
struct Tracing<'b, 'a> {
    by: By<'b>,
    words: &'b TraceWords<'a>,
    refused: Option<&'b Offered<'a>>,
}

fn from_client(rt: &HostRuntime, tracing: Tracing<'_, '_>) -> Status {
    let client = tracing.words.client;
    if client == "-" {
        return by_client(rt, tracing, &mut rt.reader());
    }
    match files::opened(rt, client) {
        Ok((mut file, _)) => by_client(rt, tracing, &mut file),
        Err(failure) => report::answer(rt, client, Err(failure)),
    }
}

// Traces what a client sent, and what the server did where that is given.
fn by_client<C: Read>(rt: &HostRuntime, tracing: Tracing<'_, '_>, client: &mut C) -> Status {
    let Some(server) = tracing.words.server else {
        let mut nothing = [0u8; 0].as_slice();
        let answered = traced(rt, tracing, Heard::Client, client, &mut nothing);
        return reported(rt, tracing, tracing.words.client, answered);
    };
    if server == "-" {
        let answered = traced(rt, tracing, Heard::Both, client, &mut rt.reader());
        return reported(rt, tracing, EITHER, answered);
    }
    match files::opened(rt, server) {
        Ok((mut file, _)) => {
            let answered = traced(rt, tracing, Heard::Both, client, &mut file);
            reported(rt, tracing, EITHER, answered)
        }
        Err(failure) => report::answer(rt, server, Err(failure)),
    }
}

// Says what is wrong with an interface that is refused, or names what failed.
fn reported(
    rt: &HostRuntime,
    tracing: Tracing<'_, '_>,
    input: &str,
    answered: Result<Status, Failure>,
) -> Status {
    if let (Ok(Status::Refused), Some(one)) = (&answered, tracing.refused) {
        report::interface(rt, rt.alloc(), one.file, &one.text);
    }
    report::answer(rt, input, answered)
}

fn traced<C: Read, S: Read>(
    rt: &HostRuntime,
    tracing: Tracing<'_, '_>,
    heard: Heard,
    client: &mut C,
    server: &mut S,
) -> Result<Status, Failure> {
    let mut writer = BufWriter::with_capacity(rt.alloc(), OUTPUT_BUFFER, io::writer(rt))?;
    let (alloc, limit, form) = (rt.alloc(), tracing.words.limit, tracing.words.form);
    let out = &mut writer;
    let status = match tracing.by {
        By::Interface(all) => trace_stream(alloc, all, limit, form, heard, client, server, out)?,
        By::Text(text) => trace_text(alloc, text, limit, form, heard, client, server, out)?,
    };
    writer.flush()?;
    Ok(status)
}
