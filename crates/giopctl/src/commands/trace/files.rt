//! `trace` over files and the standard output. What it prints is commands/trace.rt, over any
//! readers and writer.

use crate::cli::TraceWords;
use crate::commands::{Heard, trace_text};
use crate::failure::Failure;
use crate::files::OUTPUT_BUFFER;
use crate::status::Status;
use crate::{files, report};
use std::io;
use std::io::{BufWriter, Read, Write};

/// Reads the file of the interface, then traces the others piece by piece.
pub fn trace(rt: &HostRuntime, words: TraceWords) -> Status {
    let text = match files::read(rt, words.interface) {
        Ok(text) => text,
        Err(failure) => return report::answer(rt, words.interface, Err(failure)),
    };
    let answered = client_of(rt, text.as_slice(), words);
    if let Ok(Status::Refused) = &answered {
        report::interface(rt, rt.alloc(), words.interface, text.as_slice());
    }
    report::answer(rt, words.client, answered)
}

fn client_of(rt: &HostRuntime, interface: &[u8], words: TraceWords) -> Result<Status, Failure> {
    if words.client == "-" {
        return server_of(rt, interface, words, &mut rt.reader());
    }
    let (mut client, _) = files::opened(rt, words.client)?;
    server_of(rt, interface, words, &mut client)
}

fn server_of<C: Read>(
    rt: &HostRuntime,
    interface: &[u8],
    words: TraceWords,
    client: &mut C,
) -> Result<Status, Failure> {
    match words.server {
        None => {
            let mut nothing = [0u8; 0].as_slice();
            traced(
                rt,
                interface,
                words.limit,
                Heard::Client,
                client,
                &mut nothing,
            )
        }
        Some("-") => {
            traced(
                rt,
                interface,
                words.limit,
                Heard::Both,
                client,
                &mut rt.reader(),
            )
        }
        Some(file) => {
            let (mut server, _) = files::opened(rt, file)?;
            traced(rt, interface, words.limit, Heard::Both, client, &mut server)
        }
    }
}

fn traced<C: Read, S: Read>(
    rt: &HostRuntime,
    interface: &[u8],
    limit: u32,
    heard: Heard,
    client: &mut C,
    server: &mut S,
) -> Result<Status, Failure> {
    let mut writer = BufWriter::with_capacity(rt.alloc(), OUTPUT_BUFFER, io::writer(rt))?;
    let alloc = rt.alloc();
    let status = trace_text(alloc, interface, limit, heard, client, server, &mut writer)?;
    writer.flush()?;
    Ok(status)
}
