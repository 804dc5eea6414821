//! `trace` over files and the standard output. What it prints is giop_tracing's trace.rt, over any
//! readers and writer.
ghost use Rattle.std.specs.Prelude.{IfOk};
ghost use Rattle.giop_show.specs.Status.{IsJudged};
ghost use Rattle.giop_files.specs.Report.{IsShown};

use giop_files::files::OUTPUT_BUFFER;
use giop_files::files::interfaces::{By, Joined, join_offers, read_each};
use giop_files::report::texts;
use giop_files::{files, report};
use giop_show::failure::Failure;
use giop_show::status::Status;
use giop_tracing::{Heard, trace_stream, trace_text};
use giop_words::TraceWords;
use std::io;
use std::io::{BufWriter, Read, Write};

// What is named where one of two inputs fails while it is read.
const EITHER: &str = "CLIENT or SERVER";

/// Reads the files of interfaces, then traces the others piece by piece. A file that can't be
/// opened is named; nothing is written then. Returns the status that the program ends with.
#[tactic(auto, using(giop_files::proofs::ReportLemmas::shown_status))]
pub(crate) fn trace(rt: &HostRuntime, words: &TraceWords<'_>) -> Status
    ensures { IsShown result }
{
    let offered = match read_each(rt, words.interfaces.as_slice()) {
        Ok(offered) => offered,
        Err(status) => return status,
    };
    match join_offers(rt.alloc(), offered.as_slice()) {
        Ok(Joined::Whole(interface)) => trace_files(rt, By::Interface(&interface), words),
        Ok(Joined::Refused(one)) => {
            let status = trace_files(rt, By::Text(one.text.as_slice()), words);
            if status == Status::Refused {
                texts::interface(rt, rt.alloc(), one.file, &one.text);
            }
            status
        }
        Err(_) => report::status_of(rt, EITHER, Err(Failure::Memory)),
    }
}

// Traces the files of what the two ends sent: that of the client is opened first.
#[tactic(auto, using(giop_files::proofs::ReportLemmas::shown_status))]
fn trace_files(rt: &HostRuntime, by: By<'_>, words: &TraceWords<'_>) -> Status
    ensures { IsShown result }
{
    if words.client == "-" {
        return trace_client(rt, by, words, &mut rt.reader());
    }
    match files::open_in_pieces(rt, words.client) {
        Ok((mut file, _)) => trace_client(rt, by, words, &mut file),
        Err(failure) => report::status_of(rt, words.client, Err(failure)),
    }
}

// Traces what a client sent, and the file of what the server did where that is given.
#[tactic(auto, using(giop_files::proofs::ReportLemmas::shown_status))]
fn trace_client<C: Read>(
    rt: &HostRuntime,
    by: By<'_>,
    words: &TraceWords<'_>,
    client: &mut C,
) -> Status
    ensures { IsShown result }
{
    let Some(server) = words.server else {
        let mut nothing = [0u8; 0].as_slice();
        let answered = trace_both(rt, by, words, Heard::Client, client, &mut nothing);
        return report::status_of(rt, words.client, answered);
    };
    if server == "-" {
        let answered = trace_both(rt, by, words, Heard::Both, client, &mut rt.reader());
        return report::status_of(rt, EITHER, answered);
    }
    match files::open_in_pieces(rt, server) {
        Ok((mut file, _)) => {
            let answered = trace_both(rt, by, words, Heard::Both, client, &mut file);
            report::status_of(rt, EITHER, answered)
        }
        Err(failure) => report::status_of(rt, server, Err(failure)),
    }
}

// Traces what both ends sent, of which the server's may be nothing.
fn trace_both<C: Read, S: Read>(
    rt: &HostRuntime,
    by: By<'_>,
    words: &TraceWords<'_>,
    heard: Heard,
    client: &mut C,
    server: &mut S,
) -> Result<Status, Failure>
    ensures { IfOk result IsJudged }
{
    let mut writer = BufWriter::with_capacity(rt.alloc(), OUTPUT_BUFFER, io::writer(rt))?;
    let (alloc, limit, form) = (rt.alloc(), words.limit, words.form);
    let out = &mut writer;
    let status = match by {
        By::Interface(all) => trace_stream(alloc, all, limit, form, heard, client, server, out)?,
        By::Text(text) => trace_text(alloc, text, limit, form, heard, client, server, out)?,
    };
    writer.flush()?;
    Ok(status)
}
