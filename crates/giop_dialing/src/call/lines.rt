//! `call` of a call a line, which are read as they are called.
ghost use Rattle.std.specs.Prelude.{IfOk, IfErr};
ghost use Rattle.giop_connections.specs.Carried.{IsCarriedOut};

use crate::call::{Object, calling_of};
use crate::target::peer_of;
use giop_asked_calls::feed::LineFeed;
use giop_asked_calls::lines::CallLines;
use giop_at_fault::calls::of_call;
use giop_calling::Calling;
use giop_calling::call::streaming::feeding::call_fed;
use giop_commands::session::given::Pipes;
use giop_commands::{Ending, Endpoint};
use giop_connections::{connect, endings};
use giop_files::files::{FileFront, OUTPUT_BUFFER};
use giop_files::report;
use giop_files::report::refusals::refuse_form;
use giop_json::FormFault;
use giop_show::failure::Failure;
use giop_show::status::Status;
use giop_words::CallWords;
use std::io;
use std::io::{BufWriter, Cursor, Read, Write};

/// Makes the calls of the lines of a file. A line that is refused is reported behind all that was
/// told.
#[tactic(auto, using(giop_connections::proofs::CarriedLemmas::ended_carried))]
pub(super) fn call_lines(
    rt: &HostRuntime,
    file: FileFront,
    object: Object<'_>,
    endpoint: &Endpoint,
    words: &CallWords<'_>,
) -> Result<Status, Status>
    ensures ok { IfOk result IsCarriedOut }
    ensures err { IfErr result IsCarriedOut }
{
    let peer = peer_of(rt, words.target, endpoint)?;
    let source = Cursor::new(file.front).chain(file.rest);
    let mut feed = match LineFeed::new(rt.alloc(), source, file.waits) {
        Ok(feed) => feed,
        Err(_) => return Err(report::status_of(rt, words.file, Err(Failure::Memory))),
    };
    let calling = calling_of(words, object.interface, endpoint);
    let status = match call_lines_at(rt, &mut feed, endpoint, words, calling) {
        Err(Failure::Input(error)) => {
            report::status_of(rt, words.file, Err(Failure::Input(error)))
        }
        answered => endings::call_status(rt, peer.as_str(), words.timeout, answered),
    };
    match feed.lines.refused {
        Some(fault) => Ok(refuse_line(rt, words, object.text, &feed.lines, fault, status)),
        None => Ok(status),
    }
}

#[tactic(auto, using(crate::proofs::CarriedLemmas::fed_carried))]
fn call_lines_at<S: Read + Drop>(
    rt: &HostRuntime,
    feed: &mut LineFeed<S>,
    endpoint: &Endpoint,
    words: &CallWords<'_>,
    calling: Calling<'_>,
) -> Result<Ending, Failure>
    ensures { IfOk result (λ ending. IsCarriedOut ending.status) }
{
    let link = connect(rt, endpoint, words.timeout)?;
    let out = BufWriter::with_capacity(rt.alloc(), OUTPUT_BUFFER, io::writer(rt))?;
    let mut pipes = Pipes {
        reader: &link,
        writer: &link,
        out,
    };
    let ending = call_fed(rt.alloc(), calling, feed, &mut pipes)?;
    pipes.out.flush()?;
    Ok(ending)
}

// Reports the line that is refused, of a session with a status.
#[tactic(auto, using(giop_connections::proofs::CarriedLemmas::refused_carried))]
fn refuse_line(
    rt: &HostRuntime,
    words: &CallWords<'_>,
    offered: &[u8],
    lines: &CallLines,
    fault: FormFault,
    status: Status,
) -> Status
    requires { IsCarriedOut status }
    ensures { IsCarriedOut result }
{
    let text = lines.line.as_slice();
    let at = of_call(rt.alloc(), offered, text, fault);
    let name = match format!(in rt.alloc(); "{} line {}", words.file, lines.count) {
        Ok(name) => name,
        Err(_) => return report::status_of(rt, words.file, Err(Failure::Memory)),
    };
    match refuse_form(rt, words.lines, name.as_str(), text, fault, at) {
        Status::Refused => status,
        failed => failed,
    }
}
