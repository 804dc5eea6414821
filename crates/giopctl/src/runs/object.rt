//! `locate` and `ping` over a connection and the standard output. `locate` sends a LocateRequest
//! (CORBA 3.3 Part 2, 9.4.5), `ping` calls `_non_existent`, the operation by which a client asks
//! whether an object is there (9.4.2.1), and tells how long that took.
ghost use Rattle.std.specs.Prelude.{◌≡◌};
ghost use Rattle.giop_commands.specs.Check.{AreLimits};

use crate::cli::ObjectWords;
use crate::files::OUTPUT_BUFFER;
use crate::report;
use crate::runs::reach::{connected, endpoint_of, peer_of, target_text};
use giop_cdr::Order;
use giop_commands::call::locating::locate_over;
use giop_commands::call::words::call_from_words;
use giop_commands::failure::Failure;
use giop_commands::status::Status;
use giop_commands::{Calling, Ending, Endpoint, call_over};
use giop_session::{Form, Limits};
use giop_types::Interface;
use std::alloc::Global;
use std::io;
use std::io::{BufWriter, Write};
use std::time::Instant;

// The operation that each object has, and the interface of it alone.
const ASKED: &str = "_non_existent";

const OFFERED: &[u8] =
    b"{\"operations\":{\"_non_existent\":{\"outs\":[[\"result\",\"boolean\"]]}}}";

// What is asked of an object.
#[derive(Clone, Copy, PartialEq, Eq)]
enum Question {
    // Where it is.
    Where,
    // Whether it is there.
    IsThere,
}

/// Connects to where the target says, and asks where the object is. A refused target is reported
/// before anything is connected.
pub fn locate(rt: &HostRuntime, words: ObjectWords) -> Status {
    match asked(rt, words, Question::Where) {
        Ok(status) => status,
        Err(status) => status,
    }
}

/// Connects to where the target says, asks the object whether it is there, and tells how long that
/// took. A refused target is reported before anything is connected.
pub fn ping(rt: &HostRuntime, words: ObjectWords) -> Status {
    match asked(rt, words, Question::IsThere) {
        Ok(status) => status,
        Err(status) => status,
    }
}

fn asked(rt: &HostRuntime, words: ObjectWords, question: Question) -> Result<Status, Status> {
    let text = target_text(rt, words.target)?;
    let endpoint = endpoint_of(rt, words.lines, words.target, text.as_slice())?;
    let peer = peer_of(rt, words.target, &endpoint)?;
    let began = Instant::now(rt);
    let ended = ask(rt, &endpoint, words, question);
    if let (Question::IsThere, Ok(began), Ok(_)) = (question, began, &ended) {
        if let Ok(time) = began.elapsed(rt) {
            let _ = eprintln!(rt; "giopctl: {}: took {} us", peer.as_str(), time.as_micros());
        }
    }
    Ok(report::called(rt, peer.as_str(), words.timeout, ended))
}

// Asks over a connection, and writes what came of it.
fn ask(
    rt: &HostRuntime,
    endpoint: &Endpoint,
    words: ObjectWords,
    question: Question,
) -> Result<Ending, Failure> {
    let interface = offered(rt.alloc())?;
    let Ok(calls) = call_from_words(rt.alloc(), &interface, ASKED, Vec::new(rt.alloc())) else {
        return Err(Failure::Memory);
    };
    let calling = calling_at(words, &interface, endpoint, Limits::default());
    let link = connected(rt, endpoint, words.timeout)?;
    let mut out = BufWriter::with_capacity(rt.alloc(), OUTPUT_BUFFER, io::writer(rt))?;
    let (mut reader, mut writer) = (&link, &link);
    let (reader, writer) = (&mut reader, &mut writer);
    let (alloc, lines) = (rt.alloc(), words.lines);
    let ended = match question {
        Question::Where => locate_over(alloc, calling, lines, reader, writer, &mut out)?,
        Question::IsThere => call_over(alloc, calling, calls, lines, reader, writer, &mut out)?,
    };
    out.flush()?;
    Ok(ended)
}

/// What each object offers: the operation that `ping` calls.
pub fn offered(alloc: Global) -> Result<Interface, Failure> {
    match Interface::from_json(alloc, OFFERED) {
        Ok(interface) => Ok(interface),
        Err(_) => Err(Failure::Memory),
    }
}

/// How the object of an endpoint is asked.
pub fn calling_at<'a>(
    words: ObjectWords,
    interface: &'a Interface,
    endpoint: &'a Endpoint,
    limits: Limits,
) -> Calling<'a>
    requires { AreLimits limits }
    ensures interface { result.interface.now ≡ interface.now }
    ensures limits { result.limits ≡ limits }
{
    let order = match words.little {
        true => Order::Little,
        false => Order::Big,
    };
    Calling {
        interface,
        key: endpoint.key.as_slice(),
        version: endpoint.version,
        form: Form {
            order,
            piece: 4_096,
        },
        limits,
    }
}
