//! `call` over files, a connection and the standard output. What it sends, reads and prints is
//! commands/call.rt, over any reader and writer; here are the files and the socket.
ghost use Rattle.std.specs.Prelude.{◌≡◌};

use crate::cli::CallWords;
use crate::files::{FileFront, OUTPUT_BUFFER};
use crate::places::sessions::{each_json, of_call, of_calls, of_words};
use crate::runs::following::followed;
use crate::runs::interfaces::{NOTHING, Offered, interface_of_each, own_of, read_each};
use crate::runs::reach::{connected, endpoint_of, peer_of, target_text};
use crate::runs::session::{refused_form, refused_words};
use crate::{files, report};
use giop_commands::call::calls::{CallLine, calls_from_json};
use giop_commands::call::feed::LineFeed;
use giop_commands::call::lines::CallLines;
use giop_commands::call::streaming::call_stream;
use giop_commands::call::streaming::feeding::call_fed;
use giop_commands::call::words::call_from_words;
use giop_commands::failure::Failure;
use giop_commands::serve::given::Telling;
use giop_commands::status::Status;
use giop_commands::{Calling, Ending, Endpoint, call_over};
use giop_types::{FormFault, Interface};
use std::io;
use std::io::{BufWriter, Cursor, ErrorKind, Read, Write};

/// Reads the file of the interface and that of the calls, connects to where the target says, and
/// calls. What is refused is reported before anything is connected: the target, the interface, the
/// calls, in this order.
pub fn call(rt: &HostRuntime, words: CallWords) -> Status {
    match called(rt, words) {
        Ok(status) => status,
        Err(status) => status,
    }
}

fn called(rt: &HostRuntime, words: CallWords) -> Result<Status, Status> {
    let target = target_text(rt, words.target)?;
    let offered = read_each(rt, words.interfaces.as_slice())?;
    let asked = asked_in(rt, &words, offered.as_slice())?;
    let endpoint = endpoint_of(rt, words.lines, words.target, target.as_slice())?;
    interface_of_each(rt, words.lines, offered.as_slice())?;
    let (interface, text) = object_of(rt, offered.as_slice(), endpoint.key.as_slice())?;
    let object = Object {
        text,
        interface: &interface,
    };
    let given = match asked {
        Asked::Lines(file) => return call_lines(rt, file, object, &endpoint, &words),
        Asked::Given(given) => given,
    };
    if words.follow {
        return followed(rt, &words, object, &given, &endpoint);
    }
    let calls = calls_given(rt, &words, object, &given)?;
    let peer = peer_of(rt, words.target, &endpoint)?;
    let answered = call_at(
        rt,
        calls,
        &endpoint,
        &words,
        calling_of(&words, &interface, &endpoint),
    );
    Ok(report::called(rt, peer.as_str(), words.timeout, answered))
}

/// How the object of an endpoint is called.
pub fn calling_of<'a>(
    words: &CallWords<'_>,
    interface: &'a Interface,
    endpoint: &'a Endpoint,
) -> Calling<'a>
    ensures interface { result.interface.now ≡ interface.now }
    ensures limits { result.limits ≡ words.now.limits }
{
    Calling {
        interface,
        key: endpoint.key.as_slice(),
        version: endpoint.version,
        form: words.form,
        limits: words.limits,
    }
}

/// What the object that is called offers, also where it forwards calls to.
#[derive(Clone, Copy)]
pub struct Object<'a> {
    /// The text of its interface.
    pub text: &'a [u8],
    /// What that says.
    pub interface: &'a Interface,
}

// Where the calls stand.
#[derive(Drop)]
enum Asked {
    // In the lines of a file, which are read as they are called.
    Lines(FileFront),
    // In what is given at once.
    Given(Given),
}

/// Where calls stand that are given at once.
#[derive(Drop)]
pub enum Given {
    /// In a file of this text.
    File(Vec<u8>),
    /// In words: an operation, and the values of its ins.
    Words,
}

// What the object of a key offers, and the text of that.
fn object_of<'b>(
    rt: &HostRuntime,
    offered: &'b [Offered<'_>],
    key: &[u8],
) -> Result<(Interface, &'b [u8]), Status> {
    let text = match own_of(offered, key) {
        Some(one) => one.text.as_slice(),
        None => NOTHING,
    };
    match Interface::from_json(rt.alloc(), text) {
        Ok(interface) => Ok((interface, text)),
        Err(_) => Err(report::answer(rt, "--interface", Err(Failure::Memory))),
    }
}

// Where the calls stand. One word is the name of a file, unless there is none and one of these
// interfaces has an operation of that name.
fn asked_in(
    rt: &HostRuntime,
    words: &CallWords<'_>,
    offered: &[Offered<'_>],
) -> Result<Asked, Status> {
    if !words.values.is_empty() {
        return Ok(Asked::Given(Given::Words));
    }
    let failure = match file_of(rt, words) {
        Ok(asked) => return Ok(asked),
        Err(failure) => failure,
    };
    match offers(rt, offered, words.file) {
        Ok(offered) if offered && is_missing(&failure) => Ok(Asked::Given(Given::Words)),
        Ok(_) => Err(report::answer(rt, words.file, Err(failure))),
        Err(memory) => Err(report::answer(rt, words.file, Err(memory))),
    }
}

// The calls of a file. Of a stream it is read whole only where it begins as a list does.
fn file_of(rt: &HostRuntime, words: &CallWords<'_>) -> Result<Asked, Failure> {
    if words.telling == Telling::AtTheEnd {
        return Ok(Asked::Given(Given::File(files::read(rt, words.file)?)));
    }
    let file = files::front_of(rt, words.file)?;
    if file.is_list() {
        Ok(Asked::Given(Given::File(file.whole()?)))
    } else {
        Ok(Asked::Lines(file))
    }
}

// Whether a file can't be read since there is none.
fn is_missing(failure: &Failure) -> bool {
    match failure {
        Failure::Input(error) => error.kind() == ErrorKind::NotFound,
        _ => false,
    }
}

// Whether one of these texts is an interface that has an operation of this name.
fn offers(rt: &HostRuntime, offered: &[Offered<'_>], name: &str) -> Result<bool, Failure> {
    for one in offered {
        match Interface::from_json(rt.alloc(), one.text.as_slice()) {
            Ok(interface) if interface.operation(name.as_bytes()).is_some() => return Ok(true),
            Err(FormFault::NoMemory) => return Err(Failure::Memory),
            _ => {}
        }
    }
    Ok(false)
}

/// The calls that are given, or the status where they are refused, which is reported.
pub fn calls_given(
    rt: &HostRuntime,
    words: &CallWords<'_>,
    object: Object<'_>,
    given: &Given,
) -> Result<Vec<CallLine>, Status> {
    match given {
        Given::File(text) => calls_in_file(rt, words, object, text.as_slice()),
        Given::Words => calls_in_words(rt, words, object),
    }
}

// The calls of a file, or the status where they are refused, which is reported.
fn calls_in_file(
    rt: &HostRuntime,
    words: &CallWords<'_>,
    object: Object<'_>,
    text: &[u8],
) -> Result<Vec<CallLine>, Status> {
    match calls_from_json(rt.alloc(), object.interface, text) {
        Ok(calls) => Ok(calls),
        Err(fault) => {
            let at = of_calls(rt.alloc(), object.text, text, fault);
            Err(refused_form(rt, words.lines, words.file, text, fault, at))
        }
    }
}

// The call that words ask for, or the status where it is refused, which is reported.
fn calls_in_words(
    rt: &HostRuntime,
    words: &CallWords<'_>,
    object: Object<'_>,
) -> Result<Vec<CallLine>, Status> {
    let (name, values) = (words.file, words.values.as_slice());
    let called = match each_json(rt.alloc(), values) {
        Ok(ins) => call_from_words(rt.alloc(), object.interface, name, ins),
        Err(fault) => Err(fault),
    };
    match called {
        Ok(calls) => Ok(calls),
        Err(fault) => {
            let at = of_words(rt.alloc(), object.text, name, values, fault);
            Err(refused_words(rt, words.lines, name, values, fault, at))
        }
    }
}

fn call_at(
    rt: &HostRuntime,
    calls: Vec<CallLine>,
    endpoint: &Endpoint,
    words: &CallWords<'_>,
    calling: Calling<'_>,
) -> Result<Ending, Failure> {
    let link = connected(rt, endpoint, words.timeout)?;
    let mut out = BufWriter::with_capacity(rt.alloc(), OUTPUT_BUFFER, io::writer(rt))?;
    let (mut reader, mut writer) = (&link, &link);
    let (reader, writer) = (&mut reader, &mut writer);
    let (alloc, lines) = (rt.alloc(), words.lines);
    let ending = match words.telling {
        Telling::AtTheEnd => call_over(alloc, calling, calls, lines, reader, writer, &mut out)?,
        Telling::WhenOver => call_stream(alloc, calling, calls, lines, reader, writer, &mut out)?,
    };
    out.flush()?;
    Ok(ending)
}

// Calls of the lines of a file. A line that is refused is reported behind all that was told.
fn call_lines(
    rt: &HostRuntime,
    file: FileFront,
    object: Object<'_>,
    endpoint: &Endpoint,
    words: &CallWords<'_>,
) -> Result<Status, Status> {
    let peer = peer_of(rt, words.target, endpoint)?;
    let source = Cursor::new(file.front).chain(file.rest);
    let mut feed = match LineFeed::new(rt.alloc(), source, file.waits) {
        Ok(feed) => feed,
        Err(_) => return Err(report::answer(rt, words.file, Err(Failure::Memory))),
    };
    let calling = calling_of(words, object.interface, endpoint);
    let status = match call_lines_at(rt, &mut feed, endpoint, words, calling) {
        Err(Failure::Input(error)) => { report::answer(rt, words.file, Err(Failure::Input(error))) }
        answered => report::called(rt, peer.as_str(), words.timeout, answered),
    };
    match feed.lines.refused {
        Some(fault) => Ok(refused_line(rt, words, object.text, &feed.lines, fault, status)),
        None => Ok(status),
    }
}

fn call_lines_at<S: Read + Drop>(
    rt: &HostRuntime,
    feed: &mut LineFeed<S>,
    endpoint: &Endpoint,
    words: &CallWords<'_>,
    calling: Calling<'_>,
) -> Result<Ending, Failure> {
    let link = connected(rt, endpoint, words.timeout)?;
    let mut out = BufWriter::with_capacity(rt.alloc(), OUTPUT_BUFFER, io::writer(rt))?;
    let (mut reader, mut writer) = (&link, &link);
    let (reader, writer) = (&mut reader, &mut writer);
    let ending = call_fed(
        rt.alloc(),
        calling,
        feed,
        words.lines,
        reader,
        writer,
        &mut out,
    )?;
    out.flush()?;
    Ok(ending)
}

// Reports the line that is refused, of a session with a status.
fn refused_line(
    rt: &HostRuntime,
    words: &CallWords<'_>,
    offered: &[u8],
    lines: &CallLines,
    fault: FormFault,
    status: Status,
) -> Status {
    let text = lines.line.as_slice();
    let at = of_call(rt.alloc(), offered, text, fault);
    let name = match format!(in rt.alloc(); "{} line {}", words.file, lines.count) {
        Ok(name) => name,
        Err(_) => return report::answer(rt, words.file, Err(Failure::Memory)),
    };
    match refused_form(rt, words.lines, name.as_str(), text, fault, at) {
        Status::Refused => status,
        failed => failed,
    }
}
