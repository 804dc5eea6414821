//! What is printed on standard error, and the status that goes with it.
ghost use Rattle.std.specs.Prelude.{◌≡◌, ◌≢◌, ◌⊎◌, true};
ghost use Rattle.std.specs.IoError.{error_kind};
ghost use Rattle.clap.specs.Words.{kind_of};
ghost use Rattle.giop_commands.specs.Endings.{ending_status};
ghost use Rattle.giop_commands.specs.Status.{answered_status, failure_status};
ghost use Rattle.giopctl.specs.Usage.{usage_status};

mod counted;
mod open_calls;
mod path_shown;

use crate::interface_text::InterfaceText;
use crate::places;
use crate::report::counted::Counted;
use crate::report::open_calls::OpenCalls;
use crate::report::path_shown::PathShown;
use clap::error::ErrorKind as UsageKind;
use giop_commands::Ending;
use giop_commands::failure::Failure;
use giop_commands::status::{Limit, Status};
use giop_types::{FormFault, Interface};
use giop_where::{Place, Role};
use hex::FromHexError;
use serde_json::Value as Json;
use std::alloc::Global;
use std::io;
use std::io::ErrorKind;

/// The words of the command line can't be read: one is no UTF-8, or it is out of memory.
pub fn arguments(rt: &impl Eprint, error: &io::Error) -> Status
    ensures memory { error_kind error.now ≡ ErrorKind.OutOfMemory → result ≡ Status.Memory }
    ensures value { error_kind error.now ≢ ErrorKind.OutOfMemory → result ≡ Status.Usage }
{
    let _ = eprintln!(rt; "giopctl: the command line: {error}");
    match error.kind() {
        ErrorKind::OutOfMemory => Status::Memory,
        _ => Status::Usage,
    }
}

/// The words of the command line ask for help or the version, or for nothing that the program
/// knows.
pub fn usage(rt: &(impl Print + Eprint), error: &clap::Error) -> Status
    ensures { (result ≡ usage_status (kind_of error.now)) ⊎ (result ≡ Status.InputOutput) }
{
    if let Err(failed) = error.print(rt) {
        output_failed(rt, &failed);
        return Status::InputOutput;
    }
    match error.kind() {
        UsageKind::OutOfMemory => Status::Memory,
        _ if error.use_stderr() => Status::Usage,
        _ => Status::Done,
    }
}

/// The status of what a command on this file returned. A failure is printed, and where a limit was
/// passed the option that raises it.
pub fn answer(rt: &impl Eprint, file: &str, answered: Result<Status, Failure>) -> Status
    ensures { result ≡ answered_status answered }
{
    let failure = match answered {
        Ok(status) => {
            passed(rt, file, status);
            return status;
        }
        Err(failure) => failure,
    };
    match &failure {
        Failure::Memory => {
            let _ = eprintln!(rt; "giopctl: {failure}");
        }
        Failure::Input(_) | Failure::Connection(_) | Failure::TurnsSpent => {
            let _ = eprintln!(rt; "giopctl: {file}: {failure}");
        }
        Failure::Output(error) => output_failed(rt, error),
    }
    failure.status()
}

/// The status of calls to this peer. What is open where its input ended is printed, and a failure as
/// `answer` prints it; where a timeout in seconds ended it, that is said in place of the error.
pub fn called(
    rt: &impl Eprint,
    peer: &str,
    timeout: Option<u32>,
    ended: Result<Ending, Failure>,
) -> Status
    ensures { result ≡ ending_status ended }
{
    match ended {
        Ok(ending) => {
            if !ending.open_calls.is_empty() {
                left(rt, peer, &ending);
            }
            answer(rt, peer, Ok(ending.status))
        }
        Err(failure) => {
            if is_told_silent(rt, peer, timeout, &failure) {
                return Status::InputOutput;
            }
            answer(rt, peer, Err(failure))
        }
    }
}

/// The status of a connection that was served. What is open where its input ended is printed, and
/// how much of a message came; and a failure as `answer` prints it.
pub fn served(rt: &impl Eprint, peer: &str, ended: Result<Ending, Failure>) -> Status
    ensures { result ≡ ending_status ended }
{
    match ended {
        Ok(ending) => {
            left(rt, peer, &ending);
            answer(rt, peer, Ok(ending.status))
        }
        Err(failure) => answer(rt, peer, Err(failure)),
    }
}

// Prints which calls are open where a session ended, and how much of a message came.
fn left(rt: &impl Eprint, peer: &str, ending: &Ending) {
    if !ending.open_calls.is_empty() {
        let open = OpenCalls(ending.open_calls.as_slice());
        let _ = eprintln!(rt; "giopctl: {peer}: ended with {open}");
    }
    if ending.rest > 0 {
        let rest = Counted(ending.rest, "octet");
        let _ = eprintln!(rt; "giopctl: {peer}: ended within a message, of which {rest} came");
    }
}

// Prints that nothing came or went for so many seconds, where that is how it failed. Returns whether
// it is.
fn is_told_silent(rt: &impl Eprint, peer: &str, timeout: Option<u32>, failure: &Failure) -> bool
    ensures { result ≡ true → failure_status failure.now ≡ Status.InputOutput }
{
    match (timeout, failure) {
        (Some(seconds), Failure::Connection(error)) if error.kind() == ErrorKind::TimedOut => {
            let _ = eprintln!(rt; "giopctl: {peer}: nothing came or went for {seconds} s");
            true
        }
        _ => false,
    }
}

// Prints the option that raises the limit that was passed, if one was.
fn passed(rt: &impl Eprint, file: &str, status: Status) {
    if let Status::LimitPassed(limit) = status {
        let _ = eprintln!(rt; "giopctl: {file}: {}; raise it by {limit}", above(limit));
    }
}

// What is said of a limit that was passed.
fn above(limit: Limit) -> &'static str {
    match limit {
        Limit::Message => "a message is larger than its limit",
        Limit::Calls => "there are more calls than the limit",
        Limit::Gathered => "unfinished messages have more octets than the limit",
    }
}

/// Prints what is wrong with the text of an interface, and where, as far as that is known; nothing
/// where it is an interface.
pub fn interface(rt: &impl Eprint, alloc: Global, file: &str, text: &InterfaceText) {
    let Err(fault) = Interface::from_json(alloc, text.as_slice()) else {
        return;
    };
    if !text.is_plain() && fault != FormFault::BadJson && fault != FormFault::NoMemory {
        let _ = eprintln!(rt;
            "giopctl: {file}: id, comment, types, raises, or the name of a type, not as it should be"
        );
        return;
    }
    let other = "JSON, but not in the form of an interface";
    said(rt, alloc, file, text.given(), fault, other);
    let at = places::of_interface(alloc, text, fault);
    place(rt, file, fault, at);
}

/// Prints what is wrong with the text of a description, and where, as far as that is known.
pub fn description(rt: &impl Eprint, alloc: Global, file: &str, text: &[u8], fault: FormFault) {
    let other = "JSON, but not in the form of a description";
    said(rt, alloc, file, text, fault, other);
    let at = places::of_file(alloc, Role::Description, text, fault);
    place(rt, file, fault, at);
}

/// Prints what is wrong with the text of a value, and where.
pub fn value(
    rt: &impl Eprint,
    alloc: Global,
    file: &str,
    text: &[u8],
    fault: FormFault,
    at: Option<Place>,
) {
    let other = "JSON, but not in the form that its description wants";
    said(rt, alloc, file, text, fault, other);
    if fault == FormFault::Unfit {
        let _ = eprintln!(rt; "giopctl: {file}: a value that doesn't fit its description");
    }
    place(rt, file, fault, at);
}

/// Prints what is wrong with the text of calls or answers, and where, as far as that is known.
pub fn form(
    rt: &impl Eprint,
    alloc: Global,
    file: &str,
    text: &[u8],
    fault: FormFault,
    at: Option<Place>,
) {
    let other = "JSON, but not in the form that is wanted, or not of the interface";
    said(rt, alloc, file, text, fault, other);
    if fault == FormFault::Unfit {
        let _ = eprintln!(rt;
            "giopctl: {file}: a value, or their number, doesn't fit the interface"
        );
    }
    place(rt, file, fault, at);
}

/// Prints the option of the limit that an answer of a file passes, and where that answer stands.
pub fn unsent(rt: &impl Eprint, file: &str, limit: Limit, at: Option<Place>) {
    let _ = match at {
        Some(place) => {
            let path = PathShown(place.path.as_slice());
            eprintln!(rt;
                "giopctl: {file}: at {path}: an answer is larger than its limit; raise it by {limit}"
            )
        }
        None => eprintln!(rt;
            "giopctl: {file}: an answer is larger than its limit; raise it by {limit}"
        ),
    };
}

/// Prints which of some words are no JSON, and where they cease to be.
pub fn words(rt: &impl Eprint, alloc: Global, words: &[&str]) {
    for word in words {
        let _ = bad_json(rt, alloc, word, word.as_bytes());
    }
}

/// Prints what is wrong with a text that is no JSON.
pub fn text(rt: &impl Eprint, file: &str, wrong: &str) {
    let _ = eprintln!(rt; "giopctl: {file}: {wrong}");
}

/// Prints why hexadecimal digits are refused, and where: the first of them has this offset.
pub fn digits(rt: &impl Eprint, file: &str, offset: usize, fault: FromHexError) {
    let _ = match fault {
        FromHexError::InvalidHexCharacter { index, .. } => {
            eprintln!(rt;
                "giopctl: {file}: no hexadecimal digit at {}",
                offset.saturating_add(index)
            )
        }
        FromHexError::OddLength => eprintln!(rt;
            "giopctl: {file}: an odd number of hexadecimal digits"
        ),
        _ => Ok(()),
    };
}

// Prints what is wrong with a text; where it is JSON of another form, that is said so.
fn said(rt: &impl Eprint, alloc: Global, file: &str, text: &[u8], fault: FormFault, other: &str) {
    let _ = match fault {
        FormFault::BadJson => bad_json(rt, alloc, file, text),
        FormFault::BadShape => eprintln!(rt; "giopctl: {file}: {other}"),
        FormFault::BadDesc(fault) => {
            eprintln!(rt; "giopctl: {file}: a description of no type: {fault}")
        }
        FormFault::Unfit | FormFault::NoMemory => Ok(()),
    };
}

// Prints where a file is at fault, where that is known; where memory is wanting, no part is.
fn place(rt: &impl Eprint, file: &str, fault: FormFault, place: Option<Place>) {
    match place {
        Some(place) if fault != FormFault::NoMemory => {
            let _ = eprintln!(rt; "giopctl: {file}: at {place}");
        }
        _ => {}
    }
}

// Prints where a text ceases to be JSON.
fn bad_json(rt: &impl Eprint, alloc: Global, file: &str, text: &[u8]) -> io::Result<()> {
    match Json::from_slice(alloc, text) {
        Err(error) => eprintln!(rt; "giopctl: {file}: {error}"),
        Ok(_) => Ok(()),
    }
}

// The standard output can't be written. Nothing is printed where nobody reads it any more.
fn output_failed(rt: &impl Eprint, error: &io::Error) {
    if error.kind() != ErrorKind::BrokenPipe {
        let _ = eprintln!(rt; "giopctl: standard output: {error}");
    }
}
