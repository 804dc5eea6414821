//! `locate --follow`: an object that is elsewhere is asked for where the reference says, over a
//! connection of its own. What is sent and told is call/locate_following.rt of giop_commands.
ghost use Rattle.std.specs.Prelude.{◌≡◌};
ghost use Rattle.giop_commands.specs.Check.{AreLimits};

use crate::cli::ObjectWords;
use crate::files::OUTPUT_BUFFER;
use crate::report;
use crate::runs::following::{MOST_FORWARDS, place_text};
use crate::runs::object;
use crate::runs::object::{calling_at, offered};
use crate::runs::reach::{connected, endpoint_of, peer_of, target_text};
use giop_commands::call::locate_following::{locate_at, located_place};
use giop_commands::call::locating::tell_located;
use giop_commands::failure::Failure;
use giop_commands::session::write_session;
use giop_commands::status::Status;
use giop_commands::{Ending, Endpoint};
use giop_session::{ClientEnd, Limits, SessionFault};
use giop_types::Interface;
use std::io;
use std::io::{BufWriter, Write};

// What a session came to.
#[derive(Drop)]
enum Asked {
    // The object is to be asked for there.
    Elsewhere(Endpoint),
    // It was told what the last session came to.
    Told(Status),
}

/// Connects to where the target says, and asks where the object is; where forwards are followed, up to
/// five times more where it is said to be. A refused target is reported before anything is connected.
pub fn locate(rt: &HostRuntime, words: ObjectWords) -> Status {
    if !words.follow {
        return object::locate(rt, words);
    }
    match located(rt, words) {
        Ok(status) => status,
        Err(status) => status,
    }
}

// Asks again where the object is said to be. Tells what came of it where it was asked for last.
fn located(rt: &HostRuntime, words: ObjectWords) -> Result<Status, Status> {
    let text = target_text(rt, words.target)?;
    let mut endpoint = endpoint_of(rt, words.lines, words.target, text.as_slice())?;
    let interface = match offered(rt.alloc()) {
        Ok(interface) => interface,
        Err(failure) => return Err(report::answer(rt, words.target, Err(failure))),
    };
    for _ in 0..MOST_FORWARDS {
        match session_at(rt, words, &interface, &endpoint, true)? {
            Asked::Elsewhere(to) => {
                say(rt, &to, "");
                endpoint = to;
            }
            Asked::Told(status) => return Ok(status),
        }
    }
    match session_at(rt, words, &interface, &endpoint, false)? {
        Asked::Elsewhere(_) => Ok(Status::Refused),
        Asked::Told(status) => Ok(status),
    }
}

// Asks where the object is in a session with that of an endpoint. What it came to is told, but where
// the object is to be asked for elsewhere, and may be.
fn session_at(
    rt: &HostRuntime,
    words: ObjectWords,
    interface: &Interface,
    endpoint: &Endpoint,
    may_go_on: bool,
) -> Result<Asked, Status> {
    let peer = peer_of(rt, words.target, endpoint)?;
    let limits = Limits::default();
    let mut end = ClientEnd::new(rt.alloc(), interface, limits);
    let refused = match ask_at(rt, words, interface, endpoint, limits, &mut end) {
        Ok(refused) => refused,
        Err(failure) => {
            let failed = failed(rt, words, interface, &end, failure);
            return Ok(Asked::Told(report::called(rt, peer.as_str(), words.timeout, Err(failed))));
        }
    };
    match located_place(rt.alloc(), &end) {
        Ok(Some(to)) if may_go_on => return Ok(Asked::Elsewhere(to)),
        Ok(Some(to)) => say(
            rt,
            &to,
            ", which isn't followed: it was forwarded 5 times before",
        ),
        Ok(None) => {}
        Err(failure) => return Err(report::answer(rt, words.target, Err(failure))),
    }
    let told = tell(rt, words, interface, &end, refused);
    Ok(Asked::Told(report::called(rt, peer.as_str(), words.timeout, told)))
}

fn ask_at(
    rt: &HostRuntime,
    words: ObjectWords,
    interface: &Interface,
    endpoint: &Endpoint,
    limits: Limits,
    end: &mut ClientEnd<'_>,
) -> Result<Option<SessionFault>, Failure>
    requires interface { end.old.interface.now ≡ interface.now }
    requires limits { end.old.limits ≡ limits }
    requires bounded { AreLimits limits }
{
    let link = connected(rt, endpoint, words.timeout)?;
    let (mut reader, mut writer) = (&link, &link);
    let calling = calling_at(words, interface, endpoint, limits);
    locate_at(rt.alloc(), end, calling, &mut reader, &mut writer)
}

// Writes the line of the LocateRequest behind a connection that failed, unless that was want of
// memory. Returns what failed.
fn failed(
    rt: &HostRuntime,
    words: ObjectWords,
    interface: &Interface,
    end: &ClientEnd<'_>,
    failure: Failure,
) -> Failure {
    if let Failure::Memory = failure {
        return failure;
    }
    match write_line(rt, words, interface, end) {
        Ok(()) => failure,
        Err(failed) => failed,
    }
}

fn write_line(
    rt: &HostRuntime,
    words: ObjectWords,
    interface: &Interface,
    end: &ClientEnd<'_>,
) -> Result<(), Failure> {
    let mut out = BufWriter::with_capacity(rt.alloc(), OUTPUT_BUFFER, io::writer(rt))?;
    write_session(rt.alloc(), words.lines, interface, end, None, &mut out)?;
    out.flush()?;
    Ok(())
}

// Writes what the LocateRequest came to.
fn tell(
    rt: &HostRuntime,
    words: ObjectWords,
    interface: &Interface,
    end: &ClientEnd<'_>,
    refused: Option<SessionFault>,
) -> Result<Ending, Failure> {
    let mut out = BufWriter::with_capacity(rt.alloc(), OUTPUT_BUFFER, io::writer(rt))?;
    let ended = tell_located(rt.alloc(), words.lines, interface, end, refused, &mut out)?;
    out.flush()?;
    Ok(ended)
}

// Says where the object is said to be.
fn say(rt: &HostRuntime, to: &Endpoint, behind: &str) {
    if let Some(text) = place_text(rt.alloc(), to) {
        let _ = eprintln!(rt;
            "giopctl: the object is forwarded to {}{behind}",
            text.as_str()
        );
    }
}
