//! `locate --follow`: an object that is elsewhere is asked for where the reference says, over a
//! connection of its own. What is sent and told is giop_calling's call/locate_following.rt.
ghost use Rattle.std.specs.Prelude.{◌≡◌, IfOk, IfErr};
ghost use Rattle.giop_connections.specs.Carried.{IsCarriedOut};
ghost use Rattle.giop_commands.specs.Check.{AreLimits};
ghost use Rattle.giop_dialing.specs.Located.{EndsCarriedOut};

use crate::forwards::{MOST_FORWARDS, place_text};
use crate::locate::located::Located;
use crate::object::{calling_at, object_interface};
use crate::target::{endpoint_of, peer_of, target_text};
use giop_calling::call::locate_following::{locate_at, located_place};
use giop_calling::call::locating::tell_located;
use giop_commands::session::given::Showing;
use giop_commands::session::write_session;
use giop_commands::{Ending, Endpoint};
use giop_connections::{connect, endings};
use giop_end::{ClientEnd, Limits, SessionFault};
use giop_files::files::OUTPUT_BUFFER;
use giop_files::report;
use giop_show::failure::Failure;
use giop_show::status::Status;
use giop_types::Interface;
use giop_words::ObjectWords;
use std::io;
use std::io::{BufWriter, Write};

/// Asks where the object is, and again where it is said to be. Tells what came of it where it was
/// asked for last.
#[tactic(auto, using(giop_connections::proofs::CarriedLemmas::failure_carried))]
pub(super) fn locate_and_follow(rt: &HostRuntime, words: ObjectWords) -> Result<Status, Status>
    ensures ok { IfOk result IsCarriedOut }
    ensures err { IfErr result IsCarriedOut }
{
    let text = target_text(rt, words.target)?;
    let endpoint = endpoint_of(rt, words.lines, words.target, text.as_slice())?;
    match object_interface(rt.alloc()) {
        Ok(interface) => follow(rt, words, &interface, endpoint),
        Err(failure) => Err(report::status_of(rt, words.target, Err(failure))),
    }
}

// Asks where the object is, at an endpoint first, and tells what came of it in the end.
fn follow(
    rt: &HostRuntime,
    words: ObjectWords,
    interface: &Interface,
    first: Endpoint,
) -> Result<Status, Status>
    ensures ok { IfOk result IsCarriedOut }
    ensures err { IfErr result IsCarriedOut }
{
    let mut endpoint = first;
    for _ in 0..MOST_FORWARDS {
        match session_at(rt, words, interface, &endpoint, true)? {
            Located::Elsewhere(to) => {
                print_place(rt, &to, "");
                endpoint = to;
            }
            Located::Told(status) => return Ok(status),
        }
    }
    match session_at(rt, words, interface, &endpoint, false)? {
        Located::Elsewhere(_) => Ok(Status::Refused),
        Located::Told(status) => Ok(status),
    }
}

// Asks where the object is in a session with that of an endpoint. Tells what the session came to,
// unless the object is to be asked for elsewhere, and may be.
fn session_at(
    rt: &HostRuntime,
    words: ObjectWords,
    interface: &Interface,
    endpoint: &Endpoint,
    may_go_on: bool,
) -> Result<Located, Status>
    ensures ok { IfOk result EndsCarriedOut }
    ensures err { IfErr result IsCarriedOut }
{
    let limits = Limits::default();
    let mut end = ClientEnd::new(rt.alloc(), interface, limits);
    ask_by(rt, words, interface, endpoint, limits, may_go_on, &mut end)
}

// Asks by an end.
#[tactic(auto, using(giop_connections::proofs::CarriedLemmas::ended_carried, giop_connections::proofs::CarriedLemmas::failure_carried))]
fn ask_by(
    rt: &HostRuntime,
    words: ObjectWords,
    interface: &Interface,
    endpoint: &Endpoint,
    limits: Limits,
    may_go_on: bool,
    end: &mut ClientEnd<'_>,
) -> Result<Located, Status>
    requires interface { end.old.interface.now ≡ interface.now }
    requires limits { end.old.limits ≡ limits }
    requires bounded { AreLimits limits }
    ensures ok { IfOk result EndsCarriedOut }
    ensures err { IfErr result IsCarriedOut }
{
    let peer = peer_of(rt, words.target, endpoint)?;
    let refused = match ask_at(rt, words, interface, endpoint, limits, end) {
        Ok(refused) => refused,
        Err(failure) => {
            let failed = tell_failure(rt, words, interface, end, failure);
            let status = endings::call_status(rt, peer.as_str(), words.timeout, Err(failed));
            return Ok(Located::Told(status));
        }
    };
    match located_place(rt.alloc(), end) {
        Ok(Some(to)) if may_go_on => return Ok(Located::Elsewhere(to)),
        Ok(Some(to)) => print_place(
            rt,
            &to,
            ", which isn't followed: it was forwarded 5 times before",
        ),
        Ok(None) => {}
        Err(failure) => return Err(report::status_of(rt, words.target, Err(failure))),
    }
    let told = tell_answer(rt, words, interface, end, refused);
    let status = endings::call_status(rt, peer.as_str(), words.timeout, told);
    Ok(Located::Told(status))
}

fn ask_at(
    rt: &HostRuntime,
    words: ObjectWords,
    interface: &Interface,
    endpoint: &Endpoint,
    limits: Limits,
    end: &mut ClientEnd<'_>,
) -> Result<Option<SessionFault>, Failure>
    requires interface { end.old.interface.now ≡ interface.now }
    requires limits { end.old.limits ≡ limits }
    requires bounded { AreLimits limits }
{
    let link = connect(rt, endpoint, words.timeout)?;
    let (mut reader, mut writer) = (&link, &link);
    let calling = calling_at(words, interface, endpoint, limits);
    locate_at(rt.alloc(), end, calling, &mut reader, &mut writer)
}

// Writes the line of the LocateRequest behind a connection that failed, unless that was want of
// memory. Returns what failed.
fn tell_failure(
    rt: &HostRuntime,
    words: ObjectWords,
    interface: &Interface,
    end: &ClientEnd<'_>,
    failure: Failure,
) -> Failure {
    if let Failure::Memory = failure {
        return failure;
    }
    match write_line(rt, words, interface, end) {
        Ok(()) => failure,
        Err(failed) => failed,
    }
}

// Writes the line of the LocateRequest.
fn write_line(
    rt: &HostRuntime,
    words: ObjectWords,
    interface: &Interface,
    end: &ClientEnd<'_>,
) -> Result<(), Failure> {
    let mut out = BufWriter::with_capacity(rt.alloc(), OUTPUT_BUFFER, io::writer(rt))?;
    let lines = words.lines;
    let showing = Showing { lines, interface };
    write_session(rt.alloc(), showing, end, None, &mut out)?;
    out.flush()?;
    Ok(())
}

// Writes what the LocateRequest came to.
#[tactic(auto, using(crate::proofs::CarriedLemmas::locate_carried))]
fn tell_answer(
    rt: &HostRuntime,
    words: ObjectWords,
    interface: &Interface,
    end: &ClientEnd<'_>,
    refused: Option<SessionFault>,
) -> Result<Ending, Failure>
    ensures { IfOk result (λ ending. IsCarriedOut ending.status) }
{
    let mut out = BufWriter::with_capacity(rt.alloc(), OUTPUT_BUFFER, io::writer(rt))?;
    let lines = words.lines;
    let showing = Showing { lines, interface };
    let ended = tell_located(rt.alloc(), showing, end, refused, &mut out)?;
    out.flush()?;
    Ok(ended)
}

// Prints where the object is said to be.
fn print_place(rt: &HostRuntime, to: &Endpoint, behind: &str) {
    if let Some(text) = place_text(rt.alloc(), to) {
        let _ = eprintln!(rt;
            "giopctl: the object is forwarded to {}{behind}",
            text.as_str()
        );
    }
}
