//! `call --follow`: calls that are forwarded are made again where the reference says, over a
//! connection of their own. What is sent and told is giop_calling's call/following.rt.
ghost use Rattle.std.specs.Prelude.{◌≡◌, IfOk, IfErr};
ghost use Rattle.giop_connections.specs.Carried.{IsCarriedOut};

use crate::call::asked::{Given, calls_given};
use crate::call::{Object, calling_of};
use crate::forwards::{MOST_FORWARDS, place_text};
use crate::target::peer_of;
use giop_asked_calls::calls::CallLine;
use giop_calling::Calling;
use giop_calling::call::following::{Forward, call_at, calls_of, forwards_of, tell_followed};
use giop_commands::Endpoint;
use giop_commands::session::ending::ending_of;
use giop_commands::session::given::Showing;
use giop_commands::session::told;
use giop_connections::{connect, endings};
use giop_end::{ClientEnd, SessionFault};
use giop_files::files::OUTPUT_BUFFER;
use giop_files::report;
use giop_show::failure::Failure;
use giop_show::status::Status;
use giop_types::Interface;
use giop_words::CallWords;
use std::alloc::{AllocError, Global};
use std::io;
use std::io::{BufWriter, Write};

// The sessions so far; of the last the fault of a call that was refused at this end, and what
// failed in it, with its peer.
#[derive(Drop)]
struct Sessions<'a> {
    ends: Vec<ClientEnd<'a>>,
    refused: Option<SessionFault>,
    failed: Option<(String, Failure)>,
}

impl Sessions<'_> {
    // The fault of the last session's end.
    fn fault(&self) -> Option<SessionFault> {
        match self.ends.last() {
            Some(end) => end.fault(),
            None => None,
        }
    }

    // Whether others may follow: neither a fault nor a failure ended the last.
    fn may_go_on(&self) -> bool {
        self.failed.is_none() && self.refused.is_none() && self.fault().is_none()
    }
}

/// Makes calls, and again those that are forwarded, up to five times each. Then tells them all, by
/// what they came to where they were made last.
pub(super) fn call_and_follow(
    rt: &HostRuntime,
    words: &CallWords<'_>,
    object: Object<'_>,
    given: &Given,
    endpoint: &Endpoint,
) -> Result<Status, Status>
    ensures ok { IfOk result IsCarriedOut }
    ensures err { IfErr result IsCarriedOut }
{
    let calls = calls_given(rt, words, object, given)?;
    let mut sessions = Sessions {
        ends: Vec::new(rt.alloc()),
        refused: None,
        failed: None,
    };
    session_at(rt, words, object.interface, endpoint, calls, &mut sessions)?;
    for done in 0..=MOST_FORWARDS {
        let forwards = forwards_in(rt, words, &sessions)?;
        if done == MOST_FORWARDS {
            print_unfollowed(rt, forwards.as_slice());
        } else {
            follow(rt, words, object, given, forwards, &mut sessions)?;
        }
    }
    Ok(tell_calls(rt, words, object.interface, sessions))
}

// The calls that are to be made again; none where no session may follow.
#[tactic(auto, using(giop_connections::proofs::CarriedLemmas::failure_carried))]
fn forwards_in(
    rt: &HostRuntime,
    words: &CallWords<'_>,
    sessions: &Sessions<'_>,
) -> Result<Vec<Forward>, Status>
    ensures { IfErr result IsCarriedOut }
{
    if !sessions.may_go_on() {
        return Ok(Vec::new(rt.alloc()));
    }
    match forwards_of(rt.alloc(), sessions.ends.as_slice()) {
        Ok(forwards) => Ok(forwards),
        Err(failure) => Err(report::status_of(rt, words.target, Err(failure))),
    }
}

// Makes calls again, those of one place in one session, up to one behind which none may follow.
fn follow<'a>(
    rt: &HostRuntime,
    words: &CallWords<'_>,
    object: Object<'a>,
    given: &Given,
    mut forwards: Vec<Forward>,
    sessions: &mut Sessions<'a>,
) -> Result<(), Status>
    ensures { IfErr result IsCarriedOut }
{
    for _ in 0..u64::MAX {
        if forwards.is_empty() || !sessions.may_go_on() {
            return Ok(());
        }
        let first = forwards.remove(0);
        let ids = match ids_at(rt.alloc(), &first, &mut forwards) {
            Ok(ids) => ids,
            Err(_) => return Err(report::status_of(rt, words.target, Err(Failure::Memory))),
        };
        print_forwards(rt, ids.as_slice(), &first.to);
        let calls = calls_of(calls_given(rt, words, object, given)?, ids.as_slice());
        session_at(rt, words, object.interface, &first.to, calls, sessions)?;
    }
    Ok(())
}

// The ids of a call and of those that are forwarded to the same place, which are taken out.
fn ids_at(
    alloc: Global,
    first: &Forward,
    forwards: &mut Vec<Forward>,
) -> Result<Vec<u32>, AllocError> {
    let mut ids = Vec::new(alloc);
    ids.push(first.id)?;
    for forward in &*forwards {
        if forward.to == first.to {
            ids.push(forward.id)?;
        }
    }
    forwards.retain(|forward| forward.to != first.to);
    Ok(ids)
}

// Makes calls in a session with the object of an endpoint.
fn session_at<'a>(
    rt: &HostRuntime,
    words: &CallWords<'_>,
    interface: &'a Interface,
    endpoint: &Endpoint,
    calls: Vec<CallLine>,
    sessions: &mut Sessions<'a>,
) -> Result<(), Status>
    ensures { IfErr result IsCarriedOut }
{
    let calling = calling_of(words, interface, endpoint);
    let mut end = ClientEnd::new(rt.alloc(), interface, calling.limits);
    let called = call_by(rt, words, endpoint, calling, calls, &mut end, sessions);
    let kept = keep(end, &mut sessions.ends);
    called?;
    if kept {
        Ok(())
    } else {
        Err(out_of_memory(rt, words))
    }
}

// Keeps the end of a session. Returns whether it had memory for it.
fn keep<'a>(end: ClientEnd<'a>, ends: &mut Vec<ClientEnd<'a>>) -> bool {
    ends.push(end).is_ok()
}

// Makes calls by an end, and notes what was refused or failed.
fn call_by(
    rt: &HostRuntime,
    words: &CallWords<'_>,
    endpoint: &Endpoint,
    calling: Calling<'_>,
    calls: Vec<CallLine>,
    end: &mut ClientEnd<'_>,
    sessions: &mut Sessions<'_>,
) -> Result<(), Status>
    requires interface { end.old.interface.now ≡ calling.interface.now }
    requires limits { end.old.limits ≡ calling.limits }
    ensures { IfErr result IsCarriedOut }
{
    let peer = peer_of(rt, words.target, endpoint)?;
    match call_in_session(rt, words, endpoint, calling, calls, end) {
        Ok(refused) => {
            print_open_calls(rt, words, peer.as_str(), end, refused)?;
            sessions.refused = refused;
        }
        Err(Failure::Memory) => return Err(out_of_memory(rt, words)),
        Err(failure) => sessions.failed = Some((peer, failure)),
    }
    Ok(())
}

// That it is out of memory.
fn out_of_memory(rt: &HostRuntime, words: &CallWords<'_>) -> Status
    ensures { IsCarriedOut result }
{
    report::status_of(rt, words.target, Err(Failure::Memory))
}

fn call_in_session(
    rt: &HostRuntime,
    words: &CallWords<'_>,
    endpoint: &Endpoint,
    calling: Calling<'_>,
    calls: Vec<CallLine>,
    end: &mut ClientEnd<'_>,
) -> Result<Option<SessionFault>, Failure>
    requires interface { end.old.interface.now ≡ calling.interface.now }
    requires limits { end.old.limits ≡ calling.limits }
{
    let link = connect(rt, endpoint, words.timeout)?;
    let (mut reader, mut writer) = (&link, &link);
    call_at(rt.alloc(), end, calling, calls, &mut reader, &mut writer)
}

// Prints which calls are open where a session ended without a fault.
#[tactic(auto, using(giop_connections::proofs::CarriedLemmas::ended_carried))]
fn print_open_calls(
    rt: &HostRuntime,
    words: &CallWords<'_>,
    peer: &str,
    end: &ClientEnd<'_>,
    refused: Option<SessionFault>,
) -> Result<(), Status>
    ensures { IfErr result IsCarriedOut }
{
    let ended = match ending_of(rt.alloc(), end, told(refused, end.fault()), Status::Done) {
        Ok(ending) => Ok(ending),
        Err(_) => Err(Failure::Memory),
    };
    match endings::call_status(rt, peer, words.timeout, ended) {
        Status::Done => Ok(()),
        status => Err(status),
    }
}

// Prints where calls are forwarded to.
fn print_forwards(rt: &HostRuntime, ids: &[u32], to: &Endpoint) {
    for id in ids {
        print_forward(rt, *id, to, "");
    }
}

// Prints which calls are forwarded once more, and not followed.
fn print_unfollowed(rt: &HostRuntime, forwards: &[Forward]) {
    for forward in forwards {
        let behind = ", which isn't followed: it was forwarded 5 times before";
        print_forward(rt, forward.id, &forward.to, behind);
    }
}

// Prints where a call is forwarded to, and a text behind it.
fn print_forward(rt: &HostRuntime, id: u32, to: &Endpoint, behind: &str) {
    if let Some(text) = place_text(rt.alloc(), to) {
        let _ = eprintln!(rt;
            "giopctl: call {id} is forwarded to {}{behind}",
            text.as_str()
        );
    }
}

// Tells what all calls came to, and what failed.
#[tactic(auto, using(giop_connections::proofs::CarriedLemmas::failure_carried, giop_connections::proofs::CarriedLemmas::ended_carried))]
fn tell_calls(
    rt: &HostRuntime,
    words: &CallWords<'_>,
    interface: &Interface,
    sessions: Sessions<'_>,
) -> Status
    ensures { IsCarriedOut result }
{
    let status = match tell_sessions(rt, words, interface, &sessions) {
        Ok(status) => status,
        Err(failure) => return report::status_of(rt, words.target, Err(failure)),
    };
    let Sessions { ends, failed, .. } = sessions;
    drop(ends);
    match failed {
        Some((peer, failure)) => endings::call_status(
            rt,
            peer.as_str(),
            words.timeout,
            Err(failure),
        ),
        None => report::status_of(rt, words.target, Ok(status)),
    }
}

// Tells what all calls came to.
#[tactic(auto, using(crate::proofs::CarriedLemmas::stream_carried))]
fn tell_sessions(
    rt: &HostRuntime,
    words: &CallWords<'_>,
    interface: &Interface,
    sessions: &Sessions<'_>,
) -> Result<Status, Failure>
    ensures { IfOk result IsCarriedOut }
{
    let mut out = BufWriter::with_capacity(rt.alloc(), OUTPUT_BUFFER, io::writer(rt))?;
    let fault = match sessions.failed {
        Some(_) => None,
        None => sessions.fault(),
    };
    let showing = Showing {
        lines: words.lines,
        interface,
    };
    let status = tell_followed(
        rt.alloc(),
        showing,
        sessions.ends.as_slice(),
        sessions.refused,
        fault,
        &mut out,
    )?;
    out.flush()?;
    Ok(status)
}
