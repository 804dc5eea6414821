//! `ping` over a connection and the standard output. It calls `_non_existent`, the operation by
//! which a client asks whether an object is there (CORBA 3.3 Part 2, 9.4.2.1), and tells how long
//! that took.
ghost use Rattle.std.specs.Prelude.{IfOk, IfErr, ◌≢◌};
ghost use Rattle.giop_show.specs.Status.{status_number};
ghost use Rattle.giop_connections.specs.Carried.{IsCarriedOut};

use crate::object::{NON_EXISTENT, calling_at, object_interface};
use crate::session::call_at;
use crate::target::{endpoint_of, peer_of, target_text};
use giop_asked_calls::words::call_from_words;
use giop_commands::{Ending, Endpoint};
use giop_connections::endings;
use giop_end::Limits;
use giop_show::failure::Failure;
use giop_show::status::Status;
use giop_words::{ObjectWords, Telling};
use std::time::Instant;

/// Connects to where the target says, asks the object whether it is there, and tells how long that
/// took. A refused target is reported before anything is connected.
#[tactic(auto, using(giop_connections::proofs::CarriedLemmas::carried_number))]
pub fn ping(rt: &HostRuntime, words: ObjectWords) -> Status
    ensures { status_number result ≢ 2 }
{
    match try_ping(rt, words) {
        Ok(status) => status,
        Err(status) => status,
    }
}

#[tactic(auto, using(giop_connections::proofs::CarriedLemmas::ended_carried))]
fn try_ping(rt: &HostRuntime, words: ObjectWords) -> Result<Status, Status>
    ensures ok { IfOk result IsCarriedOut }
    ensures err { IfErr result IsCarriedOut }
{
    let text = target_text(rt, words.target)?;
    let endpoint = endpoint_of(rt, words.lines, words.target, text.as_slice())?;
    let peer = peer_of(rt, words.target, &endpoint)?;
    let began = Instant::now(rt);
    let ended = ask(rt, &endpoint, words);
    if let (Ok(began), Ok(_)) = (began, &ended) {
        if let Ok(time) = began.elapsed(rt) {
            let _ = eprintln!(rt; "giopctl: {}: took {} us", peer.as_str(), time.as_micros());
        }
    }
    Ok(endings::call_status(rt, peer.as_str(), words.timeout, ended))
}

// Asks over a connection, and writes what came of it.
fn ask(rt: &HostRuntime, endpoint: &Endpoint, words: ObjectWords) -> Result<Ending, Failure>
    ensures { IfOk result (λ ending. IsCarriedOut ending.status) }
{
    let interface = object_interface(rt.alloc())?;
    let Ok(calls) = call_from_words(rt.alloc(), &interface, NON_EXISTENT, Vec::new(rt.alloc()))
    else {
        return Err(Failure::Memory);
    };
    let calling = calling_at(words, &interface, endpoint, Limits::default());
    call_at(
        rt,
        endpoint,
        words.timeout,
        Telling::AtTheEnd,
        calling,
        calls,
    )
}
