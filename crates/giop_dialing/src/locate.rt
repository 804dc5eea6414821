//! `locate` over a connection and the standard output. It sends a LocateRequest (CORBA 3.3 Part 2,
//! 9.4.5). What is sent and told is giop_calling's call/locating.rt.
ghost use Rattle.std.specs.Prelude.{IfOk, IfErr, ◌≢◌};
ghost use Rattle.giop_show.specs.Status.{status_number};
ghost use Rattle.giop_connections.specs.Carried.{IsCarriedOut};

mod following;
mod located;

use crate::locate::following::locate_and_follow;
use crate::object::{calling_at, object_interface};
use crate::target::{endpoint_of, peer_of, target_text};
use giop_calling::call::locating::locate_over;
use giop_commands::session::given::Pipes;
use giop_commands::{Ending, Endpoint};
use giop_connections::{connect, endings};
use giop_end::Limits;
use giop_files::files::OUTPUT_BUFFER;
use giop_show::failure::Failure;
use giop_show::status::Status;
use giop_types::Interface;
use giop_words::ObjectWords;
use std::io;
use std::io::{BufWriter, Write};

/// Connects to where the target says, and asks where the object is; where forwards are followed, up
/// to five times more where it is said to be. A refused target is reported before anything is
/// connected.
#[tactic(auto, using(giop_connections::proofs::CarriedLemmas::carried_number))]
pub fn locate(rt: &HostRuntime, words: ObjectWords) -> Status
    ensures { status_number result ≢ 2 }
{
    let status = if words.follow {
        locate_and_follow(rt, words)
    } else {
        locate_once(rt, words)
    };
    match status {
        Ok(status) => status,
        Err(status) => status,
    }
}

#[tactic(auto, using(giop_connections::proofs::CarriedLemmas::ended_carried))]
fn locate_once(rt: &HostRuntime, words: ObjectWords) -> Result<Status, Status>
    ensures ok { IfOk result IsCarriedOut }
    ensures err { IfErr result IsCarriedOut }
{
    let text = target_text(rt, words.target)?;
    let endpoint = endpoint_of(rt, words.lines, words.target, text.as_slice())?;
    let peer = peer_of(rt, words.target, &endpoint)?;
    let ended = ask(rt, &endpoint, words);
    Ok(endings::call_status(rt, peer.as_str(), words.timeout, ended))
}

// Asks over a connection, and writes what came of it.
fn ask(rt: &HostRuntime, endpoint: &Endpoint, words: ObjectWords) -> Result<Ending, Failure>
    ensures { IfOk result (λ ending. IsCarriedOut ending.status) }
{
    let interface = object_interface(rt.alloc())?;
    ask_by(rt, endpoint, words, &interface)
}

// Asks by the interface of any object.
#[tactic(auto, using(crate::proofs::CarriedLemmas::locates_carried))]
fn ask_by(
    rt: &HostRuntime,
    endpoint: &Endpoint,
    words: ObjectWords,
    interface: &Interface,
) -> Result<Ending, Failure>
    ensures { IfOk result (λ ending. IsCarriedOut ending.status) }
{
    let calling = calling_at(words, interface, endpoint, Limits::default());
    let link = connect(rt, endpoint, words.timeout)?;
    let out = BufWriter::with_capacity(rt.alloc(), OUTPUT_BUFFER, io::writer(rt))?;
    let mut pipes = Pipes {
        reader: &link,
        writer: &link,
        out,
    };
    let ended = locate_over(rt.alloc(), calling, &mut pipes)?;
    pipes.out.flush()?;
    Ok(ended)
}
