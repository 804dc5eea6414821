//! `call` over files, a connection and the standard output. What it sends, reads and prints is
//! giop_calling's call.rt, over any reader and writer.
ghost use Rattle.std.specs.Prelude.{◌≡◌, IfOk, IfErr, ◌≢◌};
ghost use Rattle.giop_show.specs.Status.{status_number};
ghost use Rattle.giop_connections.specs.Carried.{IsCarriedOut};

mod asked;
mod following;
mod lines;

use crate::call::asked::{Asked, Given, asked_in, calls_given};
use crate::call::following::call_and_follow;
use crate::call::lines::call_lines;
use crate::session::call_at;
use crate::target::{endpoint_of, peer_of, target_text};
use giop_calling::Calling;
use giop_commands::Endpoint;
use giop_connections::endings;
use giop_connections::sending::{form_of, limits_of};
use giop_files::files::interfaces::{NOTHING, Offered, interface_of_each, own_of, read_each};
use giop_files::report;
use giop_json::interface_from_json;
use giop_show::failure::Failure;
use giop_show::status::Status;
use giop_types::Interface;
use giop_words::CallWords;

/// What the object that is called offers, also where it forwards calls to.
#[derive(Clone, Copy)]
pub struct Object<'a> {
    /// The text of its interface.
    pub text: &'a [u8],
    /// What that says.
    pub interface: &'a Interface,
}

/// Reads the file of the interface and that of the calls, connects to where the target says, and
/// calls. What is refused is reported before anything is connected: the target, the interface, the
/// calls, in this order.
#[tactic(auto, using(giop_connections::proofs::CarriedLemmas::carried_number))]
pub fn call(rt: &HostRuntime, words: CallWords) -> Status
    ensures { status_number result ≢ 2 }
{
    match try_call(rt, words) {
        Ok(status) => status,
        Err(status) => status,
    }
}

#[tactic(auto, using(giop_connections::proofs::CarriedLemmas::failed_carried))]
fn try_call(rt: &HostRuntime, words: CallWords) -> Result<Status, Status>
    ensures ok { IfOk result IsCarriedOut }
    ensures err { IfErr result IsCarriedOut }
{
    let target = target_text(rt, words.target)?;
    let offered = read_each(rt, words.interfaces.as_slice())?;
    let asked = asked_in(rt, &words, offered.as_slice())?;
    call_asked(rt, &words, target.as_slice(), offered.as_slice(), asked)
}

// Makes calls at the object of a target's text, which offers one of these.
#[tactic(auto, using(giop_connections::proofs::CarriedLemmas::refused_carried))]
fn call_asked(
    rt: &HostRuntime,
    words: &CallWords<'_>,
    target: &[u8],
    offered: &[Offered<'_>],
    asked: Asked,
) -> Result<Status, Status>
    ensures ok { IfOk result IsCarriedOut }
    ensures err { IfErr result IsCarriedOut }
{
    let endpoint = endpoint_of(rt, words.lines, words.target, target)?;
    interface_of_each(rt, words.lines, offered)?;
    let (interface, text) = object_of(rt, offered, endpoint.key.as_slice())?;
    let object = Object {
        text,
        interface: &interface,
    };
    match asked {
        Asked::Lines(file) => call_lines(rt, file, object, &endpoint, words),
        Asked::Given(given) if words.follow => {
            call_and_follow(rt, words, object, &given, &endpoint)
        }
        Asked::Given(given) => call_given(rt, words, object, &given, &endpoint),
    }
}

// Makes calls that are given at once, in one session.
#[tactic(auto, using(giop_connections::proofs::CarriedLemmas::ended_carried))]
fn call_given(
    rt: &HostRuntime,
    words: &CallWords<'_>,
    object: Object<'_>,
    given: &Given,
    endpoint: &Endpoint,
) -> Result<Status, Status>
    ensures ok { IfOk result IsCarriedOut }
    ensures err { IfErr result IsCarriedOut }
{
    let calls = calls_given(rt, words, object, given)?;
    let peer = peer_of(rt, words.target, endpoint)?;
    let calling = calling_of(words, object.interface, endpoint);
    let answered = call_at(rt, endpoint, words.timeout, words.telling, calling, calls);
    Ok(endings::call_status(rt, peer.as_str(), words.timeout, answered))
}

// What the object of a key offers, and the text of that.
fn object_of<'b>(
    rt: &HostRuntime,
    offered: &'b [Offered<'_>],
    key: &[u8],
) -> Result<(Interface, &'b [u8]), Status>
    ensures { IfErr result IsCarriedOut }
{
    let text = match own_of(offered, key) {
        Some(one) => one.text.as_slice(),
        None => NOTHING,
    };
    match interface_from_json(rt.alloc(), text) {
        Ok(interface) => Ok((interface, text)),
        Err(_) => Err(report::status_of(rt, "--interface", Err(Failure::Memory))),
    }
}

/// How the object of an endpoint is called.
pub fn calling_of<'a>(
    words: &CallWords<'_>,
    interface: &'a Interface,
    endpoint: &'a Endpoint,
) -> Calling<'a>
    ensures interface { result.interface.now ≡ interface.now }
{
    Calling {
        interface,
        key: endpoint.key.as_slice(),
        version: endpoint.version,
        form: form_of(words.sending),
        limits: limits_of(words.limits),
        lines: words.lines,
    }
}
