//! The target of a command: the object that is called, and where it is reached.
ghost use Rattle.std.specs.Prelude.{IfErr};
ghost use Rattle.giop_connections.specs.Carried.{IsCarriedOut};

use giop_commands::{Endpoint, Targeted, target_of};
use giop_files::files::read_or_report;
use giop_files::report;
use giop_files::report::refusals::refuse;
use giop_forms::LineForm;
use giop_lines::EscapedText;
use giop_show::failure::Failure;
use giop_show::status::Status;
use giop_show::unended;

/// The text of a target: itself, or behind `@` that of a file, of which a newline at the end is
/// dropped.
#[tactic(auto, using(giop_connections::proofs::CarriedLemmas::failed_carried))]
pub(crate) fn target_text(rt: &HostRuntime, target: &str) -> Result<Vec<u8>, Status>
    ensures { IfErr result IsCarriedOut }
{
    let text = match target.strip_prefix('@') {
        Some(file) => Vec::from_slice(rt.alloc(), unended(read_or_report(rt, file)?.as_slice())),
        None => Vec::from_slice(rt.alloc(), target.as_bytes()),
    };
    match text {
        Ok(text) => Ok(text),
        Err(_) => Err(report::status_of(rt, target, Err(Failure::Memory))),
    }
}

/// The object of a target's text. Where the text is refused, its line is written in a form.
#[tactic(auto, using(giop_connections::proofs::CarriedLemmas::refused_carried, giop_connections::proofs::CarriedLemmas::failure_carried))]
pub(crate) fn endpoint_of(
    rt: &HostRuntime,
    lines: LineForm,
    target: &str,
    text: &[u8],
) -> Result<Endpoint, Status>
    ensures { IfErr result IsCarriedOut }
{
    match target_of(rt.alloc(), text) {
        Ok(Targeted::At(endpoint)) => Ok(endpoint),
        Ok(Targeted::Refused(line)) => Err(refuse(rt, lines, line)),
        Err(failure) => Err(report::status_of(rt, target, Err(failure))),
    }
}

/// The name of a peer, as standard error has it: `HOST:PORT`.
pub(crate) fn peer_of(rt: &HostRuntime, target: &str, endpoint: &Endpoint) -> Result<String, Status>
    ensures { IfErr result IsCarriedOut }
{
    let host = EscapedText(endpoint.host.as_slice());
    match format!(in rt.alloc(); "{host}:{}", endpoint.port) {
        Ok(peer) => Ok(peer),
        Err(_) => Err(report::status_of(rt, target, Err(Failure::Memory))),
    }
}
