//! `trace` by the text of an interface.
ghost use Rattle.std.specs.Prelude.{◌≡◌, IfOk, OnOk};
ghost use Rattle.std.specs.Io.KnownBytes.{Appends, IsAtEnd};
ghost use Rattle.giop_commands.specs.Dump.{ended};
ghost use Rattle.giop_lines.specs.JsonLines.{refused_json};

use crate::convert::refuse;
use crate::convert::value::form_refusal;
use crate::failure::Failure;
use crate::status::Status;
use crate::trace::call_line::LineForm;
use crate::trace::{Heard, trace_stream};
use giop_lines::RefusedJson;
use giop_types::{FormFault, Interface};
use std::alloc::Global;
use std::io::{Read, Write};

/// Traces the octets that two readers give by an interface in JSON, as `trace_stream` says. Where
/// the text is no interface, the line of its fault is written in this form, and nothing is read;
/// `Refused`.
pub fn trace_text<C: Read, S: Read, W: Write>(
    alloc: Global,
    interface: &[u8],
    limit: u32,
    form: LineForm,
    heard: Heard,
    client: &mut C,
    server: &mut S,
    writer: &mut W,
) -> Result<Status, Failure>
    ensures client { IfOk result (λ status. status ≡ Status.Done
        → IsAtEnd (C.remaining client.new)) }
    ensures server { IfOk result (λ status. status ≡ Status.Done → heard ≡ Heard.Both
        → IsAtEnd (S.remaining server.new)) }
    ensures alone { heard ≡ Heard.Client → S.remaining server.new ≡ S.remaining server.old }
{
    match Interface::from_json(alloc, interface) {
        Ok(interface) => trace_stream(
            alloc, &interface, limit, form, heard, client, server, writer,
        ),
        Err(fault) => match form {
            LineForm::Text => refuse(form_refusal(fault)?, writer),
            LineForm::Json => refuse_json(fault, writer),
        },
    }
}

// Writes the JSON line of the fault of an interface.
fn refuse_json<W: Write>(fault: FormFault, writer: &mut W) -> Result<Status, Failure>
    ensures text { OnOk result (Appends (W.contents writer.old) (W.contents writer.new)
        (ended (refused_json fault))) }
    ensures ok { IfOk result (λ status. status ≡ Status.Refused) }
{
    if fault == FormFault::NoMemory {
        return Err(Failure::Memory);
    }
    writeln!(writer, "{}", RefusedJson(fault))?;
    Ok(Status::Refused)
}
