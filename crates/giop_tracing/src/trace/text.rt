//! `trace` by the text of an interface. Its meaning is `TracesText` in specs/Trace/Text.antt:
//! change both.
ghost use Rattle.std.specs.Prelude.{◌≡◌, IfOk};
ghost use Rattle.std.specs.Io.KnownBytes.{IsAtEnd};
ghost use Rattle.giop_show.specs.Status.{IsJudged};
ghost use Rattle.giop_tracing.specs.Trace.Text.{TracesText};

use crate::trace::{Heard, trace_stream};
use giop_forms::LineForm;
use giop_json::interface_from_json;
use giop_show::failure::Failure;
use giop_show::form::refuse_in;
use giop_show::form_refusal;
use giop_show::status::Status;
use std::alloc::Global;
use std::io::{Read, Write};

/// Traces the octets that two readers give by an interface in JSON, as `trace_stream` says. Where
/// the text is no interface, the line of its fault is written in this form, and nothing is read;
/// `Refused`.
pub fn trace_text<C: Read, S: Read, W: Write>(
    alloc: Global,
    interface: &[u8],
    limit: u32,
    form: LineForm,
    heard: Heard,
    client: &mut C,
    server: &mut S,
    writer: &mut W,
) -> Result<Status, Failure>
    ensures client { IfOk result (λ status. status ≡ Status.Done
        → IsAtEnd (C.remaining client.new)) }
    ensures server { IfOk result (λ status. status ≡ Status.Done → heard ≡ Heard.Both
        → IsAtEnd (S.remaining server.new)) }
    ensures alone { heard ≡ Heard.Client → S.remaining server.new ≡ S.remaining server.old }
    ensures text { IfOk result (TracesText interface.now limit form heard
        (C.remaining client.old) (S.remaining server.old)
        (W.contents writer.old) (W.contents writer.new)) }
    ensures judged { IfOk result IsJudged }
{
    match interface_from_json(alloc, interface) {
        Ok(interface) => trace_stream(
            alloc, &interface, limit, form, heard, client, server, writer,
        ),
        Err(fault) => refuse_in(form, form_refusal(fault)?, writer),
    }
}
