//! `dump` with bodies, by the text of an interface. Its meaning is `DumpsText` in
//! specs/Dump/Bodies.antt: change both.
ghost use Rattle.std.specs.Prelude.{◌≡◌, ◌≤◌, ◌^◌, IfOk};
ghost use Rattle.std.specs.Io.KnownBytes.{IsAtEnd};
ghost use Rattle.giop_dumping.specs.Dump.Bodies.{DumpsText};
ghost use Rattle.giop_show.specs.Status.{IsJudged};

use crate::dump::dump_by;
use crate::dump::teller::Teller;
use giop_forms::LineForm;
use giop_json::interface_from_json;
use giop_show::failure::Failure;
use giop_show::form::refuse_in;
use giop_show::status::Status;
use giop_show::{BehindFault, form_refusal};
use std::alloc::Global;
use std::io::{Read, Write};

/// Writes what `dump_stream` writes, and the bodies of Requests by an interface in JSON, those in
/// pieces at their last one. No more octets of pieces are gathered than `gathered`. Where the text
/// is no interface, the line of its fault is written, and nothing is read; `Refused`.
pub fn dump_text<R: Read, W: Write>(
    alloc: Global,
    interface: &[u8],
    limit: u32,
    gathered: u64,
    form: LineForm,
    reader: &mut R,
    writer: &mut W,
    behind: BehindFault,
) -> Result<Status, Failure>
    requires { gathered ≤ 2 ^ 62 }
    ensures text { IfOk result (DumpsText interface.now limit gathered form
        (R.remaining reader.old) (W.contents writer.old) (W.contents writer.new)) }
    ensures done { IfOk result (λ status. status ≡ Status.Done → IsAtEnd (R.remaining reader.new)) }
    ensures judged { IfOk result IsJudged }
{
    match interface_from_json(alloc, interface) {
        Ok(interface) => {
            let mut teller = Teller::of_bodies(alloc, &interface, gathered as usize, form);
            dump_by(alloc, &mut teller, limit, reader, writer, behind)
        }
        Err(fault) => refuse_in(form, form_refusal(fault)?, writer),
    }
}
