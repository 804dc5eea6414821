//! The last line of a command that read a file of messages to its end.
ghost use Rattle.std.specs.Prelude.{◌≡◌, ◌==◌, OnOk, IfOk, if◌then◌else◌};
ghost use Rattle.std.specs.Io.KnownBytes.{Appends};
ghost use Rattle.giop_show.specs.Forms.{ended};
ghost use Rattle.giop_show.specs.Rest.{rest_in};
ghost use Rattle.giop_show.specs.Status.{IsJudged};

use crate::failure::Failure;
use crate::form::write_line;
use crate::status::Status;
use giop_forms::LineForm;
use giop_lines::{RestJson, RestLine};
use std::io::Write;

/// The last line, where so many octets are left.
pub fn write_rest<W: Write>(form: LineForm, rest: usize, writer: &mut W) -> Result<Status, Failure>
    ensures text { OnOk result
        (Appends (W.contents writer.old) (W.contents writer.new) (ended (rest_in form rest))) }
    ensures ok { IfOk result (λ s. s ≡ (if rest == 0 then Status.Done else Status.Refused)) }
    ensures judged { IfOk result IsJudged }
{
    write_line(form, RestLine(rest), RestJson(rest), writer)?;
    Ok(if rest == 0 {
        Status::Done
    } else {
        Status::Refused
    })
}
