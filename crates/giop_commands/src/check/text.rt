//! `check` by the text of an interface. Its meaning is `ChecksText` in specs/Check.antt: change
//! both.
ghost use Rattle.std.specs.Prelude.{◌≡◌, IfOk, OnOk};
ghost use Rattle.std.specs.Io.KnownBytes.{IsAtEnd};
ghost use Rattle.giop_commands.specs.Check.{AreLimits, ChecksText};

use crate::check::{Checking, check_stream};
use giop_json::interface_from_json;
use giop_show::failure::Failure;
use giop_show::form::refuse_in;
use giop_show::pieces::{PieceBuffer, drain};
use giop_show::status::Status;
use giop_show::{BehindFault, form_refusal};
use std::alloc::Global;
use std::io::{Read, Write};

/// Checks the octets that a reader gives by an interface in JSON, as `check_stream` says. Where the
/// text is no interface, the line of its fault is written, whatever the reader gives; `Refused`. A
/// read that fails is reported before that: any read to the end, where the input is read behind a
/// fault; else the first read.
pub fn check_text<R: Read, W: Write>(
    alloc: Global,
    interface: &[u8],
    checking: Checking,
    reader: &mut R,
    writer: &mut W,
) -> Result<Status, Failure>
    requires { AreLimits checking.limits }
    ensures text { IfOk result (ChecksText interface.now checking.limits checking.strict
        checking.lines (R.remaining reader.old) (W.contents writer.old) (W.contents writer.new)) }
    ensures end { OnOk result (checking.behind ≡ BehindFault.Read
        → IsAtEnd (R.remaining reader.new)) }
{
    match interface_from_json(alloc, interface) {
        Ok(interface) => check_stream(alloc, &interface, checking, reader, writer),
        Err(fault) => {
            let line = form_refusal(fault)?;
            read_on(alloc, reader, checking.behind)?;
            refuse_in(checking.lines, line, writer)
        }
    }
}

// Reads to the end, or once where the input may have none.
fn read_on<R: Read>(alloc: Global, reader: &mut R, behind: BehindFault) -> Result<(), Failure>
    ensures { OnOk result (behind ≡ BehindFault.Read → IsAtEnd (R.remaining reader.new)) }
{
    let mut buffer = PieceBuffer::new(alloc)?;
    match behind {
        BehindFault::Read => drain(&mut buffer, reader),
        BehindFault::Leave => match buffer.fill(reader) {
            Ok(_) => Ok(()),
            Err(failure) => Err(failure),
        },
    }
}
