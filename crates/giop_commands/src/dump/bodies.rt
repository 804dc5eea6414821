//! The lines that `dump` writes of bodies, by an interface. Their texts are specs/DumpBodies.antt:
//! change both.
ghost use Rattle.std.specs.Prelude.{◌≡◌, ◌≤◌, ◌^◌, length, OnOk};
ghost use Rattle.std.specs.Io.KnownBytes.{Appends};
ghost use Rattle.giop_msg.specs.Messages.RequestAnswer.{IsWholeWant};
ghost use Rattle.giop_lines.specs.BodyLines.{ins_line};
ghost use Rattle.giop_commands.specs.Bodies.{request_ins};
ghost use Rattle.giop_commands.specs.Dump.{ended};
ghost use Rattle.giop_commands.specs.DumpBodies.{body_text, joined_text, own_text, piece_text, undecoded_text};

use crate::dump::heads::write_second;
use crate::dump::joining::Piece;
use crate::failure::Failure;
use crate::serve::table::request_ins;
use giop_cdr::{CdrKind, SliceOctets};
use giop_lines::{InsLine, JoinedLine, UndecodedLine, UnjoinedLine};
use giop_msg::{Kind, Msg, Request, RequestFault};
use giop_types::Interface;
use std::alloc::Global;
use std::io::Write;

// The most octets of a message that are decoded.
const MOST: usize = 1 << 62;

/// The line of the body of a message, where it is a whole Request.
pub fn write_own<W: Write>(
    alloc: Global,
    interface: &Interface,
    message: &Msg,
    writer: &mut W,
) -> Result<(), Failure>
    requires { length message.now.payload ≤ 2 ^ 62 }
    ensures { OnOk result (Appends (W.contents writer.old) (W.contents writer.new)
        (own_text interface.now message.now.kind message.now)) }
{
    match message.kind {
        Kind::Request if !message.more => write_body(alloc, interface, message, writer),
        _ => Ok(()),
    }
}

/// The lines of a piece: those of the Request that it ends, or why it isn't joined.
pub fn write_piece<W: Write>(
    alloc: Global,
    interface: &Interface,
    piece: &Piece,
    writer: &mut W,
) -> Result<(), Failure>
    ensures { OnOk result (Appends (W.contents writer.old) (W.contents writer.new)
        (piece_text interface.now piece.now)) }
{
    match piece {
        Piece::Untold => Ok(()),
        Piece::Unjoined(fault) => {
            writeln!(writer, "{}", UnjoinedLine(*fault))?;
            Ok(())
        }
        Piece::Joined(message) => write_joined(alloc, interface, message, writer),
    }
}

fn write_joined<W: Write>(
    alloc: Global,
    interface: &Interface,
    message: &Msg,
    writer: &mut W,
) -> Result<(), Failure>
    ensures { OnOk result (Appends (W.contents writer.old) (W.contents writer.new)
        (joined_text interface.now message.now)) }
{
    let (kind, size) = (message.kind, message.payload.len());
    if size > MOST {
        return Err(Failure::Memory);
    }
    writeln!(writer, "{}", JoinedLine { kind, size })?;
    write_second(message, writer)?;
    write_body(alloc, interface, message, writer)
}

#[tactic(auto, unfolding(crate::specs::DumpBodies::body_text))]
fn write_body<W: Write>(
    alloc: Global,
    interface: &Interface,
    message: &Msg,
    writer: &mut W,
) -> Result<(), Failure>
    requires { length message.now.payload ≤ 2 ^ 62 }
    ensures { OnOk result (Appends (W.contents writer.old) (W.contents writer.new)
        (body_text interface.now message.now)) }
{
    let joined = SliceOctets::new(message.payload.as_slice());
    match Request::decode(alloc, interface, &joined, message.version, message.order) {
        Ok(request) => write_ins(alloc, interface, &request, writer),
        Err(fault) => write_undecoded(fault, writer),
    }
}

fn write_ins<W: Write>(
    alloc: Global,
    interface: &Interface,
    request: &Request,
    writer: &mut W,
) -> Result<(), Failure>
    ensures { OnOk result (Appends (W.contents writer.old) (W.contents writer.new)
        (ended (ins_line (request_ins interface.now request.now)))) }
{
    let ins = request_ins(alloc, interface, request)?;
    writeln!(writer, "{}", InsLine(ins.as_str()))?;
    Ok(())
}

// Why the body of a Request isn't read. It fails where that was out of memory.
fn write_undecoded<W: Write>(fault: RequestFault, writer: &mut W) -> Result<(), Failure>
    ensures text { OnOk result (Appends (W.contents writer.old) (W.contents writer.new)
        (undecoded_text fault)) }
    ensures memory { OnOk result (IsWholeWant fault → ⊥) }
{
    match fault {
        RequestFault::Header(fault) if fault.kind == CdrKind::NoMemory => Err(Failure::Memory),
        RequestFault::Body(fault) if fault.kind == CdrKind::NoMemory => Err(Failure::Memory),
        RequestFault::Header(_) => Ok(()),
        fault => {
            writeln!(writer, "{}", UndecodedLine(fault))?;
            Ok(())
        }
    }
}
