//! What `dump` tells of bodies, by an interface. It is specs/Dump/Bodies.antt: change both.
ghost use Rattle.std.specs.Prelude.{◌≡◌, ◌≤◌, ◌^◌, length, OnOk};
ghost use Rattle.std.specs.Io.KnownBytes.{Appends};
ghost use Rattle.giop_msg.specs.Messages.RequestAnswer.{IsWholeWant};
ghost use Rattle.giop_show.specs.Bodies.{request_ins};
ghost use Rattle.giop_forms.specs.Forms.{numbers_of};
ghost use Rattle.giop_dumping.specs.Dump.Bodies.{body_text, ins_in, joined_text, own_text, piece_text, undecoded_text};

use crate::dump::heads::write_second;
use crate::dump::joining::Piece;
use giop_cdr::{CdrKind, SliceOctets};
use giop_forms::LineForm;
use giop_lines::{
    InsJson, InsLine, JoinedJson, JoinedLine, UndecodedJson, UndecodedLine, UnjoinedJson,
    UnjoinedLine,
};
use giop_msg::{Kind, Msg, Request, RequestFault};
use giop_show::bodies::request_ins;
use giop_show::failure::Failure;
use giop_show::form::{write_closed, write_part};
use giop_types::Interface;
use std::alloc::Global;
use std::io::Write;

// The most octets of a message that are decoded.
const MOST: usize = 1 << 62;

/// What is told of the body of a message, where it is a whole Request.
pub fn write_own<W: Write>(
    alloc: Global,
    interface: &Interface,
    form: LineForm,
    message: &Msg,
    writer: &mut W,
) -> Result<(), Failure>
    requires { length message.now.payload ≤ 2 ^ 62 }
    ensures { OnOk result (Appends (W.contents writer.old) (W.contents writer.new)
        (own_text interface.now form message.now.kind message.now)) }
{
    match message.kind {
        Kind::Request if !message.more => write_body(alloc, interface, form, message, writer),
        _ => Ok(()),
    }
}

/// What is told of a piece: the Request that it ends, or why it isn't joined.
pub fn write_piece<W: Write>(
    alloc: Global,
    interface: &Interface,
    form: LineForm,
    piece: &Piece,
    writer: &mut W,
) -> Result<(), Failure>
    ensures { OnOk result (Appends (W.contents writer.old) (W.contents writer.new)
        (piece_text interface.now form piece.now)) }
{
    match piece {
        Piece::Untold => Ok(()),
        Piece::Unjoined(fault) => {
            write_part(form, UnjoinedLine(*fault), UnjoinedJson(*fault), writer)
        }
        Piece::Joined(message) => write_joined(alloc, interface, form, message, writer),
    }
}

fn write_joined<W: Write>(
    alloc: Global,
    interface: &Interface,
    form: LineForm,
    message: &Msg,
    writer: &mut W,
) -> Result<(), Failure>
    ensures { OnOk result (Appends (W.contents writer.old) (W.contents writer.new)
        (joined_text interface.now form message.now)) }
{
    let (kind, size) = (message.kind, message.payload.len());
    if size > MOST {
        return Err(Failure::Memory);
    }
    let (text, json) = (JoinedLine { kind, size }, JoinedJson { kind, size });
    write_part(form, text, json, writer)?;
    write_second(form, message, writer)?;
    write_body(alloc, interface, form, message, writer)?;
    write_closed(form, writer)
}

#[tactic(auto, unfolding(crate::specs::Dump::Bodies::body_text))]
fn write_body<W: Write>(
    alloc: Global,
    interface: &Interface,
    form: LineForm,
    message: &Msg,
    writer: &mut W,
) -> Result<(), Failure>
    requires { length message.now.payload ≤ 2 ^ 62 }
    ensures { OnOk result (Appends (W.contents writer.old) (W.contents writer.new)
        (body_text interface.now form message.now)) }
{
    let joined = SliceOctets::new(message.payload.as_slice());
    match Request::decode(alloc, interface, &joined, message.version, message.order) {
        Ok(request) => write_ins(alloc, interface, form, &request, writer),
        Err(fault) => write_undecoded(form, fault, writer),
    }
}

fn write_ins<W: Write>(
    alloc: Global,
    interface: &Interface,
    form: LineForm,
    request: &Request,
    writer: &mut W,
) -> Result<(), Failure>
    ensures { OnOk result (Appends (W.contents writer.old) (W.contents writer.new)
        (ins_in form (request_ins (numbers_of form) interface.now request.now))) }
{
    let ins = request_ins(alloc, form.numbers(), interface, request)?;
    let ins = ins.as_str();
    write_part(form, InsLine(ins), InsJson(ins), writer)
}

// Why the body of a Request isn't read. It fails where that was out of memory.
fn write_undecoded<W: Write>(
    form: LineForm,
    fault: RequestFault,
    writer: &mut W,
) -> Result<(), Failure>
    ensures text { OnOk result (Appends (W.contents writer.old) (W.contents writer.new)
        (undecoded_text form fault)) }
    ensures memory { OnOk result (IsWholeWant fault → ⊥) }
{
    match fault {
        RequestFault::Header(fault) if fault.kind == CdrKind::NoMemory => Err(Failure::Memory),
        RequestFault::Body(fault) if fault.kind == CdrKind::NoMemory => Err(Failure::Memory),
        RequestFault::Header(_) => Ok(()),
        fault => write_part(form, UndecodedLine(fault), UndecodedJson(fault), writer),
    }
}
