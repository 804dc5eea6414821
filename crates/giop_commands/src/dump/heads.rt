//! The second line that `dump` writes of a message: what its head says (CORBA 3.3 Part 2, 9.4.2,
//! 9.4.3, 9.4.5 and 9.4.6), or why it isn't read. Its text is `second_text` in specs/Dump.antt:
//! change both.
ghost use Rattle.std.specs.Prelude.{◌≡◌, ◌+◌, ◌-◌, ◌^◌, ◌≤◌, length, OnOk};
ghost use Rattle.std.specs.Io.KnownBytes.{Appends};
ghost use Rattle.giop_msg.specs.Joined.{body_place, head_of_joined, right_behind, whole_of_joined};
ghost use Rattle.giop_msg.specs.Locate.{locate_reply_head, locate_request};
ghost use Rattle.giop_msg.specs.ReplyHead.{reply_head};
ghost use Rattle.giop_msg.specs.RequestHead.{request_head};
ghost use Rattle.giop_commands.specs.Dump.{end_of, ended, locate_reply_text, locate_request_text, reply_text, request_text, second_text};
ghost use Rattle.giop_lines.specs.Lines.{head_fault_line, locate_reply_line, locate_request_line, reply_line, request_line};

use crate::failure::Failure;
use giop_cdr::{CdrFault, SliceOctets};
use giop_lines::{HeadFaultLine, LocateReplyLine, LocateRequestLine, ReplyLine, RequestLine};
use giop_msg::{
    Kind, LocateReplyHead, LocateRequest, Msg, ReplyHead, ReplyHeadAt, RequestHead, RequestHeadAt,
};
use std::io::Write;

/// The second line of a message that no fragments follow, where its kind has one.
#[tactic(auto, unfolding(crate::specs::Dump::second_text))]
pub fn write_second<W: Write>(message: &Msg, writer: &mut W) -> Result<(), Failure>
    requires { length message.now.payload ≤ 2 ^ 62 }
    ensures { OnOk result (Appends (W.contents writer.old) (W.contents writer.new)
        (second_text message.now.kind message.now)) }
{
    match message.kind {
        Kind::Request => write_request(message, writer),
        Kind::Reply => write_reply(message, writer),
        Kind::LocateRequest => write_locate_request(message, writer),
        Kind::LocateReply => write_locate_reply(message, writer),
        Kind::CancelRequest | Kind::CloseConnection | Kind::MessageError | Kind::Fragment => Ok(()),
    }
}

fn write_fault<W: Write>(fault: CdrFault, writer: &mut W) -> Result<(), Failure>
    ensures { OnOk result
        (Appends (W.contents writer.old) (W.contents writer.new) (ended (head_fault_line fault))) }
{
    writeln!(writer, "{}", HeadFaultLine(fault))?;
    Ok(())
}

fn write_request<W: Write>(message: &Msg, writer: &mut W) -> Result<(), Failure>
    requires { length message.now.payload ≤ 2 ^ 62 }
    ensures { OnOk result (Appends (W.contents writer.old) (W.contents writer.new)
        (request_text (end_of message.now) (head_of_joined (request_head message.now.version)
        (body_place message.now.version) message.now.order message.now.payload))) }
{
    let octets = message.payload.as_slice();
    let joined = SliceOctets::new(octets);
    match RequestHead::view(&joined, message.version, message.order) {
        Ok((head, place)) => write_request_head(&head, place, octets.len(), writer),
        Err(fault) => write_fault(fault, writer),
    }
}

// The line of a head, by its body's place and the number of octets from offset 12 on.
fn write_request_head<W: Write>(
    head: &RequestHeadAt<SliceOctets>,
    place: usize,
    octets: usize,
    writer: &mut W,
) -> Result<(), Failure>
    requires { octets ≤ 2 ^ 62 }
    ensures { OnOk result (Appends (W.contents writer.old) (W.contents writer.new)
        (ended (request_line head.now (12 + octets - place)))) }
{
    let body = (12 + octets).saturating_sub(place);
    writeln!(writer, "{}", RequestLine { head, body })?;
    Ok(())
}

fn write_reply<W: Write>(message: &Msg, writer: &mut W) -> Result<(), Failure>
    requires { length message.now.payload ≤ 2 ^ 62 }
    ensures { OnOk result (Appends (W.contents writer.old) (W.contents writer.new)
        (reply_text (end_of message.now) (head_of_joined (reply_head message.now.version)
        (body_place message.now.version) message.now.order message.now.payload))) }
{
    let octets = message.payload.as_slice();
    let joined = SliceOctets::new(octets);
    match ReplyHead::view(&joined, message.version, message.order) {
        Ok((head, place)) => write_reply_head(&head, place, octets.len(), writer),
        Err(fault) => write_fault(fault, writer),
    }
}

fn write_reply_head<W: Write>(
    head: &ReplyHeadAt<SliceOctets>,
    place: usize,
    octets: usize,
    writer: &mut W,
) -> Result<(), Failure>
    requires { octets ≤ 2 ^ 62 }
    ensures { OnOk result (Appends (W.contents writer.old) (W.contents writer.new)
        (ended (reply_line head.now (12 + octets - place)))) }
{
    let body = (12 + octets).saturating_sub(place);
    writeln!(writer, "{}", ReplyLine { head, body })?;
    Ok(())
}

fn write_locate_request<W: Write>(message: &Msg, writer: &mut W) -> Result<(), Failure>
    requires { length message.now.payload ≤ 2 ^ 62 }
    ensures { OnOk result (Appends (W.contents writer.old) (W.contents writer.new)
        (locate_request_text (whole_of_joined (locate_request message.now.version)
        message.now.order message.now.payload))) }
{
    let joined = SliceOctets::new(message.payload.as_slice());
    match LocateRequest::view(&joined, message.version, message.order) {
        Ok(request) => {
            writeln!(writer, "{}", LocateRequestLine(&request))?;
            Ok(())
        }
        Err(fault) => write_fault(fault, writer),
    }
}

fn write_locate_reply<W: Write>(message: &Msg, writer: &mut W) -> Result<(), Failure>
    requires { length message.now.payload ≤ 2 ^ 62 }
    ensures { OnOk result (Appends (W.contents writer.old) (W.contents writer.new)
        (locate_reply_text (end_of message.now)
        (head_of_joined (locate_reply_head message.now.version)
        right_behind message.now.order message.now.payload))) }
{
    let octets = message.payload.as_slice();
    let joined = SliceOctets::new(octets);
    match LocateReplyHead::view(&joined, message.version, message.order) {
        Ok((head, place)) => write_locate_reply_head(head, place, octets.len(), writer),
        Err(fault) => write_fault(fault, writer),
    }
}

fn write_locate_reply_head<W: Write>(
    head: LocateReplyHead,
    place: usize,
    octets: usize,
    writer: &mut W,
) -> Result<(), Failure>
    requires { octets ≤ 2 ^ 62 }
    ensures { OnOk result (Appends (W.contents writer.old) (W.contents writer.new)
        (ended (locate_reply_line head (12 + octets - place)))) }
{
    let body = (12 + octets).saturating_sub(place);
    writeln!(writer, "{}", LocateReplyLine { head, body })?;
    Ok(())
}
