//! What `dump` tells of a message's head (CORBA 3.3 Part 2, 9.4.2, 9.4.3, 9.4.5 and 9.4.6), or why
//! it isn't read. It is `second_text` in specs/Dump/Heads.antt: change both.
ghost use Rattle.std.specs.Prelude.{◌≡◌, ◌-◌, ◌^◌, ◌≤◌, length, OnOk};
ghost use Rattle.std.specs.Io.KnownBytes.{Appends};
ghost use Rattle.giop_dumping.specs.Dump.Heads.{end_of, head_fault_in, locate_reply_head_of, locate_reply_text, locate_request_of, locate_request_text, reply_head_of, reply_text, request_head_of, request_text, second_text};

use giop_cdr::{CdrFault, SliceOctets};
use giop_forms::LineForm;
use giop_lines::{
    HeadFaultJson, HeadFaultLine, LocateReplyJson, LocateReplyLine, LocateRequestJson,
    LocateRequestLine, ReplyJson, ReplyLine, RequestJson, RequestLine,
};
use giop_msg::{Kind, LocateReplyHead, LocateRequest, Msg, ReplyHead, RequestHead};
use giop_show::failure::Failure;
use giop_show::form::write_part;
use std::io::Write;

/// What is told of the head of a message that no fragments follow, where its kind has one.
#[tactic(auto, unfolding(crate::specs::Dump::Heads::second_text))]
pub fn write_second<W: Write>(form: LineForm, message: &Msg, writer: &mut W) -> Result<(), Failure>
    requires { length message.now.payload ≤ 2 ^ 62 }
    ensures { OnOk result (Appends (W.contents writer.old) (W.contents writer.new)
        (second_text form message.now.kind message.now)) }
{
    match message.kind {
        Kind::Request => write_request(form, message, writer),
        Kind::Reply => write_reply(form, message, writer),
        Kind::LocateRequest => write_locate_request(form, message, writer),
        Kind::LocateReply => write_locate_reply(form, message, writer),
        Kind::CancelRequest | Kind::CloseConnection | Kind::MessageError | Kind::Fragment => Ok(()),
    }
}

fn write_fault<W: Write>(form: LineForm, fault: CdrFault, writer: &mut W) -> Result<(), Failure>
    ensures { OnOk result
        (Appends (W.contents writer.old) (W.contents writer.new) (head_fault_in form fault)) }
{
    write_part(form, HeadFaultLine(fault), HeadFaultJson(fault), writer)
}

// How many octets of a message stand from a place on, which counts from its first octet.
fn body_from(message: &Msg, place: usize) -> usize
    requires { length message.now.payload ≤ 2 ^ 62 }
    ensures { result ≡ end_of message.now - place }
{
    (12 + message.payload.len()).saturating_sub(place)
}

fn write_request<W: Write>(form: LineForm, message: &Msg, writer: &mut W) -> Result<(), Failure>
    requires { length message.now.payload ≤ 2 ^ 62 }
    ensures { OnOk result (Appends (W.contents writer.old) (W.contents writer.new) (request_text
        form (end_of message.now) (request_head_of message.now))) }
{
    let joined = SliceOctets::new(message.payload.as_slice());
    match RequestHead::view(&joined, message.version, message.order) {
        Ok((head, place)) => {
            let (head, body) = (&head, body_from(message, place));
            let (text, json) = (RequestLine { head, body }, RequestJson { head, body });
            write_part(form, text, json, writer)
        }
        Err(fault) => write_fault(form, fault, writer),
    }
}

fn write_reply<W: Write>(form: LineForm, message: &Msg, writer: &mut W) -> Result<(), Failure>
    requires { length message.now.payload ≤ 2 ^ 62 }
    ensures { OnOk result (Appends (W.contents writer.old) (W.contents writer.new) (reply_text form
        (end_of message.now) (reply_head_of message.now))) }
{
    let joined = SliceOctets::new(message.payload.as_slice());
    match ReplyHead::view(&joined, message.version, message.order) {
        Ok((head, place)) => {
            let (head, body) = (&head, body_from(message, place));
            let (text, json) = (ReplyLine { head, body }, ReplyJson { head, body });
            write_part(form, text, json, writer)
        }
        Err(fault) => write_fault(form, fault, writer),
    }
}

fn write_locate_request<W: Write>(
    form: LineForm,
    message: &Msg,
    writer: &mut W,
) -> Result<(), Failure>
    requires { length message.now.payload ≤ 2 ^ 62 }
    ensures { OnOk result (Appends (W.contents writer.old) (W.contents writer.new)
        (locate_request_text form (locate_request_of message.now))) }
{
    let joined = SliceOctets::new(message.payload.as_slice());
    match LocateRequest::view(&joined, message.version, message.order) {
        Ok(request) => {
            let (text, json) = (LocateRequestLine(&request), LocateRequestJson(&request));
            write_part(form, text, json, writer)
        }
        Err(fault) => write_fault(form, fault, writer),
    }
}

fn write_locate_reply<W: Write>(
    form: LineForm,
    message: &Msg,
    writer: &mut W,
) -> Result<(), Failure>
    requires { length message.now.payload ≤ 2 ^ 62 }
    ensures { OnOk result (Appends (W.contents writer.old) (W.contents writer.new)
        (locate_reply_text form (end_of message.now) (locate_reply_head_of message.now))) }
{
    let joined = SliceOctets::new(message.payload.as_slice());
    match LocateReplyHead::view(&joined, message.version, message.order) {
        Ok((head, place)) => {
            let body = body_from(message, place);
            let (text, json) = (
                LocateReplyLine { head, body },
                LocateReplyJson { head, body },
            );
            write_part(form, text, json, writer)
        }
        Err(fault) => write_fault(form, fault, writer),
    }
}
