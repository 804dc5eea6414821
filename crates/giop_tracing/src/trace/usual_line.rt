//! The line of a call that brought its outs, as most do: its messages are decoded and its line is
//! made where they lie, since what is handed on from step to step takes longer than the steps. The
//! text is `call_text` in specs/Trace/Lines.antt, as that of any call: change both.
ghost use Rattle.std.specs.Prelude.{◌≡◌, ◌≤◌, ◌^◌, ◌++◌, Some, IfOk, IfSome, OnOk, codes, false, length, map, true};
ghost use Rattle.std.specs.String.{string_bytes};
ghost use Rattle.giop_types.specs.Values.Views.{value_view};
ghost use Rattle.giop_show.specs.Forms.{ended};
ghost use Rattle.giop_tracing.specs.Trace.Lines.{both_lists, call_text, reply_line, request_result, result_text};

use giop_cdr::SliceOctets;
use giop_json::{NumberForm, append_values};
use giop_lines::{append_escaped, append_id, append_target};
use giop_msg::{Kind, Msg, Reply, ReplyBody, Request};
use giop_trace::Flow;
use giop_types::{Interface, Parameter, Value};
use std::alloc::{AllocError, Global};

// The most octets of a message that are decoded.
const MOST: usize = 1 << 62;

/// The line of a call whose Request and Reply are whole, where they can be decoded and brought its
/// outs; else none.
#[tactic(auto, using(crate::proofs::TracedLemmas::usual_call))]
pub fn usual_line(
    alloc: Global,
    numbers: NumberForm,
    interface: &Interface,
    id: Option<u32>,
    flow: &Flow,
) -> Result<Option<String>, AllocError>
    ensures { (unanswered : _) → IfOk result (λ made. IfSome made (λ line. string_bytes line
        ≡ ended (call_text numbers interface.now id flow.now unanswered))) }
{
    let (Some(asked), Some(answer)) = (&flow.asked, &flow.answer) else {
        return Ok(None);
    };
    if !is_whole(asked, Kind::Request) || !is_whole(answer, Kind::Reply) {
        return Ok(None);
    }
    let joined = SliceOctets::new(asked.payload.as_slice());
    match &Request::decode(alloc, interface, &joined, asked.version, asked.order) {
        Ok(request) => line_of_reply(alloc, numbers, interface, id, request, answer),
        Err(_) => Ok(None),
    }
}

// Whether all of a message came, and it is of this kind.
fn is_whole(message: &Msg, kind: Kind) -> bool
    ensures kind { result ≡ true → message.now.kind ≡ kind }
    ensures whole { result ≡ true → message.now.more ≡ false }
    ensures size { result ≡ true → length message.now.payload ≤ 2 ^ 62 }
{
    message.kind == kind && !message.more && message.payload.len() <= MOST
}

// The line of a call, by what the Reply to its Request brought.
#[tactic(auto, using(crate::proofs::TracedLemmas::result_parts))]
fn line_of_reply(
    alloc: Global,
    numbers: NumberForm,
    interface: &Interface,
    id: Option<u32>,
    request: &Request,
    answer: &Msg,
) -> Result<Option<String>, AllocError>
    requires { length answer.now.payload ≤ 2 ^ 62 }
    ensures { (flow unanswered : _) → flow.answer ≡ Some answer.now
        → IfOk result (λ made. IfSome made (λ line. string_bytes line
        ≡ reply_line numbers interface.now id flow unanswered request.now answer.now)) }
{
    let joined = SliceOctets::new(answer.payload.as_slice());
    let (version, order) = (answer.version, answer.order);
    match &Reply::decode(alloc, interface, Some(request), &joined, version, order) {
        Ok(reply) => match &reply.body {
            ReplyBody::NoException(outs) => {
                let line = result_line(alloc, numbers, interface, id, request, outs.as_slice())?;
                Ok(Some(line))
            }
            _ => Ok(None),
        },
        Err(_) => Ok(None),
    }
}

// The line of a call that brought these outs.
fn result_line(
    alloc: Global,
    numbers: NumberForm,
    interface: &Interface,
    id: Option<u32>,
    request: &Request,
    outs: &[Value],
) -> Result<String, AllocError>
    ensures { IfOk result (λ line. string_bytes line ≡ ended (result_text numbers interface.now id
        request.now (map value_view outs.now))) }
{
    let mut line = String::with_capacity(alloc, 128)?;
    append_id(&mut line, id)?;
    append_result(alloc, numbers, interface, request, outs, &mut line)?;
    line.push_str("\n")?;
    Ok(line)
}

// Appends what was asked, and what it brought.
fn append_result(
    alloc: Global,
    numbers: NumberForm,
    interface: &Interface,
    request: &Request,
    outs: &[Value],
    line: &mut String,
) -> Result<(), AllocError>
    ensures { OnOk result (string_bytes line.new ≡ string_bytes line.old
        ++ request_result numbers interface.now request.now (map value_view outs.now)) }
{
    line.push_str(" Asked ")?;
    append_target(line, &request.head.target)?;
    line.push_str(" ")?;
    append_escaped(line, request.head.operation.as_slice())?;
    let ins = request.body.as_slice();
    match request.head.operation_asked(interface) {
        Some(operation) => {
            let (of_ins, of_outs) = (operation.ins.as_slice(), operation.outs.as_slice());
            append_both(alloc, numbers, of_ins, ins, of_outs, outs, line)
        }
        None => append_both(alloc, numbers, &[], ins, &[], outs, line),
    }
}

// Appends the ins of a call and its outs, each list by its parameters.
fn append_both(
    alloc: Global,
    numbers: NumberForm,
    of_ins: &[Parameter],
    ins: &[Value],
    of_outs: &[Parameter],
    outs: &[Value],
    line: &mut String,
) -> Result<(), AllocError>
    ensures { OnOk result (string_bytes line.new ≡ string_bytes line.old ++ (codes " "
        ++ both_lists numbers of_ins.now (map value_view ins.now) of_outs.now
        (map value_view outs.now))) }
{
    line.push_str(" ")?;
    append_values(line, alloc, numbers, of_ins, ins)?;
    line.push_str(" Done 0 ")?;
    append_values(line, alloc, numbers, of_outs, outs)
}
