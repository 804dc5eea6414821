//! What a server's own program answers to a Request: a Reply (CORBA 3.3 Part 2, 9.4.3), as acts on
//! the parts of an end that hasn't failed. Its meaning is `IsAnswer` in
//! specs/Acts/ServerAnswers.antt: change both.
ghost use Rattle.std.specs.Prelude.{◌≡◌, ◌<◌, ◌^◌, true, None, Err, length, IfErr, IfOk, option_copied};
ghost use Rattle.std.specs.Option.{option_map};
ghost use Rattle.giop_msg.specs.declared.kind.Kind.TheVariants as message;
ghost use Rattle.giop_msg.specs.Cut.{IsCut};
ghost use Rattle.giop_msg.specs.Messages.Reply as replies;
ghost use Rattle.giop_calls.specs.declared.server.event.ServerEvent.TheVariants as event;
ghost use Rattle.giop_table.specs.declared.plan.Plan.TheVariants.{Put};
ghost use Rattle.giop_end.specs.declared.session_fault.SessionFault.TheVariants.{NoMemory};
ghost use Rattle.giop_table.specs.CallTable.{entry_at};
ghost use Rattle.giop_end.specs.Acts.Form.{IsForm};
ghost use Rattle.giop_end.specs.Acts.Refused.{IsRefusal, unfit_unless};
ghost use Rattle.giop_end.specs.Acts.Sent.{InRange};
ghost use Rattle.giop_end.specs.Acts.ServerAnswers.{is_locate, is_reply_sendable, IsFitAnswer, PutsAnswer, question_in, question_of, reply_octets, ServerPuts, unasked_fault};

use crate::acts::form::Form;
use crate::acts::local::{act_result, messages_to_send};
use crate::acts::outgoing::Outgoing;
use crate::acts::putting::put;
use crate::limits::Limits;
use crate::session_fault::SessionFault;
use giop_calls::{Aside, CallFault, CallKind, ServerEntry, ServerEvent, ServerRule};
use giop_msg::{Kind, Reply, Request};
use giop_table::{CallTable, Messages, Plan, Planned};
use giop_types::Interface;
use std::alloc::Global;

/// Answers a Request at an end that hasn't failed, of which these are parts, as `End::answer`.
#[tactic(auto, using(crate::proofs::OnActs::LocalLemmas::refused_puts, crate::proofs::OnActs::LocalLemmas::answer_puts, crate::proofs::OnActs::LastLemmas::unasked_answer, crate::proofs::OnActs::LastLemmas::fit_answer))]
pub fn answer(
    alloc: Global,
    interface: &Interface,
    limits: Limits,
    calls: &mut CallTable<ServerRule>,
    outgoing: &mut Outgoing,
    reply: Reply,
    form: Form,
) -> Result<(), SessionFault>
    requires { IsForm form }
    ensures last { result ≡ Err NoMemory
        → IsFitAnswer interface.now (question_of (entry_at calls.old reply.id)) reply }
    ensures answered { PutsAnswer interface.now limits reply form calls.old outgoing.old result
        calls.new outgoing.new }
{
    let id = reply.id;
    let Some(question) = question(calls, id) else {
        let fault = unasked_fault(calls, id);
        return Err(SessionFault::Call { id, fault });
    };
    let messages = pieces_of_reply(alloc, interface, limits, question, &reply, form)?;
    put_reply(alloc, calls, outgoing, reply, messages)
}

// The call is answered by a Reply in these messages.
#[tactic(auto, using(crate::proofs::OnActs::ActedLemmas::acted, crate::proofs::OnActs::QuietLemmas::answer_quiet, crate::proofs::OnActs::LocalLemmas::wanted_puts))]
#[inline(always)]
fn put_reply(
    alloc: Global,
    calls: &mut CallTable<ServerRule>,
    outgoing: &mut Outgoing,
    reply: Reply,
    messages: Messages,
) -> Result<(), SessionFault>
    requires { length messages < 2 ^ 32 }
    ensures { ServerPuts reply.id None (λ planned. planned ≡ record {
      event = event.Answer reply (length messages);
      plan = Put messages;
    })
        calls.old outgoing.old result calls.new outgoing.new }
{
    let id = reply.id;
    let Ok(reply) = Aside::new(alloc, reply) else {
        return Err(SessionFault::NoMemory);
    };
    let pieces = messages.len() as u32;
    let planned = Planned {
        event: ServerEvent::Answer { reply, pieces },
        plan: Plan::Put(messages),
    };
    act_result(id, put(calls, outgoing, id, planned))
}

// Why no Reply is sent under an id, where no Request waits for one.
fn unasked_fault(calls: &CallTable<ServerRule>, id: u32) -> CallFault
    ensures { result ≡ unasked_fault (entry_at calls.now id) }
{
    match calls.slot(id) {
        Some(slot) if is_locate(&slot.entry) => CallFault::WrongKind,
        _ => CallFault::NotOpen,
    }
}

// The Request of an id that waits for a Reply, where one does: `Some(None)` is one that couldn't
// be decoded.
#[inline(always)]
fn question(calls: &CallTable<ServerRule>, id: u32) -> Option<Option<&Request>>
    ensures { option_map option_copied result ≡ question_of (entry_at calls.now id) }
{
    question_in(&calls.slot(id)?.entry)
}

// The messages that a Reply to a Request is sent in.
#[tactic(auto, using(crate::proofs::OnActs::LocalLemmas::refused_unsent, crate::proofs::OnActs::LastLemmas::wanted_fits))]
#[inline(always)]
fn pieces_of_reply(
    alloc: Global,
    interface: &Interface,
    limits: Limits,
    question: Option<&Request>,
    reply: &Reply,
    form: Form,
) -> Result<Messages, SessionFault>
    requires { IsForm form }
    ensures ok { IfOk result (λ messages. unfit_unless
        (is_reply_sendable interface.now limits (option_copied question.entry) reply.now form)
        ≡ None) }
    ensures cut { IfOk result (λ messages. IsCut reply.now.version message.Reply form.order
        (reply_octets interface.now (option_copied question.entry) reply.now form.order)
        form.piece messages) }
    ensures held { IfOk result (λ messages. InRange (replies.reply interface.now
        (option_copied question.entry) reply.now.version) reply.now form) }
    ensures few { IfOk result (λ messages. length messages < 2 ^ 32) }
    ensures want { result ≡ Err NoMemory → (replies.reply interface.now
        (option_copied question.entry) reply.now.version).fits reply.now ≡ true }
    ensures err { IfErr result (IsRefusal reply.now.id (unfit_unless
        (is_reply_sendable interface.now limits (option_copied question.entry) reply.now form))) }
{
    let encoded = reply.encode(alloc, interface, question, form.order);
    let (version, id) = (reply.version, reply.id);
    messages_to_send(alloc, limits, version, Kind::Reply, form, id, encoded)
}

// The Request of an entry that waits for a Reply, where one does: `Some(None)` is one that couldn't
// be decoded.
fn question_in(entry: &ServerEntry) -> Option<Option<&Request>>
    ensures { option_map option_copied result ≡ question_in entry.now }
{
    match entry {
        ServerEntry::Asked { request } => Some(Some(request)),
        ServerEntry::Undecoded { call } if call.expects == Some(CallKind::Request) => Some(None),
        _ => None,
    }
}

// Whether a LocateRequest waits for its answer.
fn is_locate(entry: &ServerEntry) -> bool
    ensures { result ≡ is_locate entry.now }
{
    match entry {
        ServerEntry::LocateAsked { .. } => true,
        ServerEntry::Undecoded { call } => call.expects == Some(CallKind::Locate),
        _ => false,
    }
}
