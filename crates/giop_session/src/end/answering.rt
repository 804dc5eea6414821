//! What a server's own program answers: a Reply or a LocateReply (CORBA 3.3 Part 2, 9.4.3 and
//! 9.4.6). Its meaning is `IsAnswer` and `IsLocateAnswer` in specs/Acts/ServerAnswers.antt: change both.
ghost use Rattle.std.specs.Prelude.{◌≡◌, ◌<◌, ◌^◌, [], ◌∷◌, true, Some, None, Err, length, is_ok, IfErr, IfOk, IfSome, IsOk, option_copied};
ghost use Rattle.std.specs.FinMap as finite;
ghost use Rattle.std.specs.Option.{option_map};
ghost use Rattle.giop_msg.specs.declared.kind.Kind.TheVariants as message;
ghost use Rattle.giop_msg.specs.Cut.{IsCut};
ghost use Rattle.giop_msg.specs.Messages.Reply as replies;
ghost use Rattle.giop_calls.specs.ServerTable as table;
ghost use Rattle.giop_calls.specs.declared.server.event.ServerEvent.TheVariants as event;
ghost use Rattle.giop_calls.specs.Outcomes.{copied};
ghost use Rattle.giop_session.specs.declared.calls.plan.Plan.TheVariants.{Next, Put};
ghost use Rattle.giop_session.specs.declared.session_fault.SessionFault.TheVariants.{NoMemory};
ghost use Rattle.giop_session.specs.Calls.CallTable.{rules_of};
ghost use Rattle.giop_session.specs.Acts.Form.{IsForm};
ghost use Rattle.giop_session.specs.Hearing.Heard.{in_call};
ghost use Rattle.giop_session.specs.Acts.Putting.{Puts};
ghost use Rattle.giop_session.specs.Calls.Refused.{IsRefusal, unfit_unless};
ghost use Rattle.giop_session.specs.Calls.Sending.{entry_of};
ghost use Rattle.giop_session.specs.Acts.Sent.{InRange};
ghost use Rattle.giop_session.specs.Acts.ServerAnswers.{answer_fault, IsAnswer, IsFitAnswer, IsLocateAnswer, is_locate, is_reply_sendable, locate_in, locate_of, located, question_in, question_of, reply_octets, unasked_fault};

use crate::acts::form::Form;
use crate::acts::local::{done, sent};
use crate::acts::messages::Messages;
use crate::acts::putting::put;
use crate::acts::sendable::one_message;
use crate::calls::plan::{Plan, Planned};
use crate::end::ServerEnd;
use crate::hearing::heard::kept;
use crate::session_fault::SessionFault;
use giop_calls::{Aside, CallFault, CallKind, Outcome, ServerEntry, ServerEvent};
use giop_cdr::{OctetList, Order};
use giop_msg::{Kind, LocateReply, LocateReplyHead, Reply, Request, Version};

impl<'a> ServerEnd<'a> {
    /// Answers a Request: the Reply is sent in a form (9.4.3), of which the first piece is put out
    /// now, and `send` puts out each of the others. A Request that couldn't be decoded is answered
    /// by a system exception alone.
    ///
    /// A failed end returns its fault. Else the first of these that holds is returned:
    ///
    /// - `NotOpen`, where no Request of this id waits for a Reply, or `WrongKind`, where a
    ///   LocateRequest does.
    /// - `Unfit`, where the Reply has another version than its Request, or no octets spell it as a
    ///   reply to this Request.
    /// - `NoMemory`, where it is out of memory to write these octets.
    /// - `Unfit`, where they are more than the limit `gathered`, or a message of them is larger
    ///   than the limit `message`.
    /// - `NoMemory`, where it is out of memory.
    ///
    /// A refusal changes nothing.
    #[tactic(auto, using(crate::proofs::OnActs::LocalLemmas::refused_puts, crate::proofs::OnActs::LocalLemmas::answer_puts, crate::proofs::OnActs::LastLemmas::unasked_answer, crate::proofs::OnActs::LastLemmas::fit_answer))]
    pub fn answer(&mut self, reply: Reply, form: Form) -> Result<(), SessionFault>
        requires { IsForm form }
        ensures failed { (why : _) → self.old.fault ≡ Some why
            → (result ≡ Err why) × (self.new ≡ self.old) }
        ensures last { result ≡ Err NoMemory → self.old.fault ≡ None
            → IsFitAnswer self.old.interface.now
            (question_of (entry_of (finite.get self.old.calls.table reply.id))) reply }
        ensures answered { self.old.fault ≡ None
            → Puts (rules_of table.server_step table.is_closed table.is_gathering) in_call reply.id
            (answer_fault self.old.interface.now self.old.limits
            (question_of (entry_of (finite.get self.old.calls.table reply.id))) reply form)
            (IsAnswer self.old.interface.now
            (question_of (entry_of (finite.get self.old.calls.table reply.id))) reply form)
            self.old.calls self.old.outgoing result self.new.calls self.new.outgoing }
        ensures others { self.new ≡ record self.old {
          calls = self.new.calls;
          outgoing = self.new.outgoing;
        } }
    {
        if let Some(fault) = self.fault {
            return Err(fault);
        }
        let id = reply.id;
        let Some(question) = self.question(id) else {
            let fault = self.unasked_fault(id);
            return Err(SessionFault::Call { id, fault });
        };
        let messages = self.pieces_of_reply(question, &reply, form)?;
        self.put_reply(reply, messages)
    }

    /// Answers a LocateRequest in its version: that the object is here, or that it isn't known
    /// (9.4.6). A LocateRequest that couldn't be decoded has no object that could be here.
    ///
    /// A failed end returns its fault. Else the first of these that holds is returned:
    ///
    /// - `NotOpen`, where no LocateRequest of this id waits for a LocateReply, or `WrongKind`,
    ///   where a Request does.
    /// - `Unfit`, where the object of one that couldn't be decoded is said to be here.
    /// - `NoMemory`, where it is out of memory.
    ///
    /// A refusal changes nothing.
    #[tactic(auto, using(crate::proofs::OnLimits::QuietLemmas::answer_locate_quiet, crate::proofs::OnActs::LastLemmas::locate_accepted, crate::proofs::OnActs::LastLemmas::wanted_accepted))]
    pub fn answer_locate(&mut self, id: u32, here: bool, order: Order) -> Result<(), SessionFault>
        ensures failed { (why : _) → self.old.fault ≡ Some why
            → (result ≡ Err why) × (self.new ≡ self.old) }
        ensures last { result ≡ Err NoMemory → self.old.fault ≡ None
            → IsOk (table.server_step (entry_of (finite.get self.old.calls.table id))
            (event.AnswerLocate here)).outcome }
        ensures answered { self.old.fault ≡ None
            → Puts (rules_of table.server_step table.is_closed table.is_gathering) in_call id None
            (IsLocateAnswer id here order
            (locate_of here (entry_of (finite.get self.old.calls.table id))))
            self.old.calls self.old.outgoing result self.new.calls self.new.outgoing }
        ensures others { self.new ≡ record self.old {
          calls = self.new.calls;
          outgoing = self.new.outgoing;
        } }
    {
        if let Some(fault) = self.fault {
            return Err(fault);
        }
        let event = ServerEvent::AnswerLocate { here };
        let planned = match self.locate_version(id, here) {
            Some(version) => {
                let Some(messages) = self.located(version, order, id, here) else {
                    return Err(SessionFault::NoMemory);
                };
                Planned {
                    event,
                    plan: Plan::Put(messages),
                }
            }
            None => kept(event),
        };
        done(id, put(&mut self.calls, &mut self.outgoing, id, planned))
    }

    /// Puts out the next piece of a Reply.
    ///
    /// A failed end returns its fault. An id of which no piece is left is refused as
    /// `NothingToSend`. Else `NoMemory` is returned where it is out of memory. A refusal changes
    /// nothing.
    #[tactic(auto, using(crate::proofs::OnLimits::QuietLemmas::server_send_quiet, crate::proofs::OnActs::LastLemmas::server_sends_none))]
    pub fn send(&mut self, id: u32) -> Result<(), SessionFault>
        ensures failed { (why : _) → self.old.fault ≡ Some why
            → (result ≡ Err why) × (self.new ≡ self.old) }
        ensures last { result ≡ Err NoMemory → self.old.fault ≡ None
            → IsOk (table.server_step (entry_of (finite.get self.old.calls.table id))
            event.Send).outcome }
        ensures sent { self.old.fault ≡ None
            → Puts (rules_of table.server_step table.is_closed table.is_gathering) in_call id None
            (λ planned. planned ≡ record { event = event.Send; plan = Next })
            self.old.calls self.old.outgoing result self.new.calls self.new.outgoing }
        ensures others { self.new ≡ record self.old {
          calls = self.new.calls;
          outgoing = self.new.outgoing;
        } }
    {
        if let Some(fault) = self.fault {
            return Err(fault);
        }
        if !self.has_piece(id) {
            let fault = CallFault::NothingToSend;
            return Err(SessionFault::Call { id, fault });
        }
        let planned = Planned {
            event: ServerEvent::Send,
            plan: Plan::Next,
        };
        done(id, put(&mut self.calls, &mut self.outgoing, id, planned))
    }

    /// What the call of an id came to; `None` where nothing is stored for the id. It takes no
    /// memory.
    pub fn outcome(&self, id: u32) -> Option<Outcome<&Reply>>
        ensures { option_map copied result ≡ option_map table.outcome
            (entry_of (finite.get self.now.calls.table id)) }
    {
        match self.calls.slot(id) {
            Some(slot) => Some(slot.entry.outcome()),
            None => None,
        }
    }

    // The call is answered by a Reply in these messages.
    #[tactic(auto, using(crate::proofs::OnLimits::QuietLemmas::answer_quiet, crate::proofs::OnActs::LocalLemmas::wanted_puts))]
    #[inline(always)]
    fn put_reply(&mut self, reply: Reply, messages: Messages) -> Result<(), SessionFault>
        requires { length messages < 2 ^ 32 }
        ensures puts { Puts (rules_of table.server_step table.is_closed table.is_gathering) in_call
            reply.id None
            (λ planned. planned ≡ record {
              event = event.Answer reply (length messages);
              plan = Put messages;
            })
            self.old.calls self.old.outgoing result self.new.calls self.new.outgoing }
        ensures others { self.new ≡ record self.old {
          calls = self.new.calls;
          outgoing = self.new.outgoing;
        } }
    {
        let id = reply.id;
        let Ok(reply) = Aside::new(self.alloc, reply) else {
            return Err(SessionFault::NoMemory);
        };
        let pieces = messages.len() as u32;
        let planned = Planned {
            event: ServerEvent::Answer { reply, pieces },
            plan: Plan::Put(messages),
        };
        done(id, put(&mut self.calls, &mut self.outgoing, id, planned))
    }

    // Whether a piece of the Reply of an id is left to be sent.
    #[tactic(auto, using(crate::proofs::OnActs::LastLemmas::server_has_piece))]
    fn has_piece(&self, id: u32) -> bool
        ensures { result ≡ is_ok (table.server_step
            (entry_of (finite.get self.now.calls.table id)) event.Send).outcome }
    {
        match self.calls.slot(id) {
            Some(slot) => slot.entry.left() != 0,
            None => false,
        }
    }

    // Why no Reply is sent under an id, where no Request waits for one.
    fn unasked_fault(&self, id: u32) -> CallFault
        ensures { result ≡ unasked_fault (entry_of (finite.get self.now.calls.table id)) }
    {
        match self.calls.slot(id) {
            Some(slot) if is_locate(&slot.entry) => CallFault::WrongKind,
            _ => CallFault::NotOpen,
        }
    }

    // The Request of an id that waits for a Reply, where one does: `Some(None)` is one that
    // couldn't be decoded.
    #[inline(always)]
    fn question(&self, id: u32) -> Option<Option<&Request>>
        ensures { option_map option_copied result
            ≡ question_of (entry_of (finite.get self.now.calls.table id)) }
    {
        question_in(&self.calls.slot(id)?.entry)
    }

    // The messages that a Reply to a Request is sent in.
    #[tactic(auto, using(crate::proofs::OnActs::LocalLemmas::refused_unsent, crate::proofs::OnActs::LastLemmas::wanted_fits))]
    #[inline(always)]
    fn pieces_of_reply(
        &self,
        question: Option<&Request>,
        reply: &Reply,
        form: Form,
    ) -> Result<Messages, SessionFault>
        requires { IsForm form }
        ensures ok { IfOk result (λ messages. unfit_unless
            (is_reply_sendable self.now.interface.now self.now.limits
            (option_copied question.entry) reply.now form) ≡ None) }
        ensures cut { IfOk result (λ messages. IsCut reply.now.version message.Reply form.order
            (reply_octets self.now.interface.now (option_copied question.entry) reply.now
            form.order) form.piece messages) }
        ensures held { IfOk result (λ messages. InRange (replies.reply self.now.interface.now
            (option_copied question.entry) reply.now.version) reply.now form) }
        ensures few { IfOk result (λ messages. length messages < 2 ^ 32) }
        ensures want { result ≡ Err NoMemory → (replies.reply self.now.interface.now
            (option_copied question.entry) reply.now.version).fits reply.now ≡ true }
        ensures err { IfErr result (IsRefusal reply.now.id (unfit_unless
            (is_reply_sendable self.now.interface.now self.now.limits
            (option_copied question.entry) reply.now form))) }
    {
        let encoded = reply.encode(self.alloc, self.interface, question, form.order);
        let (alloc, limits, version) = (self.alloc, self.limits, reply.version);
        sent(alloc, limits, version, Kind::Reply, form, reply.id, encoded)
    }

    // The version of the LocateRequest of an id that waits for this LocateReply, where one does.
    fn locate_version(&self, id: u32, here: bool) -> Option<Version>
        ensures { result ≡ locate_of here (entry_of (finite.get self.now.calls.table id)) }
    {
        locate_in(here, &self.calls.slot(id)?.entry)
    }

    // The LocateReply to a LocateRequest. `None` where it is out of memory.
    #[tactic(auto, using(crate::proofs::OnActs::LocatedLemmas::located_short))]
    fn located(&self, version: Version, order: Order, id: u32, here: bool) -> Option<Messages>
        ensures { IfSome result (λ messages. messages ≡ located version order id here ∷ []) }
    {
        let reply = LocateReply {
            head: LocateReplyHead {
                version,
                id,
                status: here as u32,
            },
            rest: OctetList::new(self.alloc),
        };
        let Ok(joined) = reply.encode(self.alloc, order) else {
            return None;
        };
        let payload = OctetList::from(joined);
        Some(one_message(self.alloc, version, Kind::LocateReply, order, payload))
    }
}

// The Request of an entry that waits for a Reply, where one does: `Some(None)` is one that couldn't
// be decoded.
fn question_in(entry: &ServerEntry) -> Option<Option<&Request>>
    ensures { option_map option_copied result ≡ question_in entry.now }
{
    match entry {
        ServerEntry::Asked { request } => Some(Some(request)),
        ServerEntry::Undecoded { call } if call.expects == Some(CallKind::Request) => Some(None),
        _ => None,
    }
}

// Whether a LocateRequest waits for its answer.
fn is_locate(entry: &ServerEntry) -> bool
    ensures { result ≡ is_locate entry.now }
{
    match entry {
        ServerEntry::LocateAsked { .. } => true,
        ServerEntry::Undecoded { call } => call.expects == Some(CallKind::Locate),
        _ => false,
    }
}

// The version of the LocateRequest of an entry that waits for this LocateReply, where one does. To
// one that couldn't be decoded, the object is never here.
fn locate_in(here: bool, entry: &ServerEntry) -> Option<Version>
    ensures { result ≡ locate_in here entry.now }
{
    match entry {
        ServerEntry::LocateAsked { request } => Some(request.version),
        ServerEntry::Undecoded { call } => match call.expects {
            Some(CallKind::Locate) if !here => Some(call.version),
            _ => None,
        },
        _ => None,
    }
}
