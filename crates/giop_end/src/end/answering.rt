//! What a server's end answers to what its own program says: a Reply or a LocateReply (CORBA 3.3
//! Part 2, 9.4.3 and 9.4.6). What an end's parts undergo is acts/answering.rt.
ghost use Rattle.std.specs.Prelude.{◌≡◌, Some, None, Err, IsOk};
ghost use Rattle.std.specs.Option.{option_map};
ghost use Rattle.giop_calls.specs.ServerTable as table;
ghost use Rattle.giop_calls.specs.declared.server.event.ServerEvent.TheVariants as event;
ghost use Rattle.giop_calls.specs.Outcomes.{copied};
ghost use Rattle.giop_end.specs.declared.session_fault.SessionFault.TheVariants.{NoMemory};
ghost use Rattle.giop_table.specs.CallTable.{entry_at};
ghost use Rattle.giop_end.specs.Acts.Form.{IsForm};
ghost use Rattle.giop_end.specs.Acts.ServerAnswers.{IsFitAnswer, PutsAnswer, PutsLocateAnswer, question_of};
ghost use Rattle.giop_end.specs.Ends.View.{IsActedOn};

use crate::acts::answering::answer;
use crate::acts::form::Form;
use crate::acts::locating::answer_locate;
use crate::end::ServerEnd;
use crate::session_fault::SessionFault;
use giop_calls::Outcome;
use giop_cdr::Order;
use giop_msg::Reply;

impl<'a> ServerEnd<'a> {
    /// Answers a Request: the Reply is sent in a form (9.4.3), of which the first piece is put out
    /// now, and `send` puts out each of the others. A Request that couldn't be decoded is answered
    /// by a system exception alone.
    ///
    /// A failed end returns its fault. Else the first of these that holds is returned:
    ///
    /// - `NotOpen`, where no Request of this id waits for a Reply, or `WrongKind`, where a
    ///   LocateRequest does.
    /// - `Unfit`, where the Reply has another version than its Request, or no octets spell it as a
    ///   reply to this Request.
    /// - `NoMemory`, where it is out of memory to write these octets.
    /// - `Unfit`, where they are more than the limit `gathered`, or a message of them is larger
    ///   than the limit `message`.
    /// - `NoMemory`, where it is out of memory.
    ///
    /// A refusal changes nothing.
    pub fn answer(&mut self, reply: Reply, form: Form) -> Result<(), SessionFault>
        requires { IsForm form }
        ensures failed { (why : _) → self.old.fault ≡ Some why
            → (result ≡ Err why) × (self.new ≡ self.old) }
        ensures last { result ≡ Err NoMemory → self.old.fault ≡ None → IsFitAnswer
            self.old.interface.now (question_of (entry_at self.old.calls reply.id)) reply }
        ensures answered { self.old.fault ≡ None → PutsAnswer self.old.interface.now self.old.limits
            reply form self.old.calls self.old.outgoing result self.new.calls self.new.outgoing }
        ensures others { IsActedOn self.old self.new }
    {
        if let Some(fault) = self.fault {
            return Err(fault);
        }
        answer(
            self.alloc,
            self.interface,
            self.limits,
            &mut self.calls,
            &mut self.outgoing,
            reply,
            form,
        )
    }

    /// Answers a LocateRequest in its version: that the object is here, or that it isn't known
    /// (9.4.6). A LocateRequest that couldn't be decoded has no object that could be here.
    ///
    /// A failed end returns its fault. Else the first of these that holds is returned:
    ///
    /// - `NotOpen`, where no LocateRequest of this id waits for a LocateReply, or `WrongKind`,
    ///   where a Request does.
    /// - `Unfit`, where the object of one that couldn't be decoded is said to be here.
    /// - `NoMemory`, where it is out of memory.
    ///
    /// A refusal changes nothing.
    pub fn answer_locate(&mut self, id: u32, here: bool, order: Order) -> Result<(), SessionFault>
        ensures failed { (why : _) → self.old.fault ≡ Some why
            → (result ≡ Err why) × (self.new ≡ self.old) }
        ensures last { result ≡ Err NoMemory → self.old.fault ≡ None → IsOk (table.server_step
            (entry_at self.old.calls id) (event.AnswerLocate here)).outcome }
        ensures answered { self.old.fault ≡ None → PutsLocateAnswer id here order self.old.calls
            self.old.outgoing result self.new.calls self.new.outgoing }
        ensures others { IsActedOn self.old self.new }
    {
        if let Some(fault) = self.fault {
            return Err(fault);
        }
        answer_locate(
            self.alloc,
            &mut self.calls,
            &mut self.outgoing,
            id,
            here,
            order,
        )
    }

    /// What the call of an id came to; `None` where nothing is stored for the id. It takes no
    /// memory.
    pub fn outcome(&self, id: u32) -> Option<Outcome<&Reply>>
        ensures { option_map copied result ≡ option_map table.outcome (entry_at self.now.calls id) }
    {
        match self.calls.slot(id) {
            Some(slot) => Some(slot.entry.outcome()),
            None => None,
        }
    }
}
