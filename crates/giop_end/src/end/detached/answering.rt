//! What a server's end that is apart from its interface answers to what its own program says. What
//! its parts undergo is acts/answering.rt.
ghost use Rattle.std.specs.Prelude.{◌≡◌, Some, None, Err, IsOk};
ghost use Rattle.giop_calls.specs.ServerTable as table;
ghost use Rattle.giop_calls.specs.declared.server.event.ServerEvent.TheVariants as event;
ghost use Rattle.giop_end.specs.declared.session_fault.SessionFault.TheVariants.{NoMemory};
ghost use Rattle.giop_table.specs.CallTable.{entry_at};
ghost use Rattle.giop_end.specs.Acts.Form.{IsForm};
ghost use Rattle.giop_end.specs.Acts.ServerAnswers.{IsFitAnswer, PutsAnswer, PutsLocateAnswer, question_of};
ghost use Rattle.giop_end.specs.Ends.Detached.{IsActedOn};

use crate::acts::answering::answer;
use crate::acts::form::Form;
use crate::acts::locating::answer_locate;
use crate::end::Detached;
use crate::session_fault::SessionFault;
use giop_calls::ServerRule;
use giop_cdr::Order;
use giop_msg::Reply;
use giop_types::Interface;

impl Detached<ServerRule> {
    /// Answers a Request, as `End::answer` of the end over this interface.
    pub fn answer(
        &mut self,
        interface: &Interface,
        reply: Reply,
        form: Form,
    ) -> Result<(), SessionFault>
        requires { IsForm form }
        ensures failed { (why : _) → self.old.fault ≡ Some why
            → (result ≡ Err why) × (self.new ≡ self.old) }
        ensures last { result ≡ Err NoMemory → self.old.fault ≡ None
            → IsFitAnswer interface.now (question_of (entry_at self.old.calls reply.id)) reply }
        ensures answered { self.old.fault ≡ None → PutsAnswer interface.now self.old.limits reply
            form self.old.calls self.old.outgoing result self.new.calls self.new.outgoing }
        ensures others { IsActedOn self.old self.new }
    {
        if let Some(fault) = self.fault {
            return Err(fault);
        }
        answer(
            self.alloc,
            interface,
            self.limits,
            &mut self.calls,
            &mut self.outgoing,
            reply,
            form,
        )
    }

    /// Answers a LocateRequest, as `End::answer_locate`.
    pub fn answer_locate(&mut self, id: u32, here: bool, order: Order) -> Result<(), SessionFault>
        ensures failed { (why : _) → self.old.fault ≡ Some why
            → (result ≡ Err why) × (self.new ≡ self.old) }
        ensures last { result ≡ Err NoMemory → self.old.fault ≡ None → IsOk (table.server_step
            (entry_at self.old.calls id) (event.AnswerLocate here)).outcome }
        ensures answered { self.old.fault ≡ None → PutsLocateAnswer id here order self.old.calls
            self.old.outgoing result self.new.calls self.new.outgoing }
        ensures others { IsActedOn self.old self.new }
    {
        if let Some(fault) = self.fault {
            return Err(fault);
        }
        answer_locate(
            self.alloc,
            &mut self.calls,
            &mut self.outgoing,
            id,
            here,
            order,
        )
    }
}
