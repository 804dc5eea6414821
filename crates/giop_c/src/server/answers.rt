//! What the program of a server answers to a Request: its outs or the members of an exception, in a
//! form of values, an exception of the broker, or where its object is.
ghost use Rattle.std.specs.Prelude.{◌≡◌, ◌≤◌, ◌^◌, length};
ghost use Rattle.std_alloc.specs.Arc.{arc_value};
ghost use Rattle.giop_msg.specs.declared.messages.reply_body.ReplyBody.TheVariants.{UserException};
ghost use Rattle.giop_msg.specs.Messages.Reply.{exception_of, listed, outs_for};
ghost use Rattle.giop_end.specs.Acts.Form.{IsForm};
ghost use Rattle.giop_table.specs.CallTable.{entry_at};
ghost use Rattle.giop_c.specs.Acts.{IsReadAs, values_in};
ghost use Rattle.giop_c.specs.Server.Answers.{AnswersForward, AnswersOuts, AnswersSystem, AnswersUser, Replies, RepliesOrNot, forward_to};
ghost use Rattle.giop_c.specs.Server.Entries.{request_of};

use crate::act_fault::{ActFault, of_end};
use crate::parameters::members_of;
use crate::server::entries::{request_of, version_asked};
use crate::server::served::Served;
use crate::value_form::ValueForm;
use crate::values::read_values;
use giop_cdr::OctetList;
use giop_end::{Form, SessionFault};
use giop_ior::{Ior, ior_from_text};
use giop_msg::{Completion, Reply, ReplyBody, ServiceContexts, outs_for};
use giop_types::ValueList;
use std::alloc::Global;

impl Served {
    /// Answers a Request by its outs, as octets in a form of values.
    pub fn answer_outs(
        &mut self,
        alloc: Global,
        id: u32,
        value_form: ValueForm,
        octets: &[u8],
        form: Form,
    ) -> Result<(), ActFault>
        requires { length octets.now ≤ 2 ^ 62 }
        ensures { AnswersOuts id value_form octets.now form self.old result self.new }
    {
        if !form.is_valid() {
            return Err(ActFault::Form);
        }
        match self.outs(alloc, id, value_form, octets) {
            Ok(outs) => of_end(self.reply(alloc, id, ReplyBody::NoException(outs), form)),
            Err(why) => Err(why),
        }
    }

    /// Answers a Request by an exception of the interface: its id, and its members as octets in a
    /// form of values.
    pub fn answer_user(
        &mut self,
        alloc: Global,
        id: u32,
        exception: &[u8],
        value_form: ValueForm,
        octets: &[u8],
        form: Form,
    ) -> Result<(), ActFault>
        requires { length octets.now ≤ 2 ^ 62 }
        ensures { AnswersUser id exception.now value_form octets.now form self.old result
            self.new }
    {
        if !form.is_valid() {
            return Err(ActFault::Form);
        }
        let parameters = members_of(&self.interface, exception);
        match read_values(alloc, parameters, value_form, octets) {
            Ok(members) => self.reply_user(alloc, id, exception, members, form),
            Err(why) => Err(why),
        }
    }

    /// Answers a Request by an exception of the broker: its id, the vendor's minor code, and whether
    /// the operation was completed.
    pub fn answer_system(
        &mut self,
        alloc: Global,
        id: u32,
        exception: &[u8],
        minor: u32,
        completion: Completion,
        form: Form,
    ) -> Result<(), ActFault>
        ensures { AnswersSystem id exception.now minor completion form self.old result self.new }
    {
        if !form.is_valid() {
            return Err(ActFault::Form);
        }
        let Ok(exception) = OctetList::from_slice(alloc, exception) else {
            return Err(ActFault::End(SessionFault::NoMemory));
        };
        let body = ReplyBody::SystemException {
            id: exception,
            minor,
            completion,
        };
        of_end(self.reply(alloc, id, body, form))
    }

    /// Answers a Request by where its object is, for this request or from now on: a reference, as
    /// its text.
    pub fn answer_forward(
        &mut self,
        alloc: Global,
        id: u32,
        text: &[u8],
        permanent: bool,
        form: Form,
    ) -> Result<(), ActFault>
        ensures { AnswersForward id text.now permanent form self.old result self.new }
    {
        if !form.is_valid() {
            return Err(ActFault::Form);
        }
        match ior_from_text(alloc, text) {
            Ok(ior) => of_end(self.reply(alloc, id, forward_to(permanent, ior), form)),
            Err(why) => Err(ActFault::Reference(why)),
        }
    }

    // The outs of the Request under an id that octets are; none, where no Request is known.
    fn outs(
        &self,
        alloc: Global,
        id: u32,
        value_form: ValueForm,
        octets: &[u8],
    ) -> Result<ValueList, ActFault>
        requires { length octets.now ≤ 2 ^ 62 }
        ensures { IsReadAs (values_in (outs_for (arc_value self.now.interface)
            (request_of (entry_at self.now.end.calls id))) value_form octets.now) result }
    {
        let parameters = outs_for(&self.interface, request_of(self.end.entry(id)));
        read_values(alloc, parameters, value_form, octets)
    }

    // Answers the call of an id by an exception of this id and these members.
    fn reply_user(
        &mut self,
        alloc: Global,
        id: u32,
        exception: &[u8],
        members: ValueList,
        form: Form,
    ) -> Result<(), ActFault>
        requires { IsForm form }
        ensures { RepliesOrNot id (UserException exception.now members) form self.old result
            self.new }
    {
        let Ok(exception) = OctetList::from_slice(alloc, exception) else {
            return Err(ActFault::End(SessionFault::NoMemory));
        };
        let body = ReplyBody::UserException {
            id: exception,
            members,
        };
        of_end(self.reply(alloc, id, body, form))
    }

    // Answers the call of an id in its version, without contexts.
    fn reply(
        &mut self,
        alloc: Global,
        id: u32,
        body: ReplyBody,
        form: Form,
    ) -> Result<(), SessionFault>
        requires { IsForm form }
        ensures { Replies id body form self.old result self.new }
    {
        let reply = Reply {
            version: version_asked(self.end.entry(id)),
            id,
            contexts: ServiceContexts::new(alloc),
            body,
        };
        self.end.answer(&self.interface, reply, form)
    }
}

// What a Reply brings that forwards, for this request or from now on.
fn forward_to(permanent: bool, ior: Ior) -> ReplyBody
    ensures { result ≡ forward_to permanent ior }
{
    if permanent {
        ReplyBody::ForwardPerm(ior)
    } else {
        ReplyBody::Forward(ior)
    }
}
