//! An observer of a connection: it hears the messages of both directions, and tells which calls are
//! over. Its meaning is specs/Observing.antt: change both.
ghost use Rattle.std.specs.Prelude.{◌≡◌, ◌≤◌, ◌^◌, length, None, Ok, Some, IfOk, OnOk, option_copied, true};
ghost use Rattle.std.specs.FinMap as finite;
ghost use Rattle.giop_ids.specs.ById.{put};
ghost use Rattle.giop_msg.specs.RequestId.{request_id_of};
ghost use Rattle.giop_trace.specs.Flows.{is_answer, is_waiting};
ghost use Rattle.giop_trace.specs.Effects.{is_stray};
ghost use Rattle.giop_trace.specs.Observing.{heard, is_early, is_early_by, kept_on, left};
ghost use Rattle.giop_trace.specs.Usual.{HasNoAnswer, IsAnswered, IsAsked, with_answer};

use crate::steps::{asked_by, asks_for_reply, continues_in, has_place, is_whole, lone, step};
use crate::{Direction, Flow, Heard, Keep};
use giop_msg::{Kind, Msg};
use giop_mux::Mux;
use std::alloc::{AllocError, Global};

/// An observer of one connection: the calls that are open, and whether the client is heard alone.
///
/// Messages of both directions are given to it in the order in which they are to be read. It holds
/// the joined octets of the calls that are open, and nothing else.
#[derive(Debug, Drop)]
pub struct Observer {
    /// Whether the client alone is heard: a call is over then as soon as its request is whole.
    pub alone: bool,
    /// The calls that are open, by request id.
    pub calls: Mux<Keep>,
}

impl Observer {
    /// An observer that heard nothing. It takes no memory.
    pub fn new(alloc: Global, alone: bool) -> Observer
        ensures alone { result.alone ≡ alone }
        ensures value { result.calls.entries ≡ finite.empty }
    {
        Observer {
            alone,
            calls: Mux::new(alloc, Keep, u32::MAX),
        }
    }

    /// Hears the message that a direction brought next, and tells which calls are over by it.
    ///
    /// - A Request or a LocateRequest of the client begins a call. Where the id has a call that is
    ///   open, that one is over (`earlier`).
    /// - A Reply or a LocateReply of the server answers the call of its id. Where that has an
    ///   answer already, or there is none, it begins one that no one asked for.
    /// - A Fragment continues the message of its direction and id of which more is to come, if it
    ///   has that message's byte order.
    /// - A CancelRequest marks the call of its id; one whose request isn't whole is over.
    /// - Any other message has no place in a call, nor has a Fragment that continues none: it is
    ///   told by itself.
    ///
    /// A call is over when its answer is whole; or its request is, and no reply is expected, or the
    /// client is heard alone. A CancelRequest for an id without a call does nothing.
    ///
    /// It is refused only where it is out of memory, where joined octets would be more than 2^62,
    /// or for the 2^32nd open call. The call of the id may be lost then.
    pub fn hear(&mut self, direction: Direction, message: Msg) -> Result<Heard, AllocError>
        requires { length message.payload ≤ 2 ^ 62 }
        ensures value { IfOk result (λ told.
            told ≡ heard self.old.alone self.old.calls.entries direction message) }
        ensures ok { OnOk result (self.new.calls.entries
            ≡ left self.old.alone self.old.calls.entries direction message) }
        ensures same { OnOk result (self.new.alone ≡ self.old.alone) }
    {
        // Told where it lies: to move what is told takes as long as to hear it.
        let mut told = Heard {
            id: None,
            earlier: None,
            over: None,
        };
        self.hear_in(direction, message, &mut told)?;
        Ok(told)
    }

    // Hears a message, and tells which calls are over by it, where nothing was told.
    #[tactic(auto, using(crate::proofs::UsualLemmas::asked_told, crate::proofs::UsualLemmas::asked_left, crate::proofs::UsualLemmas::answered_told, crate::proofs::UsualLemmas::answered_left))]
    #[inline(always)]
    fn hear_in(
        &mut self,
        direction: Direction,
        message: Msg,
        told: &mut Heard,
    ) -> Result<(), AllocError>
        requires size { length message.payload ≤ 2 ^ 62 }
        requires untold { told.old ≡ record { id = None; earlier = None; over = None } }
        ensures value { OnOk result (told.new
            ≡ heard self.old.alone self.old.calls.entries direction message) }
        ensures ok { OnOk result (self.new.calls.entries
            ≡ left self.old.alone self.old.calls.entries direction message) }
        ensures same { OnOk result (self.new.alone ≡ self.old.alone) }
    {
        let Some(Ok(id)) = message.request_id() else {
            told.over = Some(lone(direction, message));
            return Ok(());
        };
        told.id = Some(id);
        if self.is_asked(id, direction, &message) {
            return self.keep(id, asked_by(message));
        }
        if self.is_answered(id, direction, &message) {
            told.over = self.answered(id, message);
            return Ok(());
        }
        self.hear_any(id, direction, message, told)
    }

    // Hears any message that names an id, where nothing but that is told.
    #[inline(never)]
    #[tactic(auto, using(crate::proofs::TableLemmas::put_back, crate::proofs::StrayLemmas::stray_effect))]
    fn hear_any(
        &mut self,
        id: u32,
        direction: Direction,
        message: Msg,
        told: &mut Heard,
    ) -> Result<(), AllocError>
        requires size { length message.payload ≤ 2 ^ 62 }
        requires named { request_id_of message ≡ Some (Ok id) }
        requires untold { told.old ≡ record { id = Some id; earlier = None; over = None } }
        ensures value { OnOk result (told.new
            ≡ heard self.old.alone self.old.calls.entries direction message) }
        ensures ok { OnOk result (self.new.calls.entries
            ≡ left self.old.alone self.old.calls.entries direction message) }
        ensures same { OnOk result (self.new.alone ≡ self.old.alone) }
    {
        if self.is_stray(id, direction, &message) {
            told.over = Some(lone(direction, message));
            return Ok(());
        }
        told.over = self.taken(id);
        if step(self.alone, direction, told, message)? {
            self.keep_on(id, told)?;
        }
        Ok(())
    }

    // Whether a message is a Request that asks for a reply, where the id has no call.
    #[inline(always)]
    fn is_asked(&self, id: u32, direction: Direction, message: &Msg) -> bool
        requires { length message.now.payload ≤ 2 ^ 62 }
        ensures { result ≡ true → IsAsked self.now.alone self.now.calls.entries id direction
            message.now }
    {
        direction == Direction::Client
            && message.kind == Kind::Request
            && !self.alone
            && asks_for_reply(message)
            && self.flow(id).is_none()
    }

    // Whether a message is a whole Reply, where the id has a call without an answer.
    #[inline(always)]
    fn is_answered(&self, id: u32, direction: Direction, message: &Msg) -> bool
        ensures { result ≡ true → IsAnswered self.now.calls.entries id direction message.now }
    {
        direction == Direction::Server
            && message.kind == Kind::Reply
            && !message.more
            && self.has_no_answer(id)
    }

    // Whether the id has a call without an answer.
    #[inline(always)]
    fn has_no_answer(&self, id: u32) -> bool
        ensures { result ≡ true → HasNoAnswer (finite.get self.now.calls.entries id) }
    {
        match self.flow(id) {
            Some(flow) => flow.answer.is_none(),
            None => false,
        }
    }

    // The call that a whole Reply ends, where that had no answer: it is taken out of the table.
    #[inline(always)]
    fn answered(&mut self, id: u32, message: Msg) -> Option<Flow>
        requires { HasNoAnswer (finite.get self.old.calls.entries id) }
        ensures value { result ≡ with_answer (finite.get self.old.calls.entries id) message }
        ensures ok { self.new.calls.entries ≡ finite.remove self.old.calls.entries id }
        ensures same { self.new.alone ≡ self.old.alone }
    {
        let mut over = self.taken(id);
        if let Some(flow) = &mut over {
            flow.answer = Some(message);
        }
        over
    }

    /// Whether a message of the server is a Reply or a LocateReply to a call whose request isn't
    /// whole yet: where the two directions are read one beside the other, the client's is to be
    /// read on before it. It takes no memory.
    pub fn is_early(&self, message: &Msg) -> bool
        requires { length message.now.payload ≤ 2 ^ 62 }
        ensures { result ≡ is_early self.now.calls.entries message.now }
    {
        match message.kind {
            Kind::Reply | Kind::LocateReply => self.is_early_answer(message),
            _ => false,
        }
    }

    /// The ids of the calls that are open, ascending.
    pub fn ids(&self, alloc: Global) -> Result<Vec<u32>, AllocError>
        ensures { IfOk result (λ ids. ids.items ≡ finite.keys self.now.calls.entries) }
    {
        self.calls.ids(alloc)
    }

    /// The call of an id that is open, if there is one. It takes no memory.
    pub fn flow(&self, id: u32) -> Option<&Flow>
        ensures { option_copied result ≡ finite.get self.now.calls.entries id }
    {
        self.calls.entry(id)
    }

    fn is_early_answer(&self, message: &Msg) -> bool
        requires { length message.now.payload ≤ 2 ^ 62 }
        ensures { result ≡ is_early_by self.now.calls.entries (request_id_of message.now) }
    {
        match message.request_id() {
            Some(Ok(id)) => !self.is_waiting(id),
            _ => false,
        }
    }

    // Whether the call of an id waits for its answer.
    fn is_waiting(&self, id: u32) -> bool
        ensures { result ≡ is_waiting (finite.get self.now.calls.entries id) }
    {
        match self.flow(id) {
            Some(flow) => is_whole(&flow.asked) && flow.answer.is_none(),
            None => false,
        }
    }

    // Whether a message has no place in the call of its id, nor begins one.
    #[inline(always)]
    fn is_stray(&self, id: u32, direction: Direction, message: &Msg) -> bool
        ensures { result ≡ is_stray direction (finite.get self.now.calls.entries id)
            message.now.kind message.now }
    {
        match message.kind {
            Kind::Fragment => !continues_in(direction, self.flow(id), message),
            kind => !has_place(direction, kind),
        }
    }

    // Takes the call of an id out of the table.
    #[inline(always)]
    fn taken(&mut self, id: u32) -> Option<Flow>
        ensures value { result ≡ finite.get self.old.calls.entries id }
        ensures ok { self.new.calls.entries ≡ finite.remove self.old.calls.entries id }
        ensures same { self.new.alone ≡ self.old.alone }
    {
        match self.calls.take(id) {
            Ok(flow) => flow,
            Err(_) => None,
        }
    }

    // Puts the call that is told to be over under its id: it goes on.
    #[inline(always)]
    fn keep_on(&mut self, id: u32, told: &mut Heard) -> Result<(), AllocError>
        ensures ok { OnOk result (self.new.calls.entries
            ≡ kept_on self.old.calls.entries id told.old.over) }
        ensures told { told.new ≡ record told.old { over = None } }
        ensures same { self.new.alone ≡ self.old.alone }
    {
        match told.over.take() {
            Some(flow) => self.keep(id, flow),
            None => Ok(()),
        }
    }

    // Puts a call under its id.
    #[inline(always)]
    fn keep(&mut self, id: u32, flow: Flow) -> Result<(), AllocError>
        ensures ok { OnOk result (self.new.calls.entries
            ≡ finite.insert self.old.calls.entries id flow) }
        ensures same { self.new.alone ≡ self.old.alone }
    {
        match self.calls.apply(id, flow) {
            Ok(()) => Ok(()),
            Err(_) => Err(AllocError),
        }
    }
}
