//! The framer, which splits a stream into messages (9.4.1). How the stream comes in pieces changes
//! nothing of what it returns: specs/Stream.antt and the laws of laws/stream.rt say so.
ghost use Rattle.std.specs.Prelude.{◌≡◌, ◌+◌, ◌++◌, [], length, IfOk, IfErr, IfSome, IfNone, OnOk, OnErr};
ghost use Rattle.giop_msg.specs.declared.fault.WireFault.{WireFault};
ghost use Rattle.giop_msg.specs.declared.fault.WireKind.TheVariants.{NoMemory};
ghost use Rattle.giop_msg.specs.Fault.{fault};
ghost use Rattle.giop_msg.specs.Stream.{BeginsWithFault, IsRefusal, Waits};

use crate::{Msg, WireFault};
use begun::Begun;
use buffer::Buffer;
use std::alloc::Global;
use std::marker::Model;

mod begun;
mod buffer;
mod spare;

/// Splits a stream of octets, which comes in pieces of any size, into messages. Contracts see the
/// unread octets and the greatest message size.
#[derive(Debug, Drop)]
pub struct Framer {
    // A large message at the front, if it comes in parts, and the octets behind it.
    begun: Option<Begun>,
    buffer: Buffer,
}

impl Model for Framer {
    ghost use Rattle.giop_msg.specs.Stream.{Unread};

    ghost Value = { Unread };

    ghost use Rattle.giop_msg.specs.Framing.{CanStand, with_begun};

    ghost view = { λ f. with_begun f.begun f.buffer };

    ghost invariant = { λ f. CanStand f.begun f.buffer };
}

impl Framer {
    ghost use Rattle.giop_msg.specs.Stream.{AppendsTaken, TakesMessage};

    /// A framer that refuses each message whose size, which doesn't count the header, is above
    /// `message_limit`. It takes no memory.
    pub fn new(alloc: Global, message_limit: u32) -> Framer
        ensures { result ≡ record { limit = message_limit; octets = [] } }
    {
        Framer {
            begun: None,
            buffer: Buffer::new(alloc, message_limit),
        }
    }

    /// Appends octets of the stream to those that are unread. It tells no fault of them.
    ///
    /// The only fault is `NoMemory`, at 0; it changes nothing.
    pub fn feed(&mut self, octets: &[u8]) -> Result<(), WireFault>
        ensures ok { OnOk result (self.new
            ≡ record self.old { octets = self.old.octets ++ octets.now }) }
        ensures err { IfErr result (λ e. e ≡ fault 0 NoMemory) }
        ensures kept { OnErr result (self.new ≡ self.old) }
    {
        if self.begun.is_none() {
            self.begun = self.buffer.take_begun()?;
        }
        match &mut self.begun {
            Some(begun) => begun.feed(octets, &mut self.buffer)?,
            None => self.begun = self.buffer.feed(octets)?,
        }
        Ok(())
    }

    /// The number of octets that are unread.
    pub fn rest(&self) -> usize
        ensures { result ≡ length self.now.octets }
    {
        match &self.begun {
            Some(begun) => begun.len() + self.buffer.len(),
            None => self.buffer.len(),
        }
    }

    /// Takes the first message off the unread octets and returns it. It returns `None` where
    /// neither a whole message nor a fault is at their front: more octets have to be fed. A header
    /// is judged as soon as its twelve octets are there.
    ///
    /// A fault changes nothing. A fault of the octets is returned for good, however many octets
    /// follow. `NoMemory`, at 0, is returned only where a whole message is at the front.
    pub fn next(&mut self) -> Result<Option<Msg>, WireFault>
        // What is returned was at the front, and is taken away; None leaves what is no message yet.
        ensures found { IfOk result (λ o. IfSome o (λ m. TakesMessage self.old m self.new)) }
        ensures waits { IfOk result (λ o. IfNone o (Waits self.old × (self.new ≡ self.old))) }

        // A fault at the front is returned, and only such a one, or out of memory for a message.
        ensures exact { (e : WireFault) → BeginsWithFault self.old.limit self.old.octets e →
            result ≡ Err e }
        ensures err { IfErr result (IsRefusal self.old) }
        ensures kept { OnErr result (self.new ≡ self.old) }
    {
        let Some(begun) = &self.begun else {
            return self.buffer.next();
        };
        if !begun.is_whole() {
            return Ok(None);
        }
        Ok(Some(self.begun.take().unwrap().into_message()))
    }

    /// Takes all messages off the front of the unread octets, and appends them to `messages`.
    ///
    /// After a fault the messages before it are taken, and nothing else has changed. A fault of the
    /// octets is at the front of those that are left. `NoMemory`, at 0, is returned only where a
    /// whole message is there.
    pub fn take_messages(&mut self, messages: &mut Vec<Msg>) -> Result<(), WireFault>
        ensures found { AppendsTaken self.old messages.old.items self.new messages.new.items }
        ensures ok { OnOk result (Waits self.new) }
        ensures err { IfErr result (IsRefusal self.new) }
    {
        let Some(begun) = &self.begun else {
            return self.buffer.take_messages(messages);
        };
        if !begun.is_whole() {
            return Ok(());
        }
        messages.reserve(1)?;
        let message = self.begun.take().unwrap().into_message();
        messages.push(message).unwrap();
        self.buffer.take_messages(messages)
    }

    /// Takes a message that is no longer needed, and keeps its memory for a later one, unless it is
    /// large. It takes no memory.
    pub fn reuse(&mut self, message: Msg)
        ensures { self.new ≡ self.old }
    {
        self.buffer.reuse(message);
    }
}
