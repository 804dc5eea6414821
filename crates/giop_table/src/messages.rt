//! The messages that one event sends: the first is put out at once, the others are sent later.
ghost use Rattle.std.specs.Prelude.{◌≡◌, ◌<◌, ◌^◌, [], ◌∷◌, Some, length};
ghost use Rattle.giop_table.specs.Unsent.{AreSized, first_of};

use crate::unsent::Unsent;
use giop_msg::Msg;
use std::alloc::Global;
use std::marker::Model;

/// The messages of one event, one at least: the first is put out at once, the others stay unsent.
/// Contracts see them as one list. The size of each is an unsigned long, as its header has it
/// (CORBA 3.3 Part 2, 9.4.1).
#[derive(Drop)]
pub struct Messages {
    first: Msg,
    rest: Unsent,
    // The number of all of them, the first included.
    count: usize,
}

impl Model for Messages {
    ghost use Rattle.std.specs.Prelude.{◌≡◌, List, ◌<◌, ◌^◌, ◌∷◌, length};
    ghost use Rattle.giop_msg.specs.declared.msg.Msg.{Msg};

    ghost Value = { List Msg };

    ghost view = { λ m. m.first ∷ m.rest };

    ghost invariant = { λ m. (length m.first.payload < 2 ^ 32)
        × (m.count ≡ length (m.first ∷ m.rest)) };
}

impl Messages {
    /// One message, of fewer than 2^32 octets behind its header. It takes no memory.
    #[inline(always)]
    pub fn one(alloc: Global, message: Msg) -> Messages
        requires { length message.payload < 2 ^ 32 }
        ensures { result ≡ message ∷ [] }
    {
        Messages {
            first: message,
            rest: Unsent::new(alloc),
            count: 1,
        }
    }

    /// These messages, one at least, each of fewer than 2^32 octets behind its header. It takes no
    /// memory.
    pub fn of(messages: Vec<Msg>) -> Messages
        requires some { 0 < length messages.items }
        requires sized { AreSized messages.items }
        ensures { result ≡ messages.items }
    {
        let count = messages.len();
        let mut rest = Unsent::of(messages);
        let first = rest.take_first().unwrap();
        Messages { first, rest, count }
    }

    /// The first message. It takes no memory.
    #[inline(always)]
    pub fn first(&self) -> &Msg
        ensures value { first_of self.now ≡ Some result.now }
        ensures sized { length result.now.payload < 2 ^ 32 }
    {
        &self.first
    }

    /// The first message, and the others. It takes no memory.
    #[inline(always)]
    pub fn into_parts(self) -> (Msg, Unsent)
        ensures { result.0 ∷ result.1 ≡ self }
    {
        (self.first, self.rest)
    }

    /// The number of messages, the first included.
    #[inline(always)]
    pub fn len(&self) -> usize
        ensures { result ≡ length self.now }
    {
        self.count
    }
}
