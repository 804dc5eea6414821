//! The messages of one call that are still to be sent, as a queue.
ghost use Rattle.std.specs.Prelude.{◌≡◌, ◌==◌, [], length, drop};
ghost use Rattle.std.specs.Option.{option_copied};
ghost use Rattle.giop_table.specs.Unsent.{AreSized, IsSized, first_of};

use giop_msg::Msg;
use std::alloc::Global;
use std::collections::VecDeque;
use std::marker::Model;

/// The messages of one call that are not put out yet, the next one first: a queue that contracts
/// see as a plain list. The size of each is an unsigned long, as its header has it (CORBA 3.3 Part
/// 2, 9.4.1).
#[derive(Drop)]
pub struct Unsent {
    messages: VecDeque<Msg>,
}

impl Model for Unsent {
    ghost use Rattle.std.specs.Prelude.{List};
    ghost use Rattle.giop_msg.specs.declared.msg.Msg.{Msg};
    ghost use Rattle.giop_table.specs.Unsent.{AreSized};

    ghost Value = { List Msg };

    ghost view = { λ u. u.messages.items };

    ghost invariant = { λ u. AreSized u.messages.items };
}

impl Unsent {
    /// No messages. It takes no memory.
    #[inline(always)]
    pub fn new(alloc: Global) -> Unsent
        ensures { result ≡ [] }
    {
        Unsent {
            messages: VecDeque::new(alloc),
        }
    }

    /// These messages, each of fewer than 2^32 octets behind its header. It takes no memory.
    pub fn of(messages: Vec<Msg>) -> Unsent
        requires { AreSized messages.items }
        ensures { result ≡ messages.items }
    {
        Unsent {
            messages: VecDeque::from(messages),
        }
    }

    /// The next message, if there is one. It takes no memory.
    #[inline(always)]
    pub fn first(&self) -> Option<&Msg>
        ensures value { option_copied result ≡ first_of self.now }
        ensures sized { IsSized (option_copied result) }
    {
        self.messages.front()
    }

    /// Takes the next message out. It takes no memory.
    #[tactic(auto, using(crate::proofs::UnsentLemmas::rest_sized))]
    #[inline(always)]
    pub fn take_first(&mut self) -> Option<Msg>
        ensures value { result ≡ first_of self.old }
        ensures rest { self.new ≡ drop 1 self.old }
    {
        self.messages.pop_front()
    }

    /// The number of messages.
    pub fn len(&self) -> usize
        ensures { result ≡ length self.now }
    {
        self.messages.len()
    }

    /// Whether no message is left to be put out.
    pub fn is_empty(&self) -> bool
        ensures { result ≡ (length self.now == 0) }
    {
        self.messages.is_empty()
    }
}
