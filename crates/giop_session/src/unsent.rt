ghost use Rattle.std.specs.Prelude.{◌≡◌, ◌==◌, [], length, drop};
ghost use Rattle.giop_session.specs.Unsent.{first_of};

use giop_msg::Msg;
use std::alloc::Global;
use std::collections::VecDeque;
use std::marker::Model;

/// The messages of one call that are not put out yet, the next one first: a queue that contracts
/// see as a plain list.
#[derive(Drop)]
pub struct Unsent {
    messages: VecDeque<Msg>,
}

impl Model for Unsent {
    ghost use Rattle.std.specs.Prelude.{List};
    ghost use Rattle.giop_msg.specs.declared.msg.Msg.{Msg};

    ghost Value = { List Msg };

    ghost view = { λ u. u.messages.items };
}

impl Unsent {
    /// No messages. It takes no memory.
    pub fn new(alloc: Global) -> Unsent
        ensures { result ≡ [] }
    {
        Unsent {
            messages: VecDeque::new(alloc),
        }
    }

    /// Takes the next message out. It takes no memory.
    pub fn take_first(&mut self) -> Option<Msg>
        ensures value { result ≡ first_of self.old }
        ensures rest { self.new ≡ drop 1 self.old }
    {
        self.messages.pop_front()
    }

    /// The number of messages.
    pub fn len(&self) -> usize
        ensures { result ≡ length self.now }
    {
        self.messages.len()
    }

    /// Whether there are none.
    pub fn is_empty(&self) -> bool
        ensures { result ≡ (length self.now == 0) }
    {
        self.messages.is_empty()
    }
}

impl From<Vec<Msg>> for Unsent {
    ghost from_gives = { λ messages unsent. unsent ≡ messages.items };

    fn from(messages: Vec<Msg>) -> Unsent {
        Unsent {
            messages: VecDeque::from(messages),
        }
    }
}
