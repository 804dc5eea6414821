ghost use Rattle.std.specs.Prelude.{◌≡◌};
ghost use Rattle.std.specs.Option.{option_copied};
ghost use Rattle.giop_session.specs.Sending.{message_of, unsent_of};
ghost use Rattle.giop_session.specs.Unsent.{IsSized};

use crate::slot::Slot;
use crate::unsent::Unsent;
use giop_msg::Msg;

/// What an accepted event does to the messages of its call that are not put out yet.
#[derive(Drop)]
pub enum Plan {
    /// They are replaced by these, of which the first is put out at once.
    Put(Unsent),
    /// The next one is put out.
    Next,
    /// They stay.
    Keep,
}

impl Plan {
    /// The message that an event planned so puts out of a call with this slot, if it puts one out.
    /// It takes no memory.
    #[inline(always)]
    pub fn message<'a, E>(&'a self, slot: Option<&'a Slot<E>>) -> Option<&'a Msg>
        ensures value { option_copied result
            ≡ message_of self.now (unsent_of (option_copied slot.entry)) }
        ensures sized { IsSized (option_copied result) }
    {
        match self {
            Plan::Put(messages) => messages.first(),
            Plan::Next => slot?.unsent.first(),
            Plan::Keep => None,
        }
    }
}

/// An event of a call, and what it does to the messages of the call where it is accepted.
#[derive(Drop)]
pub struct Planned<V> {
    pub event: V,
    pub plan: Plan,
}
