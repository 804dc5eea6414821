//! What an event does to the messages of its call that are not put out yet. Its meaning is
//! `unsent_after` and `message_of` in specs/Sending.antt: change both.
ghost use Rattle.std.specs.Prelude.{◌≡◌};
ghost use Rattle.std.specs.FinMap as finite;
ghost use Rattle.std.specs.Option.{option_copied};
ghost use Rattle.giop_table.specs.Sending.{message_of, unsent_of};
ghost use Rattle.giop_table.specs.Unsent.{IsSized};

use crate::call_table::CallTable;
use crate::messages::Messages;
use giop_msg::Msg;
use giop_mux::Side;

/// What an accepted event does to the messages of its call that are not put out yet.
#[derive(Drop)]
pub enum Plan {
    /// They are replaced by these, of which the first is put out at once.
    Put(Messages),
    /// The next one is put out.
    Next,
    /// They stay.
    Leave,
}

impl Plan {
    /// The message that an event with this plan puts out for the call of an id, if it puts one out.
    /// It takes no memory.
    #[inline(always)]
    pub fn message<'a, R: Side>(&'a self, calls: &'a CallTable<R>, id: u32) -> Option<&'a Msg>
        ensures value { option_copied result
            ≡ message_of self.now (unsent_of (finite.get calls.now.table id)) }
        ensures sized { IsSized (option_copied result) }
    {
        match self {
            Plan::Put(messages) => Some(messages.first()),
            Plan::Next => calls.slot(id)?.unsent.first(),
            Plan::Leave => None,
        }
    }
}

/// An event of a call, and what it does to the unsent messages of the call where it is accepted.
#[derive(Drop)]
pub struct Planned<V> {
    pub event: V,
    pub plan: Plan,
}
