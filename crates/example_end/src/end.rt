//! The end: a `Mux` of entries and a `Gather` of pieces that change together or not at all. What
//! each call does is `end_rules` in specs/End.antt: change both.
ghost use Rattle.std.specs.Prelude.{◌≡◌, ◌≤◌, ◌^◌};
ghost use Rattle.std.specs.FinMap as finite;
ghost use Rattle.giop_ids.specs.Runs.{Does};
ghost use Rattle.example_end.specs.End.{end_rules, is_arriving, may_begin, reply, take_reply, First, More, Last, IsCancelled, IsTaken, IsDone};

use crate::{EndFault, Entry, Event, Meter, steps};
use giop_cdr::Order;
use giop_frag::Gather;
use giop_mux::Mux;
use std::alloc::Global;
use std::marker::Model;

/// One end: the entries of messages and the pieces of those that come.
///
/// Contracts see both limits and both maps.
#[derive(Drop)]
pub struct End {
    mux: Mux<Meter>,
    gather: Gather,
}

impl Model for End {
    ghost use Rattle.example_end.specs.End.{Held, IsTied, held_code};

    ghost Value = { Held };

    ghost coded = { held_code };

    ghost view = { λ e. record {
      calls = e.mux.limit;
      room = e.gather.limit;
      table = e.mux.entries;
      gathered = e.gather.lists;
    } };

    ghost invariant = { λ e. IsTied (record {
      calls = e.mux.limit;
      room = e.gather.limit;
      table = e.mux.entries;
      gathered = e.gather.lists;
    }) };
}

impl End {
    /// An end that holds nothing, of at most `calls` entries and `room` gathered octets. It takes
    /// no memory.
    pub fn new(alloc: Global, calls: u32, room: usize) -> End
        requires { room ≤ 2 ^ 62 }
        ensures { result ≡ record {
          calls = calls;
          room = room;
          table = finite.empty;
          gathered = finite.empty;
        } }
    {
        End {
            mux: Mux::new(alloc, Meter, calls),
            gather: Gather::new(alloc, room),
        }
    }

    /// The entry that is stored for the id, if one is. It takes no memory.
    pub fn entry(&self, id: u32) -> Option<Entry>
        ensures { result ≡ finite.get self.now.table id }
    {
        self.mux.entry(id).copied()
    }

    /// The first piece of a message comes, with more to come, for an id without a message that
    /// comes.
    ///
    /// Refusals, in this order: `InUse`, `TooManyCalls`, `GatherFull`, `NoMemory`. A refusal
    /// changes nothing: what the gatherer began is undone where it is out of memory for the entry.
    pub fn first(&mut self, id: u32, order: Order, octets: &[u8]) -> Result<(), EndFault>
        ensures { Does end_rules self.old (record { id = id; what = First order octets.now })
            (reply result) self.new }
    {
        self.may_begin(id)?;
        self.gather.begin(id, order, octets)?;
        if steps::open(&mut self.mux, id) {
            return Ok(());
        }
        self.gather.discard(id);
        Err(EndFault::NoMemory)
    }

    /// A further piece comes, with more to come. It is ignored where the message was cancelled.
    ///
    /// Refusals, in this order: `Stray`, `OrderDiffers`, `GatherFull`, `NoMemory`.
    pub fn more(&mut self, id: u32, order: Order, octets: &[u8]) -> Result<(), EndFault>
        ensures { Does end_rules self.old (record { id = id; what = More order octets.now })
            (reply result) self.new }
    {
        match self.entry(id) {
            Some(Entry::Arriving) => {}
            Some(Entry::Cancelled) => return Ok(()),
            _ => return Err(EndFault::Stray),
        }
        self.gather.add(id, order, octets)?;
        Ok(())
    }

    /// The last piece comes: the message is whole, and its octets are counted where they lie. It is
    /// ignored where the message was cancelled. The refusals are those of `more`.
    pub fn last(&mut self, id: u32, order: Order, octets: &[u8]) -> Result<(), EndFault>
        ensures { Does end_rules self.old (record { id = id; what = Last order octets.now })
            (reply result) self.new }
    {
        match self.entry(id) {
            Some(Entry::Arriving) => {}
            Some(Entry::Cancelled) => return Ok(()),
            _ => return Err(EndFault::Stray),
        }
        self.gather.add(id, order, octets)?;
        let count = steps::count_of(&self.gather, id);
        steps::settle(&mut self.mux, id, Event::End(count));
        self.gather.discard(id);
        Ok(())
    }

    /// Cancels a message that comes, and drops its pieces; does nothing to any other. It takes no
    /// memory.
    pub fn cancel(&mut self, id: u32)
        ensures { Does end_rules self.old (record { id = id; what = IsCancelled }) (Ok IsDone)
            self.new }
    {
        if self.comes(id) {
            steps::settle(&mut self.mux, id, Event::Cancel);
            self.gather.discard(id);
        }
    }

    /// Takes out the entry of a message that came or was cancelled, and returns it; `None` where
    /// the id has none. A message that still comes is refused as `StillOpen`. It takes no memory.
    pub fn take(&mut self, id: u32) -> Result<Option<Entry>, EndFault>
        ensures { Does end_rules self.old (record { id = id; what = IsTaken })
            (take_reply result) self.new }
    {
        let Ok(taken) = self.mux.take(id) else {
            return Err(EndFault::StillOpen);
        };
        Ok(taken)
    }

    // Whether a message comes for the id.
    fn comes(&self, id: u32) -> bool
        ensures { result ≡ is_arriving (finite.get self.now.table id) }
    {
        matches!(self.mux.entry(id), Some(Entry::Arriving))
    }

    // Whether a message may begin for the id, as far as the table says.
    fn may_begin(&self, id: u32) -> Result<(), EndFault>
        ensures { result ≡ may_begin self.now id }
    {
        match self.mux.entry(id) {
            Some(Entry::Arriving) => Err(EndFault::InUse),
            Some(_) => Ok(()),
            None if self.mux.is_full() => Err(EndFault::TooManyCalls),
            None => Ok(()),
        }
    }
}
