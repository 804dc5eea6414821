//! The table of calls, `Mux`: it applies events to calls, and takes out the entries of closed ones.
//! How a slot changes is in `slots.rt`; the contracts here speak of the finite map of entries
//! alone.
ghost use Rattle.std.specs.Prelude.{◌≡◌, ◌==◌, ◌≤◌, ◌↔◌, false, map, Some, None, IsErr, IfOk, IfErr, OnOk, OnErr, IsErrOf, IsSome, option_copied};
ghost use Rattle.std.specs.Option.{option_map};
ghost use Rattle.std.specs.FinMap as finite;
ghost use Rattle.giop_ids.specs.ById.{put};
ghost use Rattle.giop_ids.specs.Runs.{RefusedAs, refusal_of, Does, Runs};
ghost use Rattle.giop_mux.specs.Calls.{judged};
ghost use Rattle.giop_mux.specs.Runs.{Hears, IsTaken, event_reply, take_reply, acts_of, call_rules};

use crate::slots::Slots;
use crate::{CallRule, Refusal, StillOpen, slots};
use giop_ids::Addressed;
use std::alloc::{AllocError, Global};
use std::fmt;
use std::marker::Model;

/// A table of calls: the entry of each, by id, and no more entries than its limit.
///
/// Contracts see its rule, its limit and the finite map from ids to entries.
#[derive(Drop)]
pub struct Mux<R: CallRule> {
    rule: R,
    limit: u32,
    table: Slots<R::Entry>,
}

impl<R: CallRule> Model for Mux<R> {
    ghost use Rattle.giop_mux.specs.Calls.{Calls, calls_code};
    ghost use Rattle.giop_mux.specs.Slots.{held, IsTable};

    ghost Value = { Calls R R.Entry };

    ghost coded = { calls_code R.code R.Entry.code };

    ghost view = { λ m. record {
      rule = m.rule;
      limit = m.limit;
      entries = held m.table;
    } };

    ghost invariant = { λ m. IsTable m.limit m.table };
}

impl<R: CallRule> Mux<R> {
    /// An empty table under this rule, of at most `calls` entries. It takes no memory.
    pub fn new(alloc: Global, rule: R, calls: u32) -> Self
        ensures { result ≡ record { rule = rule; limit = calls; entries = finite.empty } }
    {
        Mux {
            rule,
            limit: calls,
            table: slots::no_slots(alloc),
        }
    }

    /// Steps the call of this id by the event, and returns the rule's answer.
    ///
    /// Refusals, in this order: the rule's fault (`Rule`); `TooManyCalls`, exactly where an id
    /// without an entry would get one and `len` is the limit; `NoMemory`, only where an id without
    /// an entry would get one. A refusal changes nothing; the event is dropped.
    #[inline(always)]
    pub fn apply(&mut self, id: u32, event: R::Event) -> Result<R::Answer, Refusal<R::Fault>>
        ensures ok { OnOk result (self.new ≡ record self.old {
          entries = put self.old.entries id
              (R.next self.old.rule (finite.get self.old.entries id) event).entry;
        }) }
        ensures value { IfOk result (λ answer. judged self.old.entries self.old.limit id
            (R.next self.old.rule (finite.get self.old.entries id) event) ≡ Ok answer) }
        ensures err { IfErr result (λ refusal. RefusedAs Refusal.NoMemory refusal
            (refusal_of (judged self.old.entries self.old.limit id
            (R.next self.old.rule (finite.get self.old.entries id) event)))) }
        ensures memory { IsErrOf result Refusal.NoMemory → (finite.get self.old.entries id ≡ None)
            × IsSome (R.next self.old.rule None event).entry }
        ensures kept { OnErr result (self.new ≡ self.old) }
        ensures exact { Does (call_rules (R.next self.old.rule) (R.closed self.old.rule)
            self.old.limit) self.old.entries (record { id = id; what = Hears event })
            (event_reply result) self.new.entries }
        ensures within { finite.len self.new.entries ≤ self.new.limit }
    {
        slots::step_call(&self.rule, self.limit, &mut self.table, id, event)
    }

    /// Applies these events one after the other, each to the call of its id. It returns the answer
    /// of each, or why it is refused, in their order, and continues after a refusal.
    ///
    /// `alloc` provides the memory of the list of outcomes. Out of memory for it, nothing is
    /// applied.
    pub fn apply_all(
        &mut self,
        alloc: Global,
        events: Vec<Addressed<R::Event>>,
    ) -> Result<Vec<Result<R::Answer, Refusal<R::Fault>>>, AllocError>
        ensures ok { OnOk result
            (self.new ≡ record self.old { entries = self.new.entries }) }
        ensures value { IfOk result (λ outcomes. Runs (call_rules (R.next self.old.rule)
            (R.closed self.old.rule) self.old.limit) self.old.entries
            (acts_of events.items) (map event_reply outcomes.items) self.new.entries) }
        ensures kept { OnErr result (self.new ≡ self.old) }
    {
        let mut outcomes = Vec::with_capacity(alloc, events.len())?;
        for told in events {
            outcomes.push(self.apply(told.id, told.what)).unwrap();
        }
        Ok(outcomes)
    }

    /// The entry that is stored for this id, or `None`. It takes no memory.
    pub fn entry(&self, id: u32) -> Option<&R::Entry>
        ensures { option_copied result ≡ finite.get self.now.entries id }
    {
        slots::entry_in(&self.table, id)
    }

    /// Takes the entry of a closed call out, and returns it; `None` where the id has none. It takes
    /// no memory. Refused as `StillOpen` where the call is open, and then the entry stays.
    pub fn take(&mut self, id: u32) -> Result<Option<R::Entry>, StillOpen>
        ensures ok { OnOk result
            (self.new ≡ record self.old { entries = finite.remove self.old.entries id }) }
        ensures value { IfOk result (λ taken. taken ≡ finite.get self.old.entries id) }
        ensures err { IsErr result
            ↔ (option_map (R.closed self.old.rule) (finite.get self.old.entries id) ≡ Some false) }
        ensures kept { OnErr result (self.new ≡ self.old) }
        ensures exact { Does (call_rules (R.next self.old.rule) (R.closed self.old.rule)
            self.old.limit) self.old.entries (record { id = id; what = IsTaken })
            (take_reply result) self.new.entries }
        ensures within { finite.len self.new.entries ≤ self.new.limit }
    {
        if slots::is_open(&self.rule, &self.table, id) {
            return Err(StillOpen);
        }
        Ok(slots::take_slot(&mut self.table, id))
    }

    /// The number of entries. It takes no memory.
    pub fn len(&self) -> usize
        ensures value { result ≡ finite.len self.now.entries }
        ensures within { result ≤ self.now.limit }
    {
        slots::count_of(&self.table)
    }

    /// Whether there is no entry.
    pub fn is_empty(&self) -> bool
        ensures { result ≡ (finite.len self.now.entries == 0) }
    {
        self.len() == 0
    }

    /// Whether there are as many entries as the limit, so that no other id can get one. It takes no
    /// memory.
    pub fn is_full(&self) -> bool
        ensures { result ≡ (finite.len self.now.entries == self.now.limit) }
    {
        self.len() == self.limit as usize
    }

    /// The ids that have an entry, ascending. `alloc` provides the memory of the list.
    pub fn ids(&self, alloc: Global) -> Result<Vec<u32>, AllocError>
        ensures { IfOk result (λ ids. ids.items ≡ finite.keys self.now.entries) }
    {
        slots::ids_of(alloc, &self.table)
    }
}

/// Shows how many entries there are, and the limit; the rule and the entries need no `Debug` of
/// their own.
impl<R: CallRule> fmt::Debug for Mux<R> {
    fn fmt<W: fmt::Write>(&self, f: &mut fmt::Formatter<W>) -> fmt::Result {
        f.debug_struct("Mux")
            .field("len", &self.len())
            .field("limit", &self.limit)
            .finish_non_exhaustive()
    }
}
