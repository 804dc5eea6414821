//! The table of an end's calls: for each request id its entry, its messages that are still to be
//! sent, and the pieces gathered for it (CORBA 3.3 Part 2, 9.4.9). What an act does to one call,
//! and what the whole refuses, is `rules_of` in specs/CallTable.antt: change both.
ghost use Rattle.std.specs.Prelude.{if◌then◌else◌, ◌≡◌, ◌==◌, ◌&&◌, ◌≤◌, ◌^◌, ◌+◌, ◌/◌, not, is_some, true, false, Ok, None, length, is_none, IfNone, IfErr, IfOk, IfSome, IsOk, OnErr, IsSome, option_copied};
ghost use Rattle.std.specs.FinMap as finite;
ghost use Rattle.std.specs.Option.{option_map};
ghost use Rattle.giop_frag.specs.Gathered.{blocks_of, is_over, octets_in, order_fault};
ghost use Rattle.giop_ids.specs.ById.{put};
ghost use Rattle.giop_mux.specs.Calls.{is_one_too_many, judged};
ghost use Rattle.giop_table.specs.Sending.{step_at};
ghost use Rattle.giop_table.specs.CallTable.{DoesEvent, DoesTo, First, gathers, gathers_at, IsTaken, More, Nothing, Stays, stepped, take_reply, GoesOn, IsOpenAt, without};

use crate::plan::Planned;
use crate::sending::Sending;
use crate::slot::Slot;
use crate::table_fault::TableFault;
use giop_cdr::Order;
use giop_frag::{Chain, Gather};
use giop_mux::{Mux, Side};
use std::alloc::{AllocError, Global};
use std::marker::Model;

/// The calls of one end: their entries with the messages that are still to be sent, and the pieces
/// of the messages that come.
///
/// Contracts see the rule, both limits and both maps.
#[derive(Drop)]
pub struct CallTable<R: Side> {
    mux: Mux<Sending<R>>,
    gather: Gather,
}

impl<R: Side> Model for CallTable<R> {
    ghost use Rattle.giop_table.specs.CallTable.{Held, IsTable, held_code};
    ghost use Rattle.giop_table.specs.Codes.{slot_code};

    ghost Value = { Held R R.Entry };

    ghost coded = { held_code R.code (slot_code R.Entry.code) };

    ghost view = { λ t. record {
      rule = t.mux.rule.rule;
      calls = t.mux.limit;
      room = t.gather.limit;
      table = t.mux.entries;
      gathered = t.gather.lists;
    } };

    ghost invariant = { λ t. IsTable R.gathering t.mux t.gather };
}

impl<R: Side> CallTable<R> {
    /// No calls, of which there may be at most `calls`, and `room` gathered octets. It takes no
    /// memory.
    pub fn new(alloc: Global, rule: R, calls: u32, room: usize) -> Self
        requires { room ≤ 2 ^ 62 }
        ensures { result ≡ record {
          rule = rule;
          calls = calls;
          room = room;
          table = finite.empty;
          gathered = finite.empty;
        } }
    {
        CallTable {
            mux: Mux::new(alloc, Sending { rule, alloc }, calls),
            gather: Gather::new(alloc, room),
        }
    }

    /// What is stored for the id, if anything is. It takes no memory.
    pub fn slot(&self, id: u32) -> Option<&Slot<R::Entry>>
        ensures { option_copied result ≡ finite.get self.now.table id }
    {
        self.mux.entry(id)
    }

    /// The ids for which something is stored, ascending. `alloc` gives the memory of the list.
    pub fn ids(&self, alloc: Global) -> Result<Vec<u32>, AllocError>
        ensures { IfOk result (λ ids. ids.items ≡ finite.keys self.now.table) }
    {
        self.mux.ids(alloc)
    }

    /// The byte order and the octets of the pieces gathered for the id, where they lie. It takes no
    /// memory.
    pub fn pieces(&self, id: u32) -> Option<(Order, Chain<'_>)>
        ensures value { result
            ≡ option_map (λ p. (p.order, p.octets)) (finite.get self.now.gathered id) }
        ensures most { IfSome result (λ found. length found.1 ≤ 2 ^ 62) }
        ensures there { is_some result ≡ gathers R.gathering (finite.get self.now.table id) }
    {
        self.gather.chain(id)
    }

    /// Whether so many octets may come beside those that are gathered. It takes no memory.
    pub fn has_room(&self, more: usize) -> bool
        ensures value { result ≡ not (is_over self.now.room self.now.gathered more) }
        ensures most { (id : _) → result ≡ true
            → octets_in (finite.get self.now.gathered id) + more ≤ 2 ^ 62 }
    {
        more <= self.gather.limit() - self.gather.total()
    }

    /// The gatherer of the pieces. It takes no memory.
    pub fn gatherer(&self) -> &Gather
        ensures pieces { result.now.lists ≡ self.now.gathered }
        ensures limit { result.now.limit ≡ self.now.room }
    {
        &self.gather
    }

    /// How many blocks of 512 octets were taken for pieces. None is freed while the table lives.
    /// They are at least those that the gathered pieces need, each call's octets over 512, rounded
    /// up; and at most the limit of gathered octets over 512, and one more for each entry that
    /// there may be. It takes no memory.
    pub fn blocks(&self) -> usize
        ensures least { blocks_of self.now.gathered ≤ result }
        ensures within { result ≤ self.now.room / 512 + self.now.calls }
    {
        self.gather.blocks()
    }

    /// An event that brings no octets to be gathered happens to the call of an id.
    ///
    /// Refusals, in this order: the rule's fault; `TooManyCalls`; `NoMemory`, only where an id
    /// without an entry would get one. A refusal changes nothing.
    #[inline(always)]
    pub fn apply(
        &mut self,
        id: u32,
        planned: Planned<R::Event>,
    ) -> Result<R::Answer, TableFault<R::Fault>>
        requires quiet { gathers_at R.Side self.old id ≡ false
            → gathers R.gathering (stepped R.Side self.old id planned).entry ≡ false }
        ensures { DoesEvent R.Side self.old id planned Nothing result self.new }
    {
        let answer = match self.mux.apply(id, planned) {
            Ok(answer) => answer,
            Err(refusal) => return Err(TableFault::from(refusal)),
        };
        keep_if(is_kept(&self.mux, &self.gather, id), &mut self.gather, id);
        Ok(answer)
    }

    /// The first piece of a message comes, with more to come: its octets are gathered from now on.
    ///
    /// Refusals, in this order: `TooManyCalls`, `GatherFull`, `NoMemory`. A refusal changes
    /// nothing: what the gatherer began is undone where it is out of memory for the entry.
    pub fn begin(
        &mut self,
        id: u32,
        planned: Planned<R::Event>,
        order: Order,
        octets: &[u8],
    ) -> Result<R::Answer, TableFault<R::Fault>>
        requires away { gathers_at R.Side self.old id ≡ false }
        requires accepted { IsOk (stepped R.Side self.old id planned).outcome }
        requires gathers { gathers R.gathering (stepped R.Side self.old id planned).entry ≡ true }
        ensures { DoesEvent R.Side self.old id planned (First order octets.now) result self.new }
    {
        if self.is_one_too_many(id) {
            return Err(TableFault::TooManyCalls);
        }
        if let Err(fault) = self.gather.begin(id, order, octets) {
            return Err(TableFault::from(fault));
        }
        if let Some(answer) = enter(&mut self.mux, id, planned) {
            return Ok(answer);
        }
        self.gather.discard(id);
        Err(TableFault::NoMemory)
    }

    /// A further piece of a message whose pieces are gathered comes, with more to come: its octets
    /// are joined to them. It counts as any event that changes nothing else at its call.
    ///
    /// Refusals, in this order: `GatherFull`, `NoMemory`. A refusal changes nothing.
    pub fn go_on(
        &mut self,
        id: u32,
        order: Order,
        octets: &[u8],
    ) -> Result<(), TableFault<R::Fault>>
        requires comes { gathers_at R.Side self.old id ≡ true }
        requires in_order { order_fault (finite.get self.old.gathered id) order ≡ None }
        ensures { (planned answer : _)
            → Stays (stepped R.Side self.old id planned) (finite.get self.old.table id) answer
            → GoesOn R.Side self.old id planned octets.now answer result self.new }
    {
        if let Err(fault) = self.gather.add(id, order, octets) {
            return Err(TableFault::from(fault));
        }
        Ok(())
    }

    /// The last piece of a message whose pieces are gathered comes, and the event says what all of
    /// them are together. The octets count as gathered at this moment, and no piece is kept.
    ///
    /// The only refusal is `GatherFull`. A refusal changes nothing. It takes no memory.
    pub fn complete(
        &mut self,
        id: u32,
        planned: Planned<R::Event>,
        octets: &[u8],
    ) -> Result<R::Answer, TableFault<R::Fault>>
        requires comes { gathers_at R.Side self.old id ≡ true }
        requires accepted { IsOk (stepped R.Side self.old id planned).outcome }
        requires ends { gathers R.gathering (stepped R.Side self.old id planned).entry ≡ false }
        ensures { DoesEvent R.Side self.old id planned (More octets.now) result self.new }
    {
        if !self.has_room(octets.len()) {
            return Err(TableFault::GatherFull);
        }
        Ok(self.finish(id, planned))
    }

    /// What `complete` does with a last piece whose octets have room, which `has_room` says. It
    /// takes no memory.
    pub fn finish(&mut self, id: u32, planned: Planned<R::Event>) -> R::Answer
        requires comes { gathers_at R.Side self.old id ≡ true }
        requires accepted { IsOk (stepped R.Side self.old id planned).outcome }
        requires ends { gathers R.gathering (stepped R.Side self.old id planned).entry ≡ false }
        ensures { (octets : _) → is_over self.old.room self.old.gathered (length octets) ≡ false
            → DoesEvent R.Side self.old id planned (More octets) (Ok result) self.new }
    {
        let answer = stay(&mut self.mux, id, planned);
        self.gather.discard(id);
        answer
    }

    /// Takes out what is stored for the id, where its call is over, and returns it; `None` where
    /// nothing is stored. A call that is not over is refused as `StillOpen`, and stays. It takes no
    /// memory.
    pub fn take(&mut self, id: u32) -> Result<Option<Slot<R::Entry>>, TableFault<R::Fault>>
        ensures does { DoesTo R.Side self.old id IsTaken (take_reply result) self.new }
        ensures value { IfOk result (λ slot. (slot ≡ finite.get self.old.table id)
            × (self.new ≡ without self.old id)) }
        ensures open { IfErr result (λ why. IsOpenAt R.Side self.old id) }
        ensures kept { OnErr result (self.new ≡ self.old) }
    {
        let Ok(slot) = self.mux.take(id) else {
            return Err(TableFault::StillOpen);
        };
        Ok(slot)
    }

    // Whether the id has no entry, and the table holds as many as it may.
    fn is_one_too_many(&self, id: u32) -> bool
        ensures { result ≡ (is_none (finite.get self.now.table id)
            && (finite.len self.now.table == self.now.calls)) }
    {
        self.slot(id).is_none() && self.mux.is_full()
    }
}

// Whether pieces are gathered for the id.
fn gathers_in<R: Side>(mux: &Mux<Sending<R>>, id: u32) -> bool
    ensures { result ≡ gathers R.gathering (finite.get mux.now.entries id) }
{
    match mux.entry(id) {
        Some(slot) => R::is_gathering(&slot.entry),
        None => false,
    }
}

// Whether no pieces of the id are to be dropped. Most messages come whole, so the gatherer is asked
// first.
fn is_kept<R: Side>(mux: &Mux<Sending<R>>, gather: &Gather, id: u32) -> bool
    ensures { let pieces = finite.get gather.now.lists id in
        (if result then pieces else None)
        ≡ (if gathers R.gathering (finite.get mux.now.entries id) then pieces else None) }
{
    !gather.contains(id) || gathers_in(mux, id)
}

// Applies an event that the rule accepts and for which there is room. So it fails only where it is
// out of memory; then nothing changes.
fn enter<R: Side>(
    mux: &mut Mux<Sending<R>>,
    id: u32,
    planned: Planned<R::Event>,
) -> Option<R::Answer>
    requires accepted { IsOk
        (step_at (R.next mux.old.rule.rule) mux.old.entries id planned).outcome }
    requires room { is_one_too_many mux.old.entries mux.old.limit id
        (step_at (R.next mux.old.rule.rule) mux.old.entries id planned).entry
        ≡ false }
    ensures some { IfSome result (λ answer. judged mux.old.entries mux.old.limit id
        (step_at (R.next mux.old.rule.rule) mux.old.entries id planned) ≡ Ok answer) }
    ensures after { IfSome result (λ answer. mux.new ≡ record mux.old {
      entries = put mux.old.entries id
          (step_at (R.next mux.old.rule.rule) mux.old.entries id planned).entry;
    }) }
    ensures none { IfNone result (mux.new ≡ mux.old) }
    ensures within { finite.len mux.new.entries ≤ mux.new.limit }
{
    mux.apply(id, planned).ok()
}

// Applies an event that the rule accepts to a call that has an entry, which takes no memory.
fn stay<R: Side>(mux: &mut Mux<Sending<R>>, id: u32, planned: Planned<R::Event>) -> R::Answer
    requires present { IsSome (finite.get mux.old.entries id) }
    requires accepted { IsOk
        (step_at (R.next mux.old.rule.rule) mux.old.entries id planned).outcome }
    ensures value { judged mux.old.entries mux.old.limit id
        (step_at (R.next mux.old.rule.rule) mux.old.entries id planned)
        ≡ Ok result }
    ensures after { mux.new ≡ record mux.old {
      entries = put mux.old.entries id
          (step_at (R.next mux.old.rule.rule) mux.old.entries id planned).entry;
    } }
    ensures within { finite.len mux.new.entries ≤ mux.new.limit }
{
    mux.apply(id, planned).unwrap()
}

// Drops the pieces of the id, unless they are to be kept.
fn keep_if(kept: bool, gather: &mut Gather, id: u32)
    ensures { gather.new ≡ record gather.old {
      lists = put gather.old.lists id (if kept then finite.get gather.old.lists id else None);
    } }
{
    match kept {
        true => {}
        false => gather.discard(id),
    }
}
