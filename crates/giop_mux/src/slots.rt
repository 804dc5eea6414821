//! The slots of a `Mux`, and its steps over them: what each leaves of the entries. How slots show
//! entries is defined in `specs/Slots.antt`.
ghost use Rattle.std.specs.Prelude.{◌≡◌, ◌<◌, ◌≤◌, ◌^◌, ◌↔◌, ◌==◌, ◌&&◌, IsTrue, length, is_some, false, None, Some, IsOk, IsErr, IsErrOf, IfOk, IfErr, OnOk, OnErr, option_copied, IsSome};
ghost use Rattle.std.specs.Option.{option_map};
ghost use Rattle.std.specs.List.{insert};
ghost use Rattle.std.specs.FinMap as map;
ghost use Rattle.std.specs.BTreeMap.{Updates, keys, IsOrdered};
ghost use Rattle.std.specs.Ordering.{nat_cmp};
ghost use Rattle.giop_ids.specs.ById.{put};
ghost use Rattle.giop_ids.specs.Runs.{RefusedAs, refusal_of};
ghost use Rattle.giop_mux.specs.Calls.{by_rule, judged, is_one_too_many, room_refusal};
ghost use Rattle.giop_mux.specs.Slots.{IsTable, IsWhole, NoneEmpty, entries_of, held, placed};

use crate::{CallRule, Refusal};
use std::alloc::{AllocError, Global};
use std::collections::BTreeMap;

/// The slots of a table: one in front, and those of the other ids. Where one call is open at a
/// time, its entry is found without a search, and takes no memory.
#[derive(Drop)]
pub struct Slots<E> {
    /// The id of the slot in front. No other slot has it.
    pub id: u32,
    /// The entry in front, if there is one.
    pub front: Option<E>,
    /// The slots of other ids. None is empty between two calls of these functions. A slot that is
    /// emptied and filled again takes no memory.
    pub others: BTreeMap<u32, Option<E>>,
}

/// No slots. It takes no memory.
pub fn no_slots<E>(alloc: Global) -> Slots<E>
    ensures value { held result ≡ map.empty }
    ensures whole { IsWhole result }
{
    Slots {
        id: 0,
        front: None,
        others: BTreeMap::new(alloc),
    }
}

/// Steps the call of an id by an event, whether the id has an entry or none.
#[inline(always)]
pub fn step_call<R: CallRule>(
    rule: &R,
    calls: u32,
    slots: &mut Slots<R::Entry>,
    id: u32,
    event: R::Event,
) -> Result<R::Answer, Refusal<R::Fault>>
    requires { IsTable calls slots.old }
    ensures table { IsTable calls slots.new }
    ensures ok { let m = held slots.old in
        OnOk result (held slots.new ≡ put m id (R.next rule.now (map.get m id) event).entry) }
    ensures value { let m = held slots.old in
        IfOk result (λ answer.
        judged m calls id (R.next rule.now (map.get m id) event) ≡ Ok answer) }
    ensures err { let m = held slots.old in
        IfErr result (λ refusal. RefusedAs Refusal.NoMemory refusal
        (refusal_of (judged m calls id (R.next rule.now (map.get m id) event)))) }
    ensures kept { OnErr result (held slots.new ≡ held slots.old) }
    ensures memory { IsErrOf result Refusal.NoMemory
        → (map.get (held slots.old) id ≡ None) × IsSome (R.next rule.now None event).entry }
{
    if is_front(slots, id) {
        return step_front(rule, slots, id, event);
    }
    match slots.others.get_mut(&id) {
        Some(slot) => {
            let outcome = rule.step_in(slot, event);
            if slot.is_none() {
                drop_slot(&mut slots.others, id);
            }
            outcome.map_err(Refusal::Rule)
        }
        None => start(rule, calls, slots, id, event),
    }
}

/// The entry that is stored for an id.
pub fn entry_in<E>(slots: &Slots<E>, id: u32) -> Option<&E>
    ensures { option_copied result ≡ map.get (held slots.now) id }
{
    if slots.id == id {
        slots.front.as_ref()
    } else {
        entry_among(&slots.others, id)
    }
}

/// Whether the id has an entry whose call is open.
pub fn is_open<R: CallRule>(rule: &R, slots: &Slots<R::Entry>, id: u32) -> bool
    ensures { IsTrue result
        ↔ (option_map (R.closed rule.now) (map.get (held slots.now) id) ≡ Some false) }
{
    match entry_in(slots, id) {
        Some(entry) => !rule.is_closed(entry),
        None => false,
    }
}

/// The ids that have an entry, ascending.
pub fn ids_of<E>(alloc: Global, slots: &Slots<E>) -> Result<Vec<u32>, AllocError>
    requires { IsWhole slots.now }
    ensures { IfOk result (λ ids. ids.items ≡ map.keys (held slots.now)) }
{
    let mut ids = listed_keys(alloc, &slots.others)?;
    if slots.front.is_none() {
        return Ok(ids);
    }
    ids.insert(place_of(slots.id, ids.as_slice()), slots.id)?;
    Ok(ids)
}

/// The number of entries.
#[inline(always)]
pub fn count_of<E>(slots: &Slots<E>) -> usize
    requires { IsWhole slots.now }
    ensures { result ≡ map.len (held slots.now) }
{
    match &slots.front {
        Some(_) => count_among(&slots.others) + 1,
        None => count_among(&slots.others),
    }
}

/// Takes the entry of an id out, with its slot.
#[inline(always)]
pub fn take_slot<E: Drop>(slots: &mut Slots<E>, id: u32) -> Option<E>
    requires { IsWhole slots.old }
    ensures value { result ≡ map.get (held slots.old) id }
    ensures ok { held slots.new ≡ map.remove (held slots.old) id }
    ensures whole { IsWhole slots.new }
{
    if slots.id == id {
        slots.front.take()
    } else {
        take_among(&mut slots.others, id)
    }
}

// Whether the entry of an id is the one in front.
#[inline(always)]
fn is_front<E>(slots: &Slots<E>, id: u32) -> bool
    ensures { result ≡ ((slots.now.id == id) && is_some slots.now.front) }
{
    slots.id == id && slots.front.is_some()
}

// Steps the call whose entry is in front, where it lies.
#[inline(always)]
fn step_front<R: CallRule>(
    rule: &R,
    slots: &mut Slots<R::Entry>,
    id: u32,
    event: R::Event,
) -> Result<R::Answer, Refusal<R::Fault>>
    requires whole { IsWhole slots.old }
    requires front { slots.old.id ≡ id }
    ensures whole { IsWhole slots.new }
    ensures entry { let m = held slots.old in
        held slots.new ≡ put m id (R.next rule.now (map.get m id) event).entry }
    ensures outcome { let m = held slots.old in
        result ≡ by_rule (R.next rule.now (map.get m id) event).outcome }
{
    rule.step_in(&mut slots.front, event).map_err(Refusal::Rule)
}

// Steps the call of an id that has no entry.
#[inline(always)]
fn start<R: CallRule>(
    rule: &R,
    calls: u32,
    slots: &mut Slots<R::Entry>,
    id: u32,
    event: R::Event,
) -> Result<R::Answer, Refusal<R::Fault>>
    requires table { IsTable calls slots.old }
    requires absent { map.get (held slots.old) id ≡ None }
    ensures table { IsTable calls slots.new }
    ensures ok { OnOk result (held slots.new
        ≡ put (held slots.old) id (R.next rule.now None event).entry) }
    ensures value { IfOk result (λ answer.
        judged (held slots.old) calls id (R.next rule.now None event) ≡ Ok answer) }
    ensures err { IfErr result (λ refusal. RefusedAs Refusal.NoMemory refusal
        (refusal_of (judged (held slots.old) calls id (R.next rule.now None event)))) }
    ensures kept { OnErr result (held slots.new ≡ held slots.old) }
    ensures memory { IsErrOf result Refusal.NoMemory → IsSome (R.next rule.now None event).entry }
{
    let step = rule.step(None, event);
    let answer = step.outcome.map_err(Refusal::Rule)?;
    if let Some(entry) = step.entry {
        add_slot(calls, slots, id, entry)?;
    }
    Ok(answer)
}

// Adds a slot with this entry, where there is room for one more: in front, if nothing is there.
#[inline(always)]
fn add_slot<E: Drop, F>(
    calls: u32,
    slots: &mut Slots<E>,
    id: u32,
    entry: E,
) -> Result<(), Refusal<F>>
    requires table { IsTable calls slots.old }
    requires absent { map.get (held slots.old) id ≡ None }
    ensures table { IsTable calls slots.new }
    ensures ok { OnOk result (held slots.new ≡ put (held slots.old) id (Some entry)) }
    ensures room { OnOk result (is_one_too_many (held slots.old) calls id (Some entry) ≡ false) }
    ensures err { IfErr result (λ refusal. RefusedAs Refusal.NoMemory refusal
        (room_refusal (held slots.old) calls id (Some entry))) }
    ensures kept { OnErr result (held slots.new ≡ held slots.old) }
{
    if count_of(slots) == calls as usize {
        return Err(Refusal::TooManyCalls);
    }
    if slots.front.is_some() {
        return add_other(slots, id, entry);
    }
    slots.id = id;
    slots.front = Some(entry);
    Ok(())
}

// Adds a slot beside the one in front.
fn add_other<E: Drop, F>(slots: &mut Slots<E>, id: u32, entry: E) -> Result<(), Refusal<F>>
    requires whole { IsWhole slots.old }
    requires front { IsSome slots.old.front }
    requires absent { map.get (held slots.old) id ≡ None }
    ensures whole { IsWhole slots.new }
    ensures ok { OnOk result (held slots.new ≡ put (held slots.old) id (Some entry)) }
    ensures err { IfErr result (λ refusal. refusal ≡ Refusal.NoMemory) }
    ensures kept { OnErr result (held slots.new ≡ held slots.old) }
{
    match slots.others.insert(id, Some(entry)) {
        Ok(_) => Ok(()),
        Err(_) => Err(Refusal::NoMemory),
    }
}

// The entry that another slot has for an id.
fn entry_among<E>(table: &BTreeMap<u32, Option<E>>, id: u32) -> Option<&E>
    ensures { option_copied result ≡ map.get (entries_of table.now.entries) id }
{
    table.get(&id)?.as_ref()
}

// The number of other slots, none of which is empty.
fn count_among<E>(table: &BTreeMap<u32, Option<E>>) -> usize
    requires { NoneEmpty table.now.entries }
    ensures value { result ≡ map.len (entries_of table.now.entries) }
    ensures small { result < 2 ^ 63 }
{
    table.len()
}

// The keys of a map, of which the contract also says that they ascend.
fn listed_keys<E>(alloc: Global, table: &BTreeMap<u32, Option<E>>) -> Result<Vec<u32>, AllocError>
    ensures value { IfOk result (λ ids. ids.items ≡ keys table.now) }
    ensures ordered { IsOrdered nat_cmp table.now }
{
    table.keys().copied().collect(alloc)
}

// The index at which an id has its place among ids that ascend.
fn place_of(id: u32, ids: &[u32]) -> usize
    ensures within { result ≤ length ids.now }
    ensures value { placed id ids.now ≡ insert ids.now result id }
{
    for at in 0..ids.len() {
        if id <= ids[at] {
            return at;
        }
    }
    ids.len()
}

// Takes the entry of an id that another slot has out, with its slot.
fn take_among<E: Drop>(table: &mut BTreeMap<u32, Option<E>>, id: u32) -> Option<E>
    requires { NoneEmpty table.old.entries }
    ensures value { result ≡ map.get (entries_of table.old.entries) id }
    ensures ok { entries_of table.new.entries ≡ map.remove (entries_of table.old.entries) id }
    ensures full { NoneEmpty table.new.entries }
{
    table.remove(&id)?
}

// Removes the slot of this id, for a step that left it empty.
fn drop_slot<E: Drop>(table: &mut BTreeMap<u32, Option<E>>, id: u32)
    ensures { Updates nat_cmp table.old table.new id None }
{
    table.remove(&id);
}
