//! The steps of a `Gather` over its slots and its pool: what each leaves of the lists. How slots
//! and pool show the lists is defined in `specs/Placed.antt`.
ghost use Rattle.std.specs.Prelude.{◌≡◌, ◌≤◌, ◌+◌, ◌^◌, OnOk, OnErr, IfOk, IfErr, Some, None, false, is_some, length};
ghost use Rattle.std.specs.Option.{option_map};
ghost use Rattle.std.specs.Ordering.{nat_cmp};
ghost use Rattle.std.specs.Map.{lookup};
ghost use Rattle.std.specs.BTreeMap.{is_at};
ghost use Rattle.std.specs.FinMap as map;
ghost use Rattle.giop_ids.specs.ById.{put};
ghost use Rattle.giop_ids.specs.Runs.{RefusedAs};
ghost use Rattle.giop_frag.specs.Gathered.{grown, octets_in, add_fault_by, blocks_after, IsBlocksAfter};
ghost use Rattle.giop_frag.specs.Placed.{AreHeld, IsOpened, IsProvided, IsReady, lists_at};

use crate::joined::{Joined, blocks_for};
use crate::pool::Pool;
use crate::{Chain, GatherFault};
use giop_cdr::Order;
use std::alloc::{AllocError, Global};
use std::collections::BTreeMap;

/// Stores octets for an id that has none. All memory is taken before a slot changes.
pub fn begin_list(
    alloc: Global,
    table: &mut BTreeMap<u32, Joined>,
    pool: &mut Pool,
    id: u32,
    order: Order,
    octets: &[u8],
) -> Result<(), GatherFault>
    requires held { AreHeld pool.old table.old.entries }
    requires absent { map.get (lists_at pool.old.blocks table.old.entries) id ≡ None }
    requires small { length octets.now ≤ 2 ^ 62 }
    ensures held { AreHeld pool.new table.new.entries }
    ensures ok { let m = lists_at pool.old.blocks table.old.entries in
        OnOk result (lists_at pool.new.blocks table.new.entries
        ≡ put m id (Some (record { order = order; octets = octets.now }))) }
    ensures number { let m = lists_at pool.new.blocks table.new.entries in
        OnOk result (length pool.new.blocks ≡ blocks_after (length pool.old.blocks) m) }
    ensures err { IfErr result (λ fault. fault ≡ GatherFault.NoMemory) }
    ensures kept { OnErr result (lists_at pool.new.blocks table.new.entries
        ≡ lists_at pool.old.blocks table.old.entries) }
    ensures left { let m = lists_at pool.old.blocks table.old.entries in
        IfErr result (λ fault. IsBlocksAfter fault (length pool.old.blocks)
        (put m id (Some (record { order = order; octets = octets.now })))
        (length pool.new.blocks)) }
{
    open_list(alloc, table, pool, id, order, blocks_for(octets.len()))?;
    fill_list(table, pool, id, octets);
    Ok(())
}

// Takes all memory for a list of `wanted` blocks, and stores the list for an id that has none, with
// no octets as yet.
fn open_list(
    alloc: Global,
    table: &mut BTreeMap<u32, Joined>,
    pool: &mut Pool,
    id: u32,
    order: Order,
    wanted: usize,
) -> Result<(), AllocError>
    ensures ok { OnOk result
        (IsOpened pool.new table.old.entries table.new.entries id order wanted) }
    ensures kept { OnErr result (table.new.entries ≡ table.old.entries) }
    ensures provided { IsProvided wanted pool.old pool.new }
{
    pool.provide(wanted)?;
    let joined = Joined::with_room(alloc, order, wanted)?;
    table.insert(id, joined).map_err(|_| AllocError)?;
    Ok(())
}

// Appends octets to those of an id. It takes no memory: enough blocks are free, and there is room
// for their numbers.
fn fill_list(table: &mut BTreeMap<u32, Joined>, pool: &mut Pool, id: u32, octets: &[u8])
    requires held { AreHeld pool.old table.old.entries }
    requires ready { IsReady pool.old (lookup (is_at (nat_cmp id)) table.old.entries)
        (length octets.now) }
    ensures held { AreHeld pool.new table.new.entries }
    ensures ok { let m = lists_at pool.old.blocks table.old.entries in
        lists_at pool.new.blocks table.new.entries ≡ put m id (grown (map.get m id) octets.now) }
    ensures number { length pool.new.blocks ≡ length pool.old.blocks }
{
    if let Some(joined) = table.get_mut(&id) {
        joined.fill(pool, octets);
    }
}

/// Appends octets to those of an id. `over` says whether they would pass the limit.
///
/// Refusals, in this order: Stray where the id has none, OrderDiffers where it began in the other
/// byte order, GatherFull where `over` is true, NoMemory.
#[inline(always)]
pub fn add_to_list(
    table: &mut BTreeMap<u32, Joined>,
    pool: &mut Pool,
    over: bool,
    id: u32,
    order: Order,
    octets: &[u8],
) -> Result<(), GatherFault>
    requires held { AreHeld pool.old table.old.entries }
    requires small { let m = lists_at pool.old.blocks table.old.entries in
        over ≡ false → octets_in (map.get m id) + length octets.now ≤ 2 ^ 62 }
    ensures held { AreHeld pool.new table.new.entries }
    ensures ok { let m = lists_at pool.old.blocks table.old.entries in
        OnOk result (lists_at pool.new.blocks table.new.entries
        ≡ put m id (grown (map.get m id) octets.now)) }
    ensures number { let m = lists_at pool.new.blocks table.new.entries in
        OnOk result (length pool.new.blocks ≡ blocks_after (length pool.old.blocks) m) }
    ensures only { let m = lists_at pool.old.blocks table.old.entries in
        OnOk result (add_fault_by over (map.get m id) order ≡ None) }
    ensures err { let m = lists_at pool.old.blocks table.old.entries in
        IfErr result (λ fault. RefusedAs GatherFault.NoMemory fault
        (add_fault_by over (map.get m id) order)) }
    ensures kept { OnErr result (lists_at pool.new.blocks table.new.entries
        ≡ lists_at pool.old.blocks table.old.entries) }
    ensures left { let m = lists_at pool.old.blocks table.old.entries in
        IfErr result (λ fault. IsBlocksAfter fault (length pool.old.blocks)
        (put m id (grown (map.get m id) octets.now)) (length pool.new.blocks)) }
{
    match table.get_mut(&id) {
        Some(joined) => joined.append(pool, over, order, octets),
        None => Err(GatherFault::Stray),
    }
}

/// Takes the octets of an id out, and makes their blocks free again. It returns how many octets
/// there were.
pub fn take_list(table: &mut BTreeMap<u32, Joined>, pool: &mut Pool, id: u32) -> usize
    requires held { AreHeld pool.old table.old.entries }
    ensures held { AreHeld pool.new table.new.entries }
    ensures value { let m = lists_at pool.old.blocks table.old.entries in
        result ≡ octets_in (map.get m id) }
    ensures ok { lists_at pool.new.blocks table.new.entries
        ≡ map.remove (lists_at pool.old.blocks table.old.entries) id }
    ensures number { length pool.new.blocks ≡ length pool.old.blocks }
{
    match table.remove(&id) {
        Some(joined) => {
            pool.give_back(joined.numbers());
            joined.len()
        }
        None => 0,
    }
}

/// The byte order and the octets of an id, where they lie.
pub fn chain_of<'a>(
    table: &'a BTreeMap<u32, Joined>,
    pool: &'a Pool,
    id: u32,
) -> Option<(Order, Chain<'a>)>
    requires held { AreHeld pool.now table.now.entries }
    ensures { result ≡ option_map (λ p. (p.order, p.octets))
        (map.get (lists_at pool.now.blocks table.now.entries) id) }
{
    let joined = table.get(&id)?;
    Some((
        joined.order(),
        Chain::new(pool, joined.numbers(), joined.len()),
    ))
}

/// Whether a list is stored for the id.
pub fn is_in(table: &BTreeMap<u32, Joined>, pool: &Pool, id: u32) -> bool
    ensures { result ≡ is_some (map.get (lists_at pool.now.blocks table.now.entries) id) }
{
    table.contains_key(&id)
}

/// The number of lists.
pub fn count_of(table: &BTreeMap<u32, Joined>, pool: &Pool) -> usize
    ensures { result ≡ map.len (lists_at pool.now.blocks table.now.entries) }
{
    table.len()
}
