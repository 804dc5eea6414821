//! The gatherer `Gather`: the octets of fragmented messages, joined by request id within a limit
//! (CORBA 3.3 Part 2, 9.4.9). Its steps are in `lists.rt`; what contracts see of it is
//! `specs/Gathered.antt`.
ghost use Rattle.std.specs.Prelude.{◌≡◌, ◌≤◌, ◌^◌, ◌==◌, ◌+◌, length, is_some, Some, None, IfSome, OnOk, OnErr, IfOk, IfErr};
ghost use Rattle.std.specs.Option.{option_map};
ghost use Rattle.std.specs.FinMap as map;
ghost use Rattle.giop_ids.specs.ById.{put};
ghost use Rattle.giop_ids.specs.Runs.{Does, RefusedAs};
ghost use Rattle.giop_frag.specs.Gathered.{grown, total_of, is_over, begin_fault, add_fault, finish_fault, blocks_after, blocks_of, IsBlocksAfter};
ghost use Rattle.giop_frag.specs.Runs.{gather_rules, call_reply, finish_reply, Begins, Adds, IsFinished, IsDiscarded, IsDone};

use crate::joined::Joined;
use crate::pool::Pool;
use crate::{Chain, GatherFault, lists};
use giop_cdr::{OctetList, Order};
use std::alloc::Global;
use std::collections::BTreeMap;
use std::fmt;
use std::marker::Model;

/// Octets of many messages, each joined under its id, and no more of them together than a limit.
///
/// Contracts see the limit, the finite map from ids to byte order and octets, and the number of
/// blocks.
#[derive(Drop)]
pub struct Gather {
    alloc: Global,
    limit: usize,
    // The number of all gathered octets.
    total: usize,
    // All blocks. None is freed: a block that a list leaves serves later lists.
    pool: Pool,
    table: BTreeMap<u32, Joined>,
}

impl Model for Gather {
    ghost use Rattle.giop_frag.specs.Gathered.{Gathered, gathered_code};

    ghost Value = { Gathered };

    ghost coded = { gathered_code };

    ghost use Rattle.std.specs.Prelude.{length};
    ghost use Rattle.giop_frag.specs.Placed.{lists_at, IsTable};

    ghost view = { λ g. record {
      limit = g.limit;
      blocks = length g.pool.blocks;
      lists = lists_at g.pool.blocks g.table.entries;
    } };

    ghost invariant = { λ g. IsTable g.limit g.total g.pool g.table.entries };
}

impl Gather {
    /// Nothing gathered, and at most `limit` octets to come. It takes no memory.
    pub fn new(alloc: Global, limit: usize) -> Gather
        requires { limit ≤ 2 ^ 62 }
        ensures value { result ≡ record { limit = limit; blocks = 0; lists = map.empty } }
        ensures within { total_of result.lists ≤ result.limit }
    {
        Gather {
            alloc,
            limit,
            total: 0,
            pool: Pool::new(alloc),
            table: BTreeMap::new(alloc),
        }
    }

    /// Begins the list of an id that has none, with `octets`, the first of a message in this byte
    /// order. `contains` tests whether the id has one.
    ///
    /// Refusals, in this order: `GatherFull`, exactly where `total` and the number of `octets`
    /// together are more than the limit; `NoMemory`. A refusal leaves the limit and what is
    /// gathered as they were; only `NoMemory` may leave more blocks, and no more than these
    /// octets need.
    pub fn begin(&mut self, id: u32, order: Order, octets: &[u8]) -> Result<(), GatherFault>
        requires { map.get self.old.lists id ≡ None }
        ensures ok { let lists = put self.old.lists id
            (Some (record { order = order; octets = octets.now })) in
            OnOk result (self.new ≡ record self.old {
              lists = lists;
              blocks = blocks_after self.old.blocks lists;
            }) }
        ensures only { OnOk result (begin_fault self.old (length octets.now) ≡ None) }
        ensures err { IfErr result (λ fault. RefusedAs GatherFault.NoMemory fault
            (begin_fault self.old (length octets.now))) }
        ensures kept { OnErr result (self.new ≡ record self.old { blocks = self.new.blocks }) }
        ensures blocks { IfErr result (λ fault. IsBlocksAfter fault self.old.blocks
            (put self.old.lists id (Some (record { order = order; octets = octets.now })))
            self.new.blocks) }
        ensures exact { Does (gather_rules self.old.limit) self.old.lists
            (record { id = id; what = Begins order octets.now }) (call_reply result)
            self.new.lists }
        ensures within { total_of self.new.lists ≤ self.new.limit }
    {
        if self.is_over(octets.len()) {
            return Err(GatherFault::GatherFull);
        }
        lists::begin_list(
            self.alloc,
            &mut self.table,
            &mut self.pool,
            id,
            order,
            octets,
        )?;
        self.total += octets.len();
        Ok(())
    }

    /// Appends `octets` to those of the id.
    ///
    /// Refusals, in this order: `Stray`, exactly where the id has none; `OrderDiffers`, where it
    /// began in the other byte order; `GatherFull`, where `total` and the number of `octets`
    /// together are more than the limit; `NoMemory`. A refusal leaves the limit and what is
    /// gathered as they were; only `NoMemory` may leave more blocks, and no more than these
    /// octets need.
    #[inline(always)]
    pub fn add(&mut self, id: u32, order: Order, octets: &[u8]) -> Result<(), GatherFault>
        ensures ok { let lists = put self.old.lists id
            (grown (map.get self.old.lists id) octets.now) in
            OnOk result (self.new ≡ record self.old {
              lists = lists;
              blocks = blocks_after self.old.blocks lists;
            }) }
        ensures only { OnOk result (add_fault self.old id order (length octets.now) ≡ None) }
        ensures err { IfErr result (λ fault. RefusedAs GatherFault.NoMemory fault
            (add_fault self.old id order (length octets.now))) }
        ensures kept { OnErr result (self.new ≡ record self.old { blocks = self.new.blocks }) }
        ensures blocks { IfErr result (λ fault. IsBlocksAfter fault self.old.blocks
            (put self.old.lists id (grown (map.get self.old.lists id) octets.now))
            self.new.blocks) }
        ensures exact { Does (gather_rules self.old.limit) self.old.lists
            (record { id = id; what = Adds order octets.now }) (call_reply result)
            self.new.lists }
        ensures within { total_of self.new.lists ≤ self.new.limit }
    {
        let over = self.is_over(octets.len());
        lists::add_to_list(&mut self.table, &mut self.pool, over, id, order, octets)?;
        self.total += octets.len();
        Ok(())
    }

    /// Takes the id out, and returns its byte order and all its octets, as they were joined, in one
    /// list.
    ///
    /// Refusals, in this order: `Stray`, exactly where the id has none; `NoMemory`, when out of
    /// memory for that list. A refusal changes nothing.
    pub fn finish(&mut self, id: u32) -> Result<(Order, OctetList), GatherFault>
        ensures ok { OnOk result
            (self.new ≡ record self.old { lists = map.remove self.old.lists id }) }
        ensures value { IfOk result (λ joined. map.get self.old.lists id
            ≡ Some (record { order = joined.0; octets = joined.1 })) }
        ensures err { IfErr result (λ fault. RefusedAs GatherFault.NoMemory fault
            (finish_fault (map.get self.old.lists id))) }
        ensures kept { OnErr result (self.new ≡ self.old) }
        ensures exact { Does (gather_rules self.old.limit) self.old.lists
            (record { id = id; what = IsFinished }) (finish_reply result) self.new.lists }
        ensures within { total_of self.new.lists ≤ self.new.limit }
    {
        let Some((order, chain)) = self.chain(id) else {
            return Err(GatherFault::Stray);
        };
        let octets = chain.to_list(self.alloc)?;
        self.take(id);
        Ok((order, octets))
    }

    /// Takes the id out, and drops its octets; does nothing where it has none. It takes no memory.
    pub fn discard(&mut self, id: u32)
        ensures ok { self.new ≡ record self.old { lists = map.remove self.old.lists id } }
        ensures exact { Does (gather_rules self.old.limit) self.old.lists
            (record { id = id; what = IsDiscarded }) (Ok IsDone) self.new.lists }
        ensures within { total_of self.new.lists ≤ self.new.limit }
    {
        self.take(id);
    }

    /// The byte order and the octets of the id, where they lie; `None` where the id has none. It
    /// takes no memory.
    pub fn chain(&self, id: u32) -> Option<(Order, Chain<'_>)>
        ensures value { result
            ≡ option_map (λ p. (p.order, p.octets)) (map.get self.now.lists id) }
        ensures within { IfSome result (λ found. length found.1 ≤ self.now.limit) }
        ensures most { IfSome result (λ found. length found.1 ≤ 2 ^ 62) }
    {
        lists::chain_of(&self.table, &self.pool, id)
    }

    /// Whether the id has been begun and not taken out. It takes no memory.
    pub fn contains(&self, id: u32) -> bool
        ensures { result ≡ is_some (map.get self.now.lists id) }
    {
        lists::is_in(&self.table, &self.pool, id)
    }

    /// The number of all gathered octets. It is kept, and not counted anew; it takes no memory.
    pub fn total(&self) -> usize
        ensures value { result ≡ total_of self.now.lists }
        ensures within { result ≤ self.now.limit }
    {
        self.total
    }

    /// The number of blocks of 512 octets: the most that the lists have needed at a time, each list
    /// its octets over 512, rounded up. None is freed: a block that a list leaves serves later
    /// lists.
    ///
    /// It takes no memory.
    pub fn blocks(&self) -> usize
        ensures value { result ≡ self.now.blocks }
        ensures least { blocks_of self.now.lists ≤ result }
        ensures within { result ≤ self.now.limit }
    {
        self.pool.len()
    }

    /// The most octets that may be gathered at a time.
    pub fn limit(&self) -> usize
        ensures value { result ≡ self.now.limit }
        ensures within { result ≤ 2 ^ 62 }
    {
        self.limit
    }

    /// The number of ids. It takes no memory.
    pub fn len(&self) -> usize
        ensures { result ≡ map.len self.now.lists }
    {
        lists::count_of(&self.table, &self.pool)
    }

    /// Whether there is no id.
    pub fn is_empty(&self) -> bool
        ensures { result ≡ (map.len self.now.lists == 0) }
    {
        self.len() == 0
    }

    // Takes the octets of the id out, if it has any, and counts them no longer.
    fn take(&mut self, id: u32)
        ensures ok { self.new ≡ record self.old { lists = map.remove self.old.lists id } }
        ensures within { total_of self.new.lists ≤ self.new.limit }
    {
        self.total -= lists::take_list(&mut self.table, &mut self.pool, id);
    }

    // Whether `more` octets would be too many.
    fn is_over(&self, more: usize) -> bool
        ensures { result ≡ is_over self.now.limit self.now.lists more }
    {
        more > self.limit - self.total
    }
}

/// Shows the limit, and how many octets, ids and blocks there are; not the octets themselves.
impl fmt::Debug for Gather {
    fn fmt<W: fmt::Write>(&self, f: &mut fmt::Formatter<W>) -> fmt::Result {
        f.debug_struct("Gather")
            .field("limit", &self.limit())
            .field("total", &self.total())
            .field("ids", &self.len())
            .field("blocks", &self.blocks())
            .finish()
    }
}
