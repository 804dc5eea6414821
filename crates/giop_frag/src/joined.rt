//! One slot of a gatherer: the joined octets of one message (CORBA 3.3 Part 2, 9.4.9), by the
//! numbers of the blocks in which they lie.
ghost use Rattle.std.specs.Prelude.{◌≡◌, ◌≤◌, ◌<◌, ◌+◌, ◌-◌, ◌/◌, ◌%◌, ◌^◌, ◌++◌, [], Some, None, false, length, IfOk, IfErr, OnOk, OnErr};
ghost use Rattle.giop_ids.specs.Runs.{RefusedAs};
ghost use Rattle.giop_frag.specs.Blocks.{AreApart};
ghost use Rattle.giop_frag.specs.Gathered.{add_fault_by, blocks_for};
ghost use Rattle.giop_frag.specs.Placed.{IsFilled, IsJoinedTo, IsLeft, IsProvided, lacking, pieces_at};

use crate::GatherFault;
use crate::pool::Pool;
use giop_cdr::Order;
use std::alloc::{AllocError, Global};
use std::marker::Model;

/// Where the octets of one message lie, how many there are, and their byte order.
#[derive(Drop)]
pub struct Joined {
    order: Order,
    size: usize,
    numbers: Vec<u32>,
}

impl Model for Joined {
    ghost use Rattle.giop_frag.specs.Placed.{Placed, placed_code};
    ghost use Rattle.std.specs.Prelude.{vec_capacity};

    ghost Value = { Placed };

    ghost coded = { placed_code };

    ghost view = { λ j. record {
      order = j.order;
      size = j.size;
      numbers = j.numbers.items;
      room = vec_capacity j.numbers;
    } };
}

impl Joined {
    /// No octets, and room for the numbers of `room` blocks.
    pub fn with_room(alloc: Global, order: Order, room: usize) -> Result<Joined, AllocError>
        ensures value { IfOk result (λ joined. joined
            ≡ record { order = order; size = 0; numbers = []; room = joined.room }) }
        ensures room { IfOk result (λ joined. room ≤ joined.room) }
    {
        Ok(Joined {
            order,
            size: 0,
            numbers: Vec::with_capacity(alloc, room)?,
        })
    }

    /// Appends octets. `over` says whether they would pass the gatherer's limit.
    ///
    /// Refusals, in this order: OrderDiffers where they come in the other byte order, GatherFull
    /// where `over` is true, NoMemory.
    #[inline(always)]
    pub fn append(
        &mut self,
        pool: &mut Pool,
        over: bool,
        order: Order,
        octets: &[u8],
    ) -> Result<(), GatherFault>
        requires count { length self.old.numbers ≡ blocks_for self.old.size }
        requires apart { AreApart pool.old.blocks (self.old.numbers ++ pool.old.free) }
        requires small { over ≡ false → self.old.size + length octets.now ≤ 2 ^ 62 }
        ensures ok { OnOk result (IsJoinedTo self.old pool.old self.new pool.new octets.now) }
        ensures only { OnOk result
            (add_fault_by over (Some (pieces_at pool.old.blocks self.old)) order ≡ None) }
        ensures err { IfErr result (λ fault. RefusedAs GatherFault.NoMemory fault
            (add_fault_by over (Some (pieces_at pool.old.blocks self.old)) order)) }
        ensures kept { OnErr result (self.new ≡ record self.old { room = self.new.room }) }
        ensures left { IfErr result (λ fault.
            IsLeft fault (lacking self.old (length octets.now)) pool.old pool.new) }
    {
        if order != self.order {
            return Err(GatherFault::OrderDiffers);
        }
        if over {
            return Err(GatherFault::GatherFull);
        }
        let behind = self.size % 512;
        if behind > 0 && octets.len() <= 512 - behind {
            self.fill_last(pool, octets);
            return Ok(());
        }
        self.grow(pool, octets)?;
        Ok(())
    }

    // Appends octets, and takes memory for the blocks that they lack. Kept out of line, so that the
    // fast way for a small piece is short.
    #[inline(never)]
    fn grow(&mut self, pool: &mut Pool, octets: &[u8]) -> Result<(), AllocError>
        requires count { length self.old.numbers ≡ blocks_for self.old.size }
        requires apart { AreApart pool.old.blocks (self.old.numbers ++ pool.old.free) }
        requires small { self.old.size + length octets.now ≤ 2 ^ 62 }
        ensures ok { OnOk result (IsJoinedTo self.old pool.old self.new pool.new octets.now) }
        ensures kept { OnErr result (self.new ≡ record self.old { room = self.new.room }) }
        ensures left { OnErr result
            (IsProvided (lacking self.old (length octets.now)) pool.old pool.new) }
    {
        let lacking = blocks_for(self.size + octets.len()) - self.count();
        pool.provide(lacking)?;
        self.numbers.reserve(lacking)?;
        self.fill(pool, octets);
        Ok(())
    }

    /// Appends octets. It takes no memory: enough blocks are free, and there is room for their
    /// numbers.
    #[inline(always)]
    pub fn fill(&mut self, pool: &mut Pool, octets: &[u8])
        requires count { length self.old.numbers ≡ blocks_for self.old.size }
        requires apart { AreApart pool.old.blocks (self.old.numbers ++ pool.old.free) }
        requires small { self.old.size + length octets.now ≤ 2 ^ 62 }
        requires free { lacking self.old (length octets.now) ≤ length pool.old.free }
        requires room { blocks_for (self.old.size + length octets.now) ≤ self.old.room }
        ensures { IsFilled self.old pool.old self.new pool.new octets.now }
    {
        let size = self.size + octets.len();
        let lacking = blocks_for(size) - self.count();
        pool.take(lacking, &mut self.numbers);
        pool.write(&self.numbers, self.size, octets);
        self.size = size;
    }

    // Appends octets after those in the last block, which has room for them: the fast way for a
    // small piece.
    #[inline(always)]
    fn fill_last(&mut self, pool: &mut Pool, octets: &[u8])
        requires count { length self.old.numbers ≡ blocks_for self.old.size }
        requires apart { AreApart pool.old.blocks (self.old.numbers ++ pool.old.free) }
        requires small { self.old.size + length octets.now ≤ 2 ^ 62 }
        requires behind { 0 < self.old.size % 512 }
        requires within { self.old.size % 512 + length octets.now ≤ 512 }
        ensures { IsJoinedTo self.old pool.old self.new pool.new octets.now }
    {
        pool.write_behind(&self.numbers, self.size, octets);
        self.size += octets.len();
    }

    /// The byte order of the octets.
    pub fn order(&self) -> Order
        ensures { result ≡ self.now.order }
    {
        self.order
    }

    /// The numbers of the blocks in which the octets lie, in their order.
    pub fn numbers(&self) -> &[u32]
        ensures { result.now ≡ self.now.numbers }
    {
        self.numbers.as_slice()
    }

    // How many blocks there are.
    fn count(&self) -> usize
        ensures { result ≡ length self.now.numbers }
    {
        self.numbers.len()
    }

    /// How many octets there are.
    pub fn len(&self) -> usize
        ensures { result ≡ self.now.size }
    {
        self.size
    }
}

/// How many blocks of 512 octets so many octets need.
#[inline(always)]
pub fn blocks_for(octets: usize) -> usize
    requires { octets ≤ 2 ^ 62 }
    ensures value { result ≡ blocks_for octets }
    ensures few { result ≤ octets }
{
    (octets + 511) / 512
}
