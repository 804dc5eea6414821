//! The blocks of a gatherer, and the numbers of the free ones. A free block is used before another
//! is made.
ghost use Rattle.std.specs.Prelude.{◌≡◌, ◌≤◌, ◌<◌, ◌+◌, ◌-◌, ◌*◌, ◌%◌, ◌^◌, ◌++◌, [], OnOk, OnErr, length, take, drop, slice_set, vec_len, vec_capacity};
ghost use Rattle.std.specs.List.{slice_range};
ghost use Rattle.giop_frag.specs.Blocks.{AreApart, AreWhole, AreWritten, block, made, octets_at};
ghost use Rattle.giop_frag.specs.Placed.{IsProvided};

use crate::blocks::Blocks;
use std::alloc::{AllocError, Global};
use std::marker::Model;

/// All blocks of a gatherer, by number, and the numbers of those that serve no list. None is freed
/// while the pool lives.
#[derive(Drop)]
pub struct Pool {
    blocks: Blocks,
    // It has room for the number of each block, so a block becomes free without memory.
    free: Vec<u32>,
}

impl Model for Pool {
    ghost use Rattle.giop_frag.specs.Blocks.{IsRoomy, Pooled, pooled_code};

    ghost Value = { Pooled };

    ghost coded = { pooled_code };

    ghost view = { λ p. record { blocks = p.blocks; free = p.free.items } };

    ghost use Rattle.std.specs.Prelude.{vec_capacity};

    ghost invariant = { λ p. IsRoomy p.blocks p.free.items (vec_capacity p.free) };
}

impl Pool {
    /// No block. It takes no memory.
    pub fn new(alloc: Global) -> Pool
        ensures { result ≡ record { blocks = []; free = [] } }
    {
        Pool {
            blocks: Blocks::new(alloc),
            free: Vec::new(alloc),
        }
    }

    /// How many blocks there are.
    pub fn len(&self) -> usize
        ensures { result ≡ length self.now.blocks }
    {
        self.blocks.len()
    }

    /// How many of them are free. Each has 512 octets.
    pub fn spare(&self) -> usize
        ensures value { result ≡ length self.now.free }
        ensures whole { AreWhole self.now.blocks }
    {
        self.free.len()
    }

    /// The octets of one block from an index up to another.
    pub fn part(&self, number: usize, from: usize, to: usize) -> &[u8]
        requires number { number < length self.now.blocks }
        requires ends { from ≤ to }
        requires within { to ≤ 512 }
        ensures { result.now ≡ slice_range (block self.now.blocks number) from to }
    {
        self.blocks.part(number, from, to)
    }

    /// Makes blocks until `wanted` of them are free. Out of memory, those that were made stay.
    #[inline(always)]
    pub fn provide(&mut self, wanted: usize) -> Result<(), AllocError>
        ensures ok { OnOk result (wanted ≤ length self.new.free) }
        ensures provided { IsProvided wanted self.old self.new }
    {
        while self.spare() < wanted {
            self.make()?;
        }
        Ok(())
    }

    /// Takes `n` free blocks: their numbers are appended to `into`, which has room for them.
    #[inline(always)]
    pub fn take(&mut self, n: usize, into: &mut Vec<u32>)
        requires free { n ≤ length self.old.free }
        requires room { vec_len into.old + n ≤ vec_capacity into.old }
        ensures value { into.new.items
            ≡ into.old.items ++ drop (length self.old.free - n) self.old.free }
        ensures ok { self.new
            ≡ record self.old { free = take (length self.old.free - n) self.old.free } }
        ensures whole { AreWhole self.new.blocks }
    {
        let left = self.free.len() - n;
        if n == 0 {
            return;
        }
        into.extend_from_slice(&self.free[left..]).unwrap();
        self.free.truncate(left);
    }

    /// Makes the blocks of these numbers free again.
    pub fn give_back(&mut self, numbers: &[u32])
        requires { length self.old.free + length numbers.now ≤ length self.old.blocks }
        ensures { self.new ≡ record self.old { free = self.old.free ++ numbers.now } }
    {
        self.free.extend_from_slice(numbers).unwrap();
    }

    /// Writes octets into these blocks from index `at` on, which counts over all of them, one after
    /// the other.
    #[inline(always)]
    pub fn write(&mut self, numbers: &[u32], at: usize, octets: &[u8])
        requires whole { AreWhole self.old.blocks }
        requires apart { AreApart self.old.blocks numbers.now }
        requires room { at + length octets.now ≤ 512 * length numbers.now }
        requires small { at + length octets.now ≤ 2 ^ 62 }
        ensures value { octets_at self.new.blocks numbers.now (at + length octets.now)
            ≡ octets_at self.old.blocks numbers.now at ++ octets.now }
        ensures written { AreWritten numbers.now self.old.blocks self.new.blocks }
        ensures free { self.new.free ≡ self.old.free }
        ensures whole { AreWhole self.new.blocks }
    {
        let mut done = 0;
        while done < octets.len() {
            let place = at + done;
            let n = (512 - place % 512).min(octets.len() - done);
            self.write_part(
                numbers[place / 512] as usize,
                place % 512,
                &octets[done..done + n],
            );
            done += n;
        }
    }

    /// Writes octets into these blocks from index `at` on, where they follow others in one block
    /// and fit into it: the fast way for a small piece.
    #[inline(always)]
    pub fn write_behind(&mut self, numbers: &[u32], at: usize, octets: &[u8])
        requires apart { AreApart self.old.blocks numbers.now }
        requires behind { 0 < at % 512 }
        requires within { at % 512 + length octets.now ≤ 512 }
        requires room { at ≤ 512 * length numbers.now }
        ensures value { octets_at self.new.blocks numbers.now (at + length octets.now)
            ≡ octets_at self.old.blocks numbers.now at ++ octets.now }
        ensures written { AreWritten numbers.now self.old.blocks self.new.blocks }
        ensures free { self.new.free ≡ self.old.free }
        ensures before { AreWhole self.old.blocks }
        ensures whole { AreWhole self.new.blocks }
    {
        self.write_part(numbers[at / 512] as usize, at % 512, octets);
    }

    // Makes a block, which is free. Refused where its number would not fit a `u32`. Out of line, so
    // that `provide` is short.
    #[inline(never)]
    fn make(&mut self) -> Result<(), AllocError>
        ensures ok { OnOk result (self.new ≡ made self.old) }
        ensures err { OnErr result (self.new ≡ self.old) }
    {
        let Ok(number) = u32::try_from(self.blocks.len()) else {
            return Err(AllocError);
        };
        self.free.reserve(self.blocks.len() - self.free.len() + 1)?;
        self.blocks.push()?;
        self.free.push(number).unwrap();
        Ok(())
    }

    // Writes octets into one block from an index on.
    #[inline(always)]
    fn write_part(&mut self, number: usize, from: usize, octets: &[u8])
        requires number { number < length self.old.blocks }
        requires room { from + length octets.now ≤ 512 }
        ensures before { AreWhole self.old.blocks }
        ensures whole { AreWhole self.new.blocks }
        ensures ok { let old = block self.old.blocks number in
            self.new ≡ record self.old {
              blocks = slice_set self.old.blocks number
                  (take from old ++ octets.now ++ drop (from + length octets.now) old);
            } }
    {
        self.blocks.write(number, from, octets);
    }
}
