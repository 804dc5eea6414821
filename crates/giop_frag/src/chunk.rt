//! The allocation of blocks: 64 at a time. A chunk is taken whole and never grows, so that blocks
//! never move.
ghost use Rattle.std.specs.Prelude.{◌≡◌, ◌≤◌, ◌<◌, ◌+◌, ◌++◌, ◌∷◌, [], IfOk, length, take, drop, slice_set};
ghost use Rattle.std.specs.List.{slice_range};
ghost use Rattle.giop_frag.specs.Blocks.{blank, block};

use crate::block::Block;
use std::alloc::{AllocError, Global};
use std::marker::Model;

/// Up to 64 blocks. Their memory is taken in one allocation, and never moves.
#[derive(Drop)]
pub struct Chunk {
    blocks: Vec<Block>,
}

impl Model for Chunk {
    ghost use Rattle.std.specs.Prelude.{List, ℕ, vec_capacity, ◌≤◌};

    ghost Value = { List (List ℕ) };

    ghost view = { λ c. c.blocks.items };

    ghost invariant = { λ c. 64 ≤ vec_capacity c.blocks };
}

impl Chunk {
    /// No block as yet, and room for 64.
    pub fn new(alloc: Global) -> Result<Chunk, AllocError>
        ensures { IfOk result (λ chunk. chunk ≡ []) }
    {
        Ok(Chunk {
            blocks: Vec::with_capacity(alloc, 64)?,
        })
    }

    /// Makes a block, after the others. It takes no memory.
    pub fn push(&mut self)
        requires { length self.old < 64 }
        ensures { self.new ≡ self.old ++ blank ∷ [] }
    {
        self.blocks.push(Block::new()).unwrap();
    }

    /// The octets of one block from an index up to another.
    pub fn part(&self, at: usize, from: usize, to: usize) -> &[u8]
        requires at { at < length self.now }
        requires ends { from ≤ to }
        requires within { to ≤ 512 }
        ensures { result.now ≡ slice_range (block self.now at) from to }
    {
        self.blocks[at].part(from, to)
    }

    /// Writes octets into one block from an index on.
    #[inline(always)]
    pub fn write(&mut self, at: usize, from: usize, octets: &[u8])
        requires at { at < length self.old }
        requires room { from + length octets.now ≤ 512 }
        ensures { let old = block self.old at in
            self.new ≡ slice_set self.old at
            (take from old ++ octets.now ++ drop (from + length octets.now) old) }
    {
        self.blocks[at].write(from, octets);
    }
}
