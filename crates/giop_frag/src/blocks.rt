//! All blocks of a gatherer by their numbers, over the chunks in which they lie. Which chunk has
//! which number is defined in `specs/Chunks.antt`.
ghost use Rattle.std.specs.Prelude.{◌≡◌, ◌≤◌, ◌<◌, ◌+◌, ◌%◌, ◌^◌, ◌++◌, ◌∷◌, [], OnOk, OnErr, length, take, drop, slice_set};
ghost use Rattle.std.specs.List.{slice_range};
ghost use Rattle.giop_frag.specs.Blocks.{blank, block};

use crate::chunk::Chunk;
use std::alloc::{AllocError, Global};
use std::marker::Model;

/// All blocks, by number. They lie in chunks of 64: a chunk is taken in one allocation and never
/// moves, so nothing is copied when blocks are added.
#[derive(Drop)]
pub struct Blocks {
    alloc: Global,
    count: usize,
    chunks: Vec<Chunk>,
}

impl Model for Blocks {
    ghost use Rattle.std.specs.Prelude.{List, ℕ};
    ghost use Rattle.giop_frag.specs.Chunks.{in_order, AreChunks};

    ghost Value = { List (List ℕ) };

    ghost view = { λ b. in_order b.chunks.items };

    ghost invariant = { λ b. AreChunks b.chunks.items b.count };
}

impl Blocks {
    /// No block. It takes no memory.
    pub fn new(alloc: Global) -> Blocks
        ensures { result ≡ [] }
    {
        Blocks {
            alloc,
            count: 0,
            chunks: Vec::new(alloc),
        }
    }

    /// How many blocks there are.
    pub fn len(&self) -> usize
        ensures { result ≡ length self.now }
    {
        self.count
    }

    /// The octets of one block from an index up to another.
    pub fn part(&self, number: usize, from: usize, to: usize) -> &[u8]
        requires number { number < length self.now }
        requires ends { from ≤ to }
        requires within { to ≤ 512 }
        ensures { result.now ≡ slice_range (block self.now number) from to }
    {
        self.chunks[number / 64].part(number % 64, from, to)
    }

    /// Writes octets into one block from an index on.
    #[inline(always)]
    pub fn write(&mut self, number: usize, from: usize, octets: &[u8])
        requires number { number < length self.old }
        requires room { from + length octets.now ≤ 512 }
        ensures { let old = block self.old number in
            self.new ≡ slice_set self.old number
            (take from old ++ octets.now ++ drop (from + length octets.now) old) }
    {
        self.chunks[number / 64].write(number % 64, from, octets);
    }

    /// Makes a block, after all others. Out of memory, there are as many as before.
    pub fn push(&mut self) -> Result<(), AllocError>
        requires { length self.old + 1 < 2 ^ 64 }
        ensures ok { OnOk result (self.new ≡ self.old ++ blank ∷ []) }
        ensures err { OnErr result (self.new ≡ self.old) }
    {
        if self.count % 64 == 0 {
            return self.begin_chunk();
        }
        self.chunks[self.count / 64].push();
        self.count += 1;
        Ok(())
    }

    // Takes a chunk, and makes the first block in it.
    fn begin_chunk(&mut self) -> Result<(), AllocError>
        requires even { length self.old % 64 ≡ 0 }
        requires small { length self.old + 1 < 2 ^ 64 }
        ensures ok { OnOk result (self.new ≡ self.old ++ blank ∷ []) }
        ensures err { OnErr result (self.new ≡ self.old) }
    {
        let mut chunk = Chunk::new(self.alloc)?;
        chunk.push();
        self.chunks.reserve(1)?;
        self.chunks.push(chunk).unwrap();
        self.count += 1;
        Ok(())
    }
}
