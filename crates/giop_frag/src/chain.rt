//! The octets of a fragmented message as a store, which any reader of giop_cdr reads without a
//! copy.
ghost use Rattle.std.specs.Prelude.{◌≡◌, ◌+◌, ◌<◌, ◌≤◌, ◌^◌, length, IfOk};
ghost use Rattle.giop_frag.specs.Blocks.{AreChained, octets_at};

use crate::pool::Pool;
use giop_cdr::{OctetList, Octets};
use std::alloc::{AllocError, Global};
use std::marker::Model;

/// The octets gathered for an id, where they lie: in blocks, one after the other, which need not
/// lie together. `run` returns the rest of a block.
///
/// Contracts see the list of the octets.
#[derive(Drop)]
pub struct Chain<'a> {
    pool: &'a Pool,
    numbers: &'a [u32],
    size: usize,
}

impl<'a> Model for Chain<'a> {
    ghost use Rattle.std.specs.Prelude.{List, ℕ};
    ghost use Rattle.giop_frag.specs.Blocks.{AreChained, octets_at};

    ghost Value = { List ℕ };

    ghost view = { λ c. octets_at c.pool.now.blocks c.numbers.now c.size };

    ghost invariant = { λ c. AreChained c.pool.now.blocks c.numbers.now c.size };
}

impl<'a> Chain<'a> {
    // The first `size` octets of the blocks of these numbers.
    pub(crate) fn new(pool: &'a Pool, numbers: &'a [u32], size: usize) -> Chain<'a>
        requires { AreChained pool.now.blocks numbers.now size }
        ensures { result ≡ octets_at pool.now.blocks numbers.now size }
    {
        Chain {
            pool,
            numbers,
            size,
        }
    }

    // A copy of all octets, in one list.
    pub(crate) fn to_list(&self, alloc: Global) -> Result<OctetList, AllocError>
        requires { length self.now < 2 ^ 64 }
        ensures { IfOk result (λ list. list ≡ self.now) }
    {
        let mut octets = Vec::with_capacity(alloc, self.size)?;
        'runs: while octets.len() < self.len() {
            octets.extend_from_slice(self.run(octets.len()))?;
        }
        Ok(OctetList::from(octets))
    }
}

impl<'a> Octets for Chain<'a> {
    ghost octets = { λ c. c };

    fn len(&self) -> usize {
        self.size
    }

    fn at(&self, i: usize) -> u8 {
        self.run(i)[0]
    }

    fn run(&self, from: usize) -> &[u8] {
        let at = from % 512;
        let end = (at + (self.size - from)).min(512);
        self.pool.part(self.numbers[from / 512] as usize, at, end)
    }
}
