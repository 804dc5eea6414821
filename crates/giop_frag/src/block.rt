//! One block of 512 octets, the unit in which gathered octets are stored. That number is written
//! out wherever this crate's files and specs count octets of blocks.
ghost use Rattle.std.specs.Prelude.{◌≡◌, ◌≤◌, ◌+◌, ◌++◌, length, take, drop};
ghost use Rattle.std.specs.List.{slice_range};
ghost use Rattle.giop_frag.specs.Blocks.{blank};

use std::marker::Model;

/// A block: 512 octets.
#[derive(Drop)]
pub struct Block {
    octets: [u8; 512],
}

impl Model for Block {
    ghost use Rattle.std.specs.Prelude.{List, ℕ, length, ◌≡◌};

    ghost Value = { List ℕ };

    ghost view = { λ b. b.octets };

    ghost invariant = { λ b. length b.octets ≡ 512 };
}

impl Block {
    /// A block whose octets mean nothing yet.
    #[inline(always)]
    pub fn new() -> Block
        ensures { result ≡ blank }
    {
        Block { octets: [0; 512] }
    }

    /// Writes octets over those from an index on.
    #[inline(always)]
    pub fn write(&mut self, from: usize, octets: &[u8])
        requires { from + length octets.now ≤ 512 }
        ensures { self.new
            ≡ take from self.old ++ octets.now ++ drop (from + length octets.now) self.old }
    {
        copy(&mut self.octets[from..from + octets.len()], octets);
    }

    /// The octets from one index up to another.
    pub fn part(&self, from: usize, to: usize) -> &[u8]
        requires ends { from ≤ to }
        requires within { to ≤ 512 }
        ensures { result.now ≡ slice_range self.now from to }
    {
        &self.octets[from..to]
    }
}

// Writes octets over as many others. From 16 to 32 they are copied as the first 16 and the last 16,
// which may overlap: arrays of a known size lie in registers, and are copied without a call.
#[inline(always)]
fn copy(to: &mut [u8], octets: &[u8])
    requires { length to.old ≡ length octets.now }
    ensures { to.new ≡ octets.now }
{
    let n = octets.len();
    if 16 <= n && n <= 32 {
        let mut first = [0u8; 16];
        let mut last = [0u8; 16];
        first.copy_from_slice(&octets[..16]);
        last.copy_from_slice(&octets[n - 16..]);
        to[..16].copy_from_slice(&first);
        to[n - 16..].copy_from_slice(&last);
    } else {
        copy_any(to, octets);
    }
}

// Writes any number of octets over as many others. Kept out of line, so that the copy of a small
// piece is short.
#[inline(never)]
fn copy_any(to: &mut [u8], octets: &[u8])
    requires { length to.old ≡ length octets.now }
    ensures { to.new ≡ octets.now }
{
    to.copy_from_slice(octets);
}
