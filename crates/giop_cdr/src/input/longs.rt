//! Sequences of longs (CORBA 3.3 Part 2, 9.3.2.5), read at once into a list of numbers.
ghost use Rattle.std.specs.Prelude.{◌≡◌, ◌*◌, ◌/◌, ◌<◌, ◌≤◌, ◌^◌, length, map, IfOk};
ghost use Rattle.std.specs.Int.{w32};
ghost use Rattle.std.specs.Simd.{first_chunks};
ghost use Rattle.giop_cdr.specs.declared.order.Order.{Order};
ghost use Rattle.giop_cdr.specs.Longs.{long_of};
ghost use Rattle.giop_cdr.specs.Reading.Values.{sequence_at, signed_at};
ghost use Rattle.giop_cdr.specs.Reading.Outcome.{Allocates};

use crate::fault::{CdrFault, CdrKind};
use crate::input::reader::CdrIn;
use crate::octets::Octets;
use crate::order::Order;
use std::alloc::{AllocError, Global};

impl<'a, S: Octets> CdrIn<'a, S> {
    /// A sequence of longs (9.3.2.5): an unsigned long count, aligned to 4, and as many longs. What
    /// it answers is what the layout `sequence (signed w32)` reads, a long after the other.
    ///
    /// Refused at the offset of the count: as Short where it isn't there, as BadCount where it is
    /// above the number of octets behind it. Else as Short at the first long that isn't there. It
    /// is NoMemory, at the offset of the count, where nothing is refused. The reader then stays
    /// where it was. Memory is taken once, for longs that are there.
    #[tactic(auto, using(crate::proofs::Reading::LongLemmas::longs_counted, crate::proofs::Reading::LongLemmas::longs_missing, crate::proofs::Reading::LongLemmas::longs_are_ok, crate::proofs::Reading::LongLemmas::longs_uncounted))]
    pub fn read_longs(&mut self, alloc: Global) -> Result<Vec<i32>, CdrFault>
        ensures value { Allocates (λ v. v.items) self.old result self.new
            (sequence_at (signed_at w32) self.old) }
        ensures countable { IfOk result (λ v. length v.items < 2 ^ 32) }
    {
        let mut ahead = self.fork();
        let count = ahead.read_count()?;
        ahead.expect_longs(count)?;
        let Ok(longs) = ahead.longs(alloc, count) else {
            return Err(CdrFault {
                at: self.place::<4>(),
                kind: CdrKind::NoMemory,
            });
        };
        ahead.advance(4 * count);
        *self = ahead;
        Ok(longs)
    }

    // The next `count` longs, which are there.
    fn longs(&self, alloc: Global, count: usize) -> Result<Vec<i32>, AllocError>
        requires there { 4 * count ≤ length self.now.rest }
        requires countable { count < 2 ^ 32 }
        ensures { IfOk result (λ v. v.items
            ≡ map (long_of self.now.order) (first_chunks 4 count self.now.rest)) }
    {
        let octets = self.here(4 * count);
        if count > 0 {
            let run = octets.run(0);
            if run.len() == 4 * count {
                return longs_in(alloc, self.order(), run);
            }
        }
        let copy = self.copy(alloc, 4 * count)?;
        longs_in(alloc, self.order(), copy.as_slice())
    }
}

// The longs that octets are, four by four.
fn longs_in(alloc: Global, order: Order, octets: &[u8]) -> Result<Vec<i32>, AllocError>
    ensures { IfOk result (λ v. v.items
        ≡ map (long_of order) (first_chunks 4 (length octets.now / 4) octets.now)) }
{
    let (fours, _) = octets.as_chunks::<4>();
    let mut longs = Vec::with_capacity(alloc, fours.len())?;
    for four in fours {
        longs.push_reserved(match order {
            Order::Big => i32::from_be_bytes(*four),
            Order::Little => i32::from_le_bytes(*four),
        });
    }
    Ok(longs)
}
