ghost use Rattle.std.specs.Prelude.{◌≡◌, ◌≤◌, length, IfOk, IfErr};
ghost use Rattle.giop_cdr.specs.Cursor.{place};
ghost use Rattle.giop_cdr.specs.Reading.{count_at, octets_at, string_at, passes};
ghost use Rattle.giop_cdr.specs.Outcome.{Reads, Allocates};

use crate::fault::{CdrFault, CdrKind};
use crate::octets::Octets;
use crate::reader::CdrIn;
use std::alloc::Global;

// Whether a length is above a bound, where 0 is no bound.
fn passes(bound: u32, length: usize) -> bool
    ensures { result ≡ passes bound length }
{
    bound != 0 && (bound as usize) < length
}

impl<'a, S: Octets> CdrIn<'a, S> {
    // The count of a sequence or the length of a string: no more than the octets behind it.
    #[tactic(auto, unfolding(crate::specs::Reading::count_at))]
    pub(crate) fn read_count(&mut self) -> Result<usize, CdrFault>
        ensures value { Reads self.old result self.new (count_at self.old) }
        ensures within { IfOk result (λ count. count ≤ length self.new.rest) }
        ensures place { IfErr result (λ e. e.at ≡ place 4 self.old) }
    {
        let mut ahead = self.fork();
        let count = ahead.read_ulong()? as usize;
        if ahead.remaining() < count {
            return Err(CdrFault {
                at: self.place::<4>(),
                kind: CdrKind::BadCount,
            });
        }
        *self = ahead;
        Ok(count)
    }

    /// A sequence of octets (9.3.2.3): an unsigned long length, aligned to 4, and as many octets.
    /// A `bound` of 0 is none.
    ///
    /// Refused, all at the offset of the length: as Short where it isn't there, as BadCount where it
    /// is above the number of octets behind it, as BoundPassed where it is above `bound`, as NoMemory
    /// where memory is wanting. The first of these that holds is the answer, and the reader stays
    /// where it was. No memory is asked for a length that is refused.
    #[tactic(auto, unfolding(crate::specs::Reading::octets_at))]
    pub fn read_octets(&mut self, alloc: Global, bound: u32) -> Result<Vec<u8>, CdrFault>
        ensures value { Allocates (λ v. v.items) self.old result self.new (octets_at bound self.old) }
        ensures place { IfErr result (λ e. e.at ≡ place 4 self.old) }
    {
        let mut ahead = self.fork();
        let count = ahead.read_count()?;
        let at = self.place::<4>();
        if passes(bound, count) {
            return Err(CdrFault {
                at,
                kind: CdrKind::BoundPassed,
            });
        }
        let Ok(octets) = ahead.copy(alloc, count) else {
            return Err(CdrFault {
                at,
                kind: CdrKind::NoMemory,
            });
        };
        ahead.advance(count);
        *self = ahead;
        Ok(octets)
    }

    /// A string (9.3.2.7): an unsigned long length, aligned to 4, that counts one terminating null,
    /// the octets, the null. What is given are the octets before the null. A length of 0 is read as
    /// the empty string. A `bound` of 0 is none, another counts the octets without the null.
    ///
    /// Refused, all at the offset of the length: as Short where it isn't there, as BadCount where it
    /// is above the number of octets behind it, as BadString where no null is at the end or another
    /// one is inside, as BoundPassed where the string is longer than `bound`, as NoMemory where memory
    /// is wanting. The first of these that holds is the answer, and the reader stays where it was. No
    /// memory is asked for a length that is refused.
    #[tactic(auto, unfolding(crate::specs::Reading::string_at))]
    pub fn read_string(&mut self, alloc: Global, bound: u32) -> Result<Vec<u8>, CdrFault>
        ensures value { Allocates (λ v. v.items) self.old result self.new (string_at bound self.old) }
        ensures place { IfErr result (λ e. e.at ≡ place 4 self.old) }
    {
        let mut ahead = self.fork();
        let count = ahead.read_count()?;
        let at = self.place::<4>();
        if !ahead.text_is_next(count) {
            return Err(CdrFault {
                at,
                kind: CdrKind::BadString,
            });
        }
        let length = count.saturating_sub(1);
        if passes(bound, length) {
            return Err(CdrFault {
                at,
                kind: CdrKind::BoundPassed,
            });
        }
        let Ok(text) = ahead.copy(alloc, length) else {
            return Err(CdrFault {
                at,
                kind: CdrKind::NoMemory,
            });
        };
        ahead.advance(count);
        *self = ahead;
        Ok(text)
    }
}
