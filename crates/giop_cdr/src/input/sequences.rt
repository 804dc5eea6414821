//! Strings (CORBA 3.3 Part 2, 9.3.2.7), sequences of octets and counts (9.3.2.5), read. A count or
//! a length is judged before memory is asked for what it counts.
ghost use Rattle.std.specs.Prelude.{◌≡◌, ◌+◌, ◌<◌, ◌≤◌, ◌^◌, length, take, true, false, IfOk, IfErr};
ghost use Rattle.giop_cdr.specs.Reading.Cursor.{place};
ghost use Rattle.giop_cdr.specs.Reading.Values.{count_at, octet_count_at, octets_at, text_count_at, string_at, passes, is_text, has_null};
ghost use Rattle.giop_cdr.specs.Reading.Outcome.{Reads, Allocates, Passes};

use crate::fault::{CdrFault, CdrKind};
use crate::input::reader::CdrIn;
use crate::octets::Octets;
use std::alloc::Global;

/// Whether a length is above a bound, where 0 is no bound.
pub fn passes(bound: u32, length: usize) -> bool
    ensures { result ≡ passes bound length }
{
    bound != 0 && (bound as usize) < length
}

impl<'a, S: Octets> CdrIn<'a, S> {
    /// The count of a sequence (9.3.2.5): an unsigned long, aligned to 4, that is no more than the
    /// number of octets behind it. The caller bounds the memory of the elements: an element of one
    /// octet on the wire may take many octets in memory.
    ///
    /// Refused, at the offset of the count: as Short where it isn't there, as BadCount where it is
    /// above the number of octets behind it. The reader then stays where it was.
    #[tactic(auto, unfolding(crate::specs::Reading::Values::count_at))]
    #[inline(always)]
    pub fn read_count(&mut self) -> Result<usize, CdrFault>
        ensures value { Reads self.old result self.new (count_at self.old) }
        ensures within { IfOk result (λ count. count ≤ length self.new.rest) }
        ensures countable { IfOk result (λ count. count < 2 ^ 32) }
        ensures place { IfErr result (λ e. e.at ≡ place 4 self.old) }
    {
        let mut ahead = self.fork();
        let count = ahead.read_ulong()? as usize;
        if ahead.remaining() < count {
            return Err(CdrFault {
                at: self.place::<4>(),
                kind: CdrKind::BadCount,
            });
        }
        *self = ahead;
        Ok(count)
    }

    /// The count of a sequence (9.3.2.5) that is at most `bound`, where 0 is no bound.
    ///
    /// Refused at the offset of the count: as `read_count` refuses it, and as BoundPassed where it
    /// is above `bound`. The reader then stays where it was.
    #[tactic(auto, unfolding(crate::specs::Reading::Values::octet_count_at))]
    #[inline(always)]
    pub fn read_bounded_count(&mut self, bound: u32) -> Result<usize, CdrFault>
        ensures value { Reads self.old result self.new (octet_count_at bound self.old) }
        ensures within { IfOk result (λ count. count ≤ length self.new.rest) }
        ensures countable { IfOk result (λ count. count < 2 ^ 32) }
        ensures place { IfErr result (λ e. e.at ≡ place 4 self.old) }
    {
        let mut ahead = self.fork();
        let count = ahead.read_count()?;
        if passes(bound, count) {
            return Err(CdrFault {
                at: self.place::<4>(),
                kind: CdrKind::BoundPassed,
            });
        }
        *self = ahead;
        Ok(count)
    }

    // The length of a string, its null included, whose octets follow and are those of a string
    // within the bound.
    #[tactic(auto, unfolding(crate::specs::Reading::Values::text_count_at))]
    #[inline(always)]
    pub(crate) fn text_count(&mut self, bound: u32) -> Result<usize, CdrFault>
        ensures value { Reads self.old result self.new (text_count_at bound self.old) }
        ensures within { IfOk result (λ count. count ≤ length self.new.rest) }
        ensures countable { IfOk result (λ count. count < 2 ^ 32) }
        ensures text { IfOk result (λ count. is_text (take count self.new.rest) ≡ true) }
        ensures place { IfErr result (λ e. e.at ≡ place 4 self.old) }
    {
        let mut ahead = self.fork();
        let count = ahead.read_count()?;
        if !ahead.text_is_next(count) {
            return Err(CdrFault {
                at: self.place::<4>(),
                kind: CdrKind::BadString,
            });
        }
        if passes(bound, count.saturating_sub(1)) {
            return Err(CdrFault {
                at: self.place::<4>(),
                kind: CdrKind::BoundPassed,
            });
        }
        *self = ahead;
        Ok(count)
    }

    /// A sequence of octets (9.3.2.5): an unsigned long length, aligned to 4, and as many octets. A
    /// `bound` of 0 is no bound.
    ///
    /// Refused at the offset of the length, as the first of these that holds:
    ///
    /// - Short: the length isn't there.
    /// - BadCount: it is above the number of octets behind it.
    /// - BoundPassed: it is above `bound`.
    /// - NoMemory: out of memory.
    ///
    /// The reader then stays where it was. No memory is asked for a length that is refused.
    #[tactic(auto, using(crate::proofs::Reading::CountSteps::octets_counted, crate::proofs::Reading::CountSteps::octets_there, crate::proofs::Reading::CountSteps::octets_uncounted))]
    #[inline(always)]
    pub fn read_octets(&mut self, alloc: Global, bound: u32) -> Result<Vec<u8>, CdrFault>
        ensures value { Allocates (λ v. v.items) self.old result self.new
            (octets_at bound self.old) }
        ensures countable { IfOk result (λ v. length v.items < 2 ^ 32) }
        ensures place { IfErr result (λ e. e.at ≡ place 4 self.old) }
    {
        let mut ahead = self.fork();
        let count = ahead.read_bounded_count(bound)?;
        let Ok(octets) = ahead.copy(alloc, count) else {
            return Err(CdrFault {
                at: self.place::<4>(),
                kind: CdrKind::NoMemory,
            });
        };
        ahead.advance(count);
        *self = ahead;
        Ok(octets)
    }

    /// Passes over a sequence of octets (9.3.2.5), without memory.
    ///
    /// Refused as `read_octets` refuses it, but never as NoMemory. The reader then stays where it
    /// was.
    #[tactic(auto, using(crate::proofs::Reading::CountSteps::octets_passed, crate::proofs::Reading::CountSteps::octets_uncounted))]
    pub fn skip_octets(&mut self, bound: u32) -> Result<(), CdrFault>
        ensures { Passes self.old result self.new (octets_at bound self.old) }
    {
        let mut ahead = self.fork();
        let length = ahead.read_bounded_count(bound)?;
        ahead.advance(length);
        *self = ahead;
        Ok(())
    }

    /// A string (9.3.2.7): an unsigned long length, aligned to 4, that counts one terminating null,
    /// the octets, the null. The octets before the null are returned. A length of 0 is read as the
    /// empty string. A `bound` of 0 is no bound; another counts the octets without the null.
    ///
    /// Refused at the offset of the length, as the first of these that holds:
    ///
    /// - Short: the length isn't there.
    /// - BadCount: it is above the number of octets behind it.
    /// - BadString: no null is at the end, or another one is inside.
    /// - BoundPassed: the string is longer than `bound`.
    /// - NoMemory: out of memory.
    ///
    /// The reader then stays where it was. No memory is asked for a length that is refused.
    #[tactic(auto, using(crate::proofs::Reading::CountSteps::text_counted, crate::proofs::Reading::CountSteps::text_there, crate::proofs::Reading::CountSteps::text_uncounted))]
    #[inline(always)]
    pub fn read_string(&mut self, alloc: Global, bound: u32) -> Result<Vec<u8>, CdrFault>
        ensures value { Allocates (λ v. v.items) self.old result self.new
            (string_at bound self.old) }
        ensures countable { IfOk result (λ v. length v.items + 1 < 2 ^ 32) }
        ensures text { IfOk result (λ v. has_null v.items ≡ false) }
        ensures place { IfErr result (λ e. e.at ≡ place 4 self.old) }
    {
        let mut ahead = self.fork();
        let count = ahead.text_count(bound)?;
        let Ok(text) = ahead.copy(alloc, count.saturating_sub(1)) else {
            return Err(CdrFault {
                at: self.place::<4>(),
                kind: CdrKind::NoMemory,
            });
        };
        ahead.advance(count);
        *self = ahead;
        Ok(text)
    }

    /// Passes over a string (9.3.2.7), without memory.
    ///
    /// Refused as `read_string` refuses it, but never as NoMemory. The reader then stays where it
    /// was.
    #[tactic(auto, using(crate::proofs::Reading::CountSteps::text_passed, crate::proofs::Reading::CountSteps::text_uncounted))]
    pub fn skip_string(&mut self, bound: u32) -> Result<(), CdrFault>
        ensures { Passes self.old result self.new (string_at bound self.old) }
    {
        let mut ahead = self.fork();
        let length = ahead.text_count(bound)?;
        ahead.advance(length);
        *self = ahead;
        Ok(())
    }
}
