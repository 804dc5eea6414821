//! Octets viewed where they lie in a store, without memory: `OctetsAt`, and the reads of `CdrIn`
//! that return one.
ghost use Rattle.std.specs.Prelude.{◌≡◌, ◌+◌, ◌≤◌, ◌^◌, length, take, drop, IfOk};
ghost use Rattle.giop_cdr.specs.Reading.Values.{octets_at, string_at};
ghost use Rattle.giop_cdr.specs.Reading.Outcome.{Reads};

use crate::fault::CdrFault;
use crate::input::reader::CdrIn;
use crate::input::runs::copy_of;
use crate::octet_list::OctetList;
use crate::octets::{Octets, SliceOctets};
use std::alloc::{AllocError, Global};
use std::marker::Model;

/// Octets where they lie in a store: the view of a field, which takes no memory. Contracts see it
/// as the plain list of its octets, as they see an `OctetList`.
#[derive(Drop)]
pub struct OctetsAt<'a, S: Octets> {
    source: &'a S,
    // The index of the first of them in `source`.
    from: usize,
    count: usize,
}

impl<'a, S: Octets> Model for OctetsAt<'a, S> {
    ghost use Rattle.std.specs.Prelude.{ℕ, ◌+◌, ◌≤◌, ◌^◌, List, length, take, drop};

    ghost Value = { List ℕ };

    ghost view = { λ o. take o.count (drop o.from (S.octets o.source.now)) };

    ghost invariant = { λ o. (o.from + o.count ≤ length (S.octets o.source.now))
        × (o.from + o.count ≤ 2 ^ 62) };
}

impl<'a, S: Octets> OctetsAt<'a, S> {
    // The `count` octets of a store from index `from` on.
    #[inline(always)]
    pub(crate) fn new(source: &'a S, from: usize, count: usize) -> OctetsAt<'a, S>
        requires within { from + count ≤ length (S.octets source.now) }
        requires small { from + count ≤ 2 ^ 62 }
        ensures { result ≡ take count (drop from (S.octets source.now)) }
    {
        OctetsAt {
            source,
            from,
            count,
        }
    }

    /// A copy of the octets. It takes memory once, for all of them.
    #[inline(always)]
    pub fn to_list(&self, alloc: Global) -> Result<OctetList, AllocError>
        ensures { IfOk result (λ list. list ≡ self.now) }
    {
        Ok(OctetList::from(copy_of(alloc, self.source, self.from, self.count)?))
    }
}

impl<'octets> OctetsAt<'_, SliceOctets<'octets>> {
    /// The octets in one slice.
    pub fn as_slice(&self) -> &'octets [u8]
        ensures { result.now ≡ self.now }
    {
        &self.source.as_slice()[self.from..self.from + self.count]
    }
}

// A part of a store is a store too, so what it holds is read by a reader of its own.
impl<'a, S: Octets> Octets for OctetsAt<'a, S> {
    ghost octets = { λ o. o };

    fn len(&self) -> usize {
        self.count
    }

    fn at(&self, i: usize) -> u8 {
        self.source.at(self.from + i)
    }

    fn run(&self, from: usize) -> &[u8] {
        let run = self.source.run(self.from + from);
        let part = run.len().min(self.count - from);
        &run[..part]
    }
}

impl<'a, S: Octets> CdrIn<'a, S> {
    /// A sequence of octets (9.3.2.5), where it lies and so without memory.
    ///
    /// Refused as `read_octets` refuses it, but never as NoMemory. The reader then stays where it
    /// was.
    #[tactic(auto, using(crate::proofs::Reading::CountSteps::octets_counted, crate::proofs::Reading::CountSteps::octets_uncounted))]
    #[inline(always)]
    pub fn view_octets(&mut self, bound: u32) -> Result<OctetsAt<'a, S>, CdrFault>
        ensures { Reads self.old result self.new (octets_at bound self.old) }
    {
        let mut ahead = self.fork();
        let count = ahead.read_bounded_count(bound)?;
        let octets = ahead.here(count);
        ahead.advance(count);
        *self = ahead;
        Ok(octets)
    }

    /// The octets of a string (9.3.2.7) without its null, where they lie and so without memory.
    ///
    /// Refused as `read_string` refuses it, but never as NoMemory. The reader then stays where it
    /// was.
    #[tactic(auto, using(crate::proofs::Reading::CountSteps::text_counted, crate::proofs::Reading::CountSteps::text_uncounted))]
    #[inline(always)]
    pub fn view_string(&mut self, bound: u32) -> Result<OctetsAt<'a, S>, CdrFault>
        ensures { Reads self.old result self.new (string_at bound self.old) }
    {
        let mut ahead = self.fork();
        let length = ahead.text_count(bound)?;
        let text = ahead.here(length.saturating_sub(1));
        ahead.advance(length);
        *self = ahead;
        Ok(text)
    }

    /// All octets that are left, where they lie and so without memory. The reader doesn't move.
    #[tactic(auto, using(crate::proofs::Reading::RunLemmas::take_all))]
    #[inline(always)]
    pub fn view_remainder(&self) -> OctetsAt<'a, S>
        ensures { result ≡ self.now.rest }
    {
        self.here(self.remaining())
    }
}
