//! The writer `CdrOut`: alignment (CORBA 3.3 Part 2, 9.3.1.1), encapsulations (9.3.3), and going
//! back to a place. The writes of values are in `values.rt`.
ghost use Rattle.std.specs.Prelude.{◌≡◌, ◌+◌, ◌-◌, ◌<◌, ◌≤◌, ◌^◌, length, [], ◌++◌, OnOk, OnErr, IfOk, IsTrue, ◌↔◌};
ghost use Rattle.giop_cdr.specs.Longs.{longs_octets};
ghost use Rattle.giop_cdr.specs.Writing.Output.{append, aligned, padding_out, here, back_at};
ghost use Rattle.giop_cdr.specs.Encapsulation.Opened.{opened, place_opened, closed};
ghost use Rattle.giop_cdr.specs.Writing.Outcome.{Writes, Appends, Grows};

use crate::order::Order;
use crate::output::appending::{fill, push_counted, push_field, push_zeros};
use crate::output::checkpoint::Checkpoint;
use crate::output::longs::push_counted_longs;
use crate::output::mark::Mark;
use std::alloc::{AllocError, Global};
use std::fmt;
use std::marker::Model;

/// Writes CDR values one after the other, in one byte order, into octets that it holds.
///
/// Contracts see it as an `Output`: the octets so far, the offset of the next one, and the order.
/// Padding is zeros. A call that is out of memory leaves the output as it was.
#[derive(Drop)]
pub struct CdrOut {
    octets: Vec<u8>,
    order: Order,
    // The offset of the octet at index `base`, by which values are aligned.
    start: usize,
    base: usize,
}

impl Model for CdrOut {
    ghost use Rattle.std.specs.Prelude.{◌+◌, ◌-◌, ◌≤◌, ◌^◌, length};
    ghost use Rattle.giop_cdr.specs.Writing.Output.{Output};

    ghost Value = { Output };

    ghost view = { λ w. record {
      order = w.order;
      at = w.start + (length w.octets.items - w.base);
      octets = w.octets.items;
    } };

    ghost invariant = { λ w. (w.base ≤ length w.octets.items) × (w.start ≤ 2 ^ 32) };
}

impl CdrOut {
    /// An empty output, whose first octet will have the offset `start`. It takes no memory.
    pub fn new(alloc: Global, order: Order, start: usize) -> CdrOut
        requires { start ≤ 2 ^ 32 }
        ensures { result ≡ record { order = order; at = start; octets = [] } }
    {
        CdrOut {
            octets: Vec::new(alloc),
            order,
            start,
            base: 0,
        }
    }

    /// An empty output, whose first octet will have the offset `start`. It takes memory for `room`
    /// octets in advance.
    pub fn with_room(
        alloc: Global,
        order: Order,
        start: usize,
        room: usize,
    ) -> Result<CdrOut, AllocError>
        requires { start ≤ 2 ^ 32 }
        ensures { IfOk result (λ out.
            out ≡ record { order = order; at = start; octets = [] }) }
    {
        let mut out = CdrOut::new(alloc, order, start);
        out.octets.reserve(room)?;
        Ok(out)
    }

    /// The offset of the next octet.
    #[inline(always)]
    pub fn position(&self) -> usize
        ensures { result ≡ self.now.at }
    {
        self.start + (self.octets.len() - self.base)
    }

    /// The order in which numbers are written.
    #[inline(always)]
    pub fn order(&self) -> Order
        ensures { result ≡ self.now.order }
    {
        self.order
    }

    /// The octets so far.
    pub fn as_slice(&self) -> &[u8]
        ensures { result.now ≡ self.now.octets }
    {
        self.octets.as_slice()
    }

    /// The octets that were written. It takes no memory.
    pub fn into_bytes(self) -> Vec<u8>
        ensures { result.items ≡ self.octets }
    {
        self.octets
    }

    /// Appends zeros up to the next multiple of `n`, which is 1, 2, 4 or 8: none where the offset
    /// is a multiple.
    #[tactic(auto, unfolding(crate::specs::Writing::Output::padding_out))]
    pub fn align(&mut self, n: usize) -> Result<(), AllocError>
        requires some { 0 < n }
        requires few { n ≤ 8 }
        ensures { Writes self.old result self.new (padding_out n self.old) }
    {
        let pad = (n - self.position() % n) % n;
        push_zeros(&mut self.octets, pad, 0)
    }

    /// Appends octets as they are, without padding.
    pub fn append_octets(&mut self, octets: &[u8]) -> Result<(), AllocError>
        ensures { Writes self.old result self.new (append self.old octets.now) }
    {
        self.octets.extend_from_slice(octets)
    }

    /// Where the output stands now, for `back_to`.
    pub fn checkpoint(&self) -> Checkpoint
        ensures { result ≡ here self.now }
    {
        Checkpoint {
            len: self.octets.len(),
            order: self.order,
            start: self.start,
            base: self.base,
        }
    }

    /// Whether the output can go back to `point`: it is as long as there, or longer.
    pub fn can_go_back(&self, point: &Checkpoint) -> bool
        ensures { IsTrue result ↔ (point.now.len ≤ length self.now.octets) }
    {
        point.len <= self.octets.len()
    }

    /// Drops what was written since `point`. It takes no memory. `can_go_back` tests its condition.
    pub fn back_to(&mut self, point: Checkpoint)
        requires { point.len ≤ length self.old.octets }
        ensures { self.new ≡ back_at point self.old }
    {
        self.octets.truncate(point.len);
        self.order = point.order;
        self.start = point.start;
        self.base = point.base;
    }

    /// Begins an encapsulation (9.3.3) whose numbers are in `order`: a length that isn't known yet,
    /// and the order octet. Until it is ended, alignment counts from that octet.
    #[tactic(auto, unfolding(crate::specs::Encapsulation::Opened::opened, crate::specs::Encapsulation::Opened::place_opened))]
    pub fn begin_encapsulation(&mut self, order: Order) -> Result<Mark, AllocError>
        ensures ok { OnOk result (self.new ≡ opened order self.old) }
        ensures mark { IfOk result (λ mark. mark ≡ place_opened self.old) }
        ensures err { OnErr result (self.new ≡ self.old) }
    {
        let at = self.position();
        push_counted(&mut self.octets, at, [0; 4], &[order.octet()], &[])?;
        let len = self.octets.len() - 1;
        let mark = Mark {
            len,
            order: self.order,
            start: self.start,
            base: self.base,
        };
        self.order = order;
        self.start = 0;
        self.base = len;
        Ok(mark)
    }

    /// Whether an encapsulation that began at `mark` can be ended here: the output is as long as it
    /// was there, or longer, and by fewer than 2^32 octets, as a length has to be. It doesn't check
    /// that `mark` is of this output, and the latest that isn't ended: the caller has to.
    pub fn can_end(&self, mark: &Mark) -> bool
        ensures { IsTrue result
            ↔ ((mark.now.len ≤ length self.now.octets) × (length self.now.octets - mark.now.len < 2 ^ 32)) }
    {
        mark.len <= self.octets.len() && self.octets.len() - mark.len < 1 << 32
    }

    /// Ends the encapsulation that began at `mark`: its length is filled in, and the order and the
    /// alignment outside hold again. It takes no memory. `can_end` tests its conditions.
    #[tactic(auto, unfolding(crate::specs::Encapsulation::Opened::closed))]
    pub fn end_encapsulation(&mut self, mark: Mark)
        requires begun { mark.len ≤ length self.old.octets }
        requires short { length self.old.octets - mark.len < 2 ^ 32 }
        ensures { self.new ≡ closed mark self.old }
    {
        let length = (self.octets.len() - mark.len) as u32;
        fill(
            &mut self.octets,
            mark.len - 4,
            mark.order.ulong_octets(length),
        );
        self.order = mark.order;
        self.start = mark.start;
        self.base = mark.base;
    }

    // Appends a value of N octets, aligned to N.
    #[inline(always)]
    pub(crate) fn append_field<const N: usize>(&mut self, field: [u8; N]) -> Result<(), AllocError>
        requires some { 0 < N }
        requires few { N ≤ 8 }
        ensures { Writes self.old result self.new
            (append self.old (aligned N self.old field.entry)) }
    {
        let at = self.position();
        push_field(&mut self.octets, at, field)
    }

    // Appends a count, aligned to 4, and the octets that it counts, in two parts.
    #[inline(always)]
    pub(crate) fn append_counted(
        &mut self,
        count: [u8; 4],
        content: &[u8],
        tail: &[u8],
    ) -> Result<(), AllocError>
        requires content { length content.now < 2 ^ 32 }
        requires tail { length tail.now ≤ 8 }
        ensures { Writes self.old result self.new
            (append (append self.old (aligned 4 self.old count)) (content.now ++ tail.now)) }
    {
        let at = self.position();
        push_counted(&mut self.octets, at, count, content, tail)
    }

    // Appends a count, aligned to 4, and the longs that it counts.
    #[inline(always)]
    pub(crate) fn append_longs(&mut self, count: [u8; 4], longs: &[i32]) -> Result<(), AllocError>
        requires { length longs.now < 2 ^ 32 }
        ensures { Writes self.old result self.new
            (append (append self.old (aligned 4 self.old count))
            (longs_octets self.old.order longs.now)) }
    {
        let at = self.position();
        push_counted_longs(&mut self.octets, at, count, self.order, longs)
    }
}

/// Shows the order, the offset of the next octet, and the octets so far.
impl fmt::Debug for CdrOut {
    fn fmt<W: fmt::Write>(&self, f: &mut fmt::Formatter<W>) -> fmt::Result {
        f.debug_struct("CdrOut")
            .field("order", &self.order)
            .field("position", &self.position())
            .field("octets", &self.octets)
            .finish()
    }
}
