//! The reader `CdrIn`: where it stands, alignment (CORBA 3.3 Part 2, 9.3.1.1), and encapsulations
//! (9.3.3). The reads of values are in the other files of this folder.
ghost use Rattle.std.specs.Prelude.{◌≡◌, ◌+◌, ◌*◌, ◌/◌, ◌<◌, ◌≤◌, ◌^◌, length, take, Ok, Err, IfOk, IfErr, OnOk, OnErr};
ghost use Rattle.giop_cdr.specs.Reading.Cursor.{pad, place, skip};
ghost use Rattle.giop_cdr.specs.declared.fault.CdrKind.TheVariants.{Short};
ghost use Rattle.giop_cdr.specs.Reading.Values.{fault, field_at, is_text};
ghost use Rattle.giop_cdr.specs.Encapsulation.Opened.{opened_of, encapsulation_at};
ghost use Rattle.giop_cdr.specs.Reading.Outcome.{Reads, Exactly};

use crate::fault::{CdrFault, CdrKind};
use crate::input::octets_at::OctetsAt;
use crate::input::runs::{copy_of, field_of, text_lies_at};
use crate::input::wide_order::WideOrder;
use crate::octets::{Octets, SliceOctets};
use crate::order::Order;
use std::alloc::{AllocError, Global};
use std::fmt;
use std::marker::Model;

/// Reads CDR values one after the other from a list of octets, in one byte order.
///
/// Contracts see it as a `Cursor`: the octets that are left, the offset of the first of them, and
/// the order. Offsets count from the first octet of the message's header, or from the byte-order
/// octet of an encapsulation. A read that is refused leaves the reader where it was.
#[derive(Drop)]
pub struct CdrIn<'a, S: Octets> {
    source: &'a S,
    order: WideOrder,
    // The offset of the next octet, by which values are aligned.
    at: usize,
    // The indices in `source` of the next octet, and of the end of what may be read.
    index: usize,
    end: usize,
}

impl<'a, S: Octets> Model for CdrIn<'a, S> {
    ghost use Rattle.std.specs.Prelude.{◌+◌, ◌-◌, ◌≤◌, ◌^◌, length};
    ghost use Rattle.giop_cdr.specs.Reading.Cursor.{Cursor, window};

    ghost Value = { Cursor };

    ghost view = { λ r. record {
      order = r.order;
      at = r.at;
      rest = window r.index r.end (S.octets r.source.now);
    } };

    ghost invariant = { λ r. (r.index ≤ r.end) × (r.end ≤ length (S.octets r.source.now))
        × (r.end ≤ 2 ^ 62) × (r.at + (r.end - r.index) ≤ 2 ^ 62 + 2 ^ 32) };
}

impl<'a, S: Octets> CdrIn<'a, S> {
    /// A reader of all of `source`, whose first octet has the offset `start`.
    #[inline(always)]
    pub fn new(source: &'a S, order: Order, start: usize) -> CdrIn<'a, S>
        requires short { length (S.octets source.now) ≤ 2 ^ 62 }
        requires start { start ≤ 2 ^ 32 }
        ensures { result ≡ record { order = order; at = start; rest = S.octets source.now } }
    {
        CdrIn {
            source,
            order: WideOrder::new(order),
            at: start,
            index: 0,
            end: source.len(),
        }
    }

    /// The offset of the next octet.
    #[inline(always)]
    pub fn position(&self) -> usize
        ensures { result ≡ self.now.at }
    {
        self.at
    }

    /// The number of octets that are left.
    #[inline(always)]
    pub fn remaining(&self) -> usize
        ensures { result ≡ length self.now.rest }
    {
        self.end - self.index
    }

    /// The order in which numbers are read.
    #[inline(always)]
    pub fn order(&self) -> Order
        ensures { result ≡ self.now.order }
    {
        self.order.get()
    }

    /// Another reader that stands where this one does. Read ahead with it, and assign it to this
    /// one to accept what was read; this one stays where it was until then.
    #[inline(always)]
    pub fn fork(&self) -> CdrIn<'a, S>
        ensures { result ≡ self.now }
    {
        CdrIn {
            source: self.source,
            order: self.order.again(),
            at: self.at,
            index: self.index,
            end: self.end,
        }
    }

    // The number of octets before the next value of N octets, which is aligned to N, where that
    // value is there. The value itself is no part of the result, since its octets would then pass
    // through memory.
    #[inline(always)]
    pub(crate) fn pad_of_field<const N: usize>(&self) -> Result<usize, CdrFault>
        requires some { 0 < N }
        requires few { N ≤ 8 }
        ensures aligned { IfOk result (λ skipped. skipped ≡ pad N self.now.at) }
        ensures there { IfOk result (λ skipped. skipped + N ≤ length self.now.rest) }
        ensures short { IfErr result (λ e. field_at N self.now ≡ Err e) }
        ensures place { IfErr result (λ e. e.at ≡ place N self.now) }
    {
        let pad = (N - self.at % N) % N;
        if self.end - self.index < pad + N {
            return Err(CdrFault {
                at: self.at + pad,
                kind: CdrKind::Short,
            });
        }
        Ok(pad)
    }

    // The octets of a value of N octets that is there, behind `skipped` octets of padding.
    #[inline(always)]
    pub(crate) fn take_field<const N: usize>(&mut self, skipped: usize) -> [u8; N]
        requires some { 0 < N }
        requires few { N ≤ 8 }
        requires aligned { skipped ≡ pad N self.old.at }
        requires there { skipped + N ≤ length self.old.rest }
        ensures { field_at N self.old ≡ Ok (result, self.new) }
    {
        let octets = field_of(self.source, self.index, skipped);
        self.at += skipped + N;
        self.index += skipped + N;
        octets
    }

    /// The offset at which the next value begins that is aligned to N octets (9.3.1.1): the place
    /// of its faults. N is the size of a primitive, 1 to 8.
    #[inline(always)]
    pub fn place<const N: usize>(&self) -> usize
        requires some { 0 < N }
        requires few { N ≤ 8 }
        ensures value { result ≡ place N self.now }
        ensures within { result < 2 ^ 63 }
    {
        self.at + (N - self.at % N) % N
    }

    /// Moves to the next multiple of 8, where a body begins in GIOP 1.2 (9.4.2.2, 9.4.3.2). On a
    /// multiple it stays. Where the octets end before it, none are left.
    #[inline(always)]
    pub fn align_to_8(&mut self)
        ensures { self.new ≡ skip (pad 8 self.old.at) self.old }
    {
        let pad = (8 - self.at % 8) % 8;
        if pad <= self.remaining() {
            return self.advance(pad);
        }
        self.at += pad;
        self.index = self.end;
    }

    // Refuses the first of `count` longs that isn't there, where none needs padding.
    pub(crate) fn expect_longs(&self, count: usize) -> Result<(), CdrFault>
        ensures there { OnOk result (4 * count ≤ length self.now.rest) }
        ensures missing { OnErr result (length self.now.rest < 4 * count) }
        ensures err { IfErr result (λ e.
            e ≡ fault (self.now.at + length self.now.rest / 4 * 4) Short) }
    {
        let left = self.end - self.index;
        if left / 4 < count {
            return Err(CdrFault {
                at: self.at + left / 4 * 4,
                kind: CdrKind::Short,
            });
        }
        Ok(())
    }

    // Passes over octets that are there.
    #[inline(always)]
    pub(crate) fn advance(&mut self, count: usize)
        requires { count ≤ length self.old.rest }
        ensures { self.new ≡ skip count self.old }
    {
        self.at += count;
        self.index += count;
    }

    // A copy of the next octets, which are there.
    #[inline(always)]
    pub(crate) fn copy(&self, alloc: Global, count: usize) -> Result<Vec<u8>, AllocError>
        requires { count ≤ length self.now.rest }
        ensures { IfOk result (λ v. v.items ≡ take count self.now.rest) }
    {
        copy_of(alloc, self.source, self.index, count)
    }

    // The next `count` octets, which are there, without a copy.
    #[inline(always)]
    pub(crate) fn here(&self, count: usize) -> OctetsAt<'a, S>
        requires { count ≤ length self.now.rest }
        ensures { result ≡ take count self.now.rest }
    {
        OctetsAt::new(self.source, self.index, count)
    }

    // Whether the next octets, which are there, are those that a string's length counts.
    #[inline(always)]
    pub(crate) fn text_is_next(&self, count: usize) -> bool
        requires { count ≤ length self.now.rest }
        ensures { result ≡ is_text (take count self.now.rest) }
    {
        text_lies_at(self.source, self.index, count)
    }

    /// An encapsulation (9.3.3): a reader of its content, in its own order and with its own
    /// alignment. This reader continues after the content, in its own order.
    ///
    /// Refused at the offset of its length, as a sequence of octets is: as Short or BadCount.
    /// Refused at the offset behind the length: as Short where the length is 0, as BadOrder where
    /// the order octet is neither 0 nor 1. The reader then stays where it was.
    #[tactic(auto, using(crate::proofs::Encapsulation::OpenLemmas::opened_counted, crate::proofs::Encapsulation::OpenLemmas::refused_counted, crate::proofs::Encapsulation::OpenLemmas::uncounted))]
    pub fn open_encapsulation(&mut self) -> Result<CdrIn<'a, S>, CdrFault>
        ensures { Reads self.old result self.new (encapsulation_at self.old) }
    {
        let at = self.place::<4>() + 4;
        let mut ahead = self.fork();
        let count = ahead.read_bounded_count(0)?;
        let content = ahead.content(count, at)?;
        ahead.advance(count);
        *self = ahead;
        Ok(content)
    }

    // A reader of the content that the next `count` octets encapsulate, which are there. The first
    // of them has the offset `at`, which is that of the faults.
    fn content(&self, count: usize, at: usize) -> Result<CdrIn<'a, S>, CdrFault>
        requires { count ≤ length self.now.rest }
        ensures { Exactly result (skip count self.now)
            (opened_of at (take count self.now.rest) (skip count self.now)) }
    {
        if count == 0 {
            return Err(CdrFault {
                at,
                kind: CdrKind::Short,
            });
        }
        let order = match self.source.at(self.index) {
            0 => Order::Big,
            1 => Order::Little,
            _ => {
                return Err(CdrFault {
                    at,
                    kind: CdrKind::BadOrder,
                });
            }
        };
        Ok(CdrIn {
            source: self.source,
            order: WideOrder::new(order),
            at: 1,
            index: self.index + 1,
            end: self.index + count,
        })
    }
}

impl<'a> CdrIn<'a, SliceOctets<'a>> {
    // The next `count` octets, which are there, without a copy.
    #[inline(always)]
    pub(crate) fn lent(&self, count: usize) -> &'a [u8]
        requires { count ≤ length self.now.rest }
        ensures { result.now ≡ take count self.now.rest }
    {
        &self.source.as_slice()[self.index..self.index + count]
    }
}

/// Shows the order, where the reader stands, and how many octets are left; not the octets
/// themselves.
impl<'a, S: Octets> fmt::Debug for CdrIn<'a, S> {
    fn fmt<W: fmt::Write>(&self, f: &mut fmt::Formatter<W>) -> fmt::Result {
        f.debug_struct("CdrIn")
            .field("order", &self.order())
            .field("position", &self.position())
            .field("remaining", &self.remaining())
            .finish()
    }
}
