//! Sequences of longs (CORBA 3.3 Part 2, 9.3.2.5), written at once.
ghost use Rattle.std.specs.Prelude.{◌≡◌, ◌+◌, ◌*◌, ◌<◌, ◌≤◌, ◌^◌, ◌++◌, length, replicate, OnOk, OnErr};
ghost use Rattle.std.specs.Int.{w32};
ghost use Rattle.std.specs.Vec.{vec_len, vec_capacity};
ghost use Rattle.giop_cdr.specs.declared.order.Order.{Order};
ghost use Rattle.giop_cdr.specs.Longs.{longs_octets};
ghost use Rattle.giop_cdr.specs.Reading.Cursor.{pad};
ghost use Rattle.giop_cdr.specs.Writing.Output.{sequence_out, signed_out};
ghost use Rattle.giop_cdr.specs.Writing.Outcome.{Writes};

use crate::order::Order;
use crate::output::appending::{push_each, push_field};
use crate::output::writer::CdrOut;
use std::alloc::AllocError;

impl CdrOut {
    /// A sequence of longs (9.3.2.5): an unsigned long count, aligned to 4, and the longs. It
    /// appends what the layout `sequence (signed w32)` writes, a long after the other.
    pub fn write_longs(&mut self, longs: &[i32]) -> Result<(), AllocError>
        requires { length longs.now < 2 ^ 32 }
        ensures { Writes self.old result self.new
            (sequence_out (signed_out w32) longs.now self.old) }
    {
        let count = self.order().ulong_octets(longs.len() as u32);
        self.append_longs(count, longs)
    }
}

/// Appends a count, aligned to 4, and the longs that it counts. The end of the list has the offset
/// `at`.
pub fn push_counted_longs(
    octets: &mut Vec<u8>,
    at: usize,
    count: [u8; 4],
    order: Order,
    longs: &[i32],
) -> Result<(), AllocError>
    requires { length longs.now < 2 ^ 32 }
    ensures ok { OnOk result (octets.new.items
        ≡ octets.old.items ++ (replicate (pad 4 at) 0 ++ count) ++ longs_octets order longs.now) }
    ensures err { OnErr result (octets.new.items ≡ octets.old.items) }
{
    octets.reserve(8 + 4 * longs.len())?;
    push_field(octets, at, count)?;
    push_longs(octets, order, longs);
    Ok(())
}

// Appends longs where there is room for them.
fn push_longs(octets: &mut Vec<u8>, order: Order, longs: &[i32])
    requires { vec_len octets.old + 4 * length longs.now ≤ vec_capacity octets.old }
    ensures { octets.new.items ≡ octets.old.items ++ longs_octets order longs.now }
{
    for long in longs {
        push_each(
            octets,
            match order {
                Order::Big => i32::to_be_bytes(*long),
                Order::Little => i32::to_le_bytes(*long),
            },
        );
    }
}
