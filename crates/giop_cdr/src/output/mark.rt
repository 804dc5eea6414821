//! The start of an encapsulation in an output (CORBA 3.3 Part 2, 9.3.3). It has what a `CdrOut` has
//! beside its octets, so a field that is added there is added here too.
use crate::order::Order;
use std::marker::Model;

/// Where an encapsulation that is being written began, and the order and the alignment outside it
/// (9.3.3). Pass each to `end_encapsulation` once, the latest first.
#[derive(Drop)]
pub struct Mark {
    // The index of the order octet.
    pub(crate) len: usize,
    // The order and the alignment outside.
    pub(crate) order: Order,
    pub(crate) start: usize,
    pub(crate) base: usize,
}

impl Model for Mark {
    ghost use Rattle.std.specs.Prelude.{◌+◌, ◌-◌, ◌≤◌, ◌^◌};
    ghost use Rattle.giop_cdr.specs.Writing.Output.{Place};

    ghost Value = { Place };

    ghost view = { λ m. record { len = m.len; order = m.order; at = m.start + (m.len - m.base) } };

    ghost invariant = { λ m. (m.base + 4 ≤ m.len) × (m.start ≤ 2 ^ 32) };
}
