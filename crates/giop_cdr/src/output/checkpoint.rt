//! A place in an output. It has what a `CdrOut` has beside its octets, so a field that is added
//! there is added here too.
use crate::order::Order;
use std::marker::Model;

/// Where an output stood. A write of several steps goes back to it when one of them fails.
#[derive(Drop)]
pub struct Checkpoint {
    pub(crate) len: usize,
    pub(crate) order: Order,
    pub(crate) start: usize,
    pub(crate) base: usize,
}

impl Model for Checkpoint {
    ghost use Rattle.std.specs.Prelude.{◌+◌, ◌-◌, ◌≤◌, ◌^◌};
    ghost use Rattle.giop_cdr.specs.Writing.Output.{Place};

    ghost Value = { Place };

    ghost view = { λ p. record { len = p.len; order = p.order; at = p.start + (p.len - p.base) } };

    ghost invariant = { λ p. (p.base ≤ p.len) × (p.start ≤ 2 ^ 32) };
}
