//! The byte order of a `CdrIn`, kept in a whole word so that a reader is copied fast.
ghost use Rattle.std.specs.Prelude.{◌≡◌};

use crate::order::Order;
use std::marker::Model;

/// An order that fills a word. A reader is copied at each step, and an order of one octet would
/// leave seven octets of padding between its words, for which a copy has to wait. Contracts see the
/// order.
#[derive(Drop)]
pub struct WideOrder {
    little: u64,
}

impl Model for WideOrder {
    ghost use Rattle.giop_cdr.specs.declared.order.Order.{Order};
    ghost use Rattle.giop_cdr.specs.Reading.Cursor.{order_by};

    ghost Value = { Order };

    ghost view = { λ o. order_by o.little };
}

impl WideOrder {
    /// An order, in a word.
    #[inline(always)]
    pub fn new(order: Order) -> WideOrder
        ensures { result ≡ order }
    {
        match order {
            Order::Big => WideOrder { little: 0 },
            Order::Little => WideOrder { little: 1 },
        }
    }

    /// The order that the word says.
    #[inline(always)]
    pub fn get(&self) -> Order
        ensures { result ≡ self.now }
    {
        match self.little {
            0 => Order::Big,
            _ => Order::Little,
        }
    }

    /// A copy of this order.
    #[inline(always)]
    pub fn again(&self) -> WideOrder
        ensures { result ≡ self.now }
    {
        WideOrder {
            little: self.little,
        }
    }
}
