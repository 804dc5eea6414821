//! Which loop over CDR is timed, by its name. A new one takes a variant of `Values`, and a loop in
//! read.rt, in write.rt and in bench/cdr/twin.rs.
use giop_cdr::Order;

/// What a loop reads or writes.
#[derive(Clone, Copy)]
pub enum Values {
    Ulong,
    String,
    Octets,
    Widths,
}

/// A loop: its direction, its values and their order.
#[derive(Clone, Copy)]
pub struct Work {
    pub reads: bool,
    pub values: Values,
    pub order: Order,
}

impl Work {
    /// The loop of a name such as `read-ulong-big`.
    pub fn named(name: &str) -> Option<Work> {
        let (way, values) = name.split_once('-')?;
        let (values, order) = values.split_once('-')?;
        Some(Work {
            reads: way == "read",
            values: Values::named(values)?,
            order: order_named(order)?,
        })
    }
}

impl Values {
    fn named(name: &str) -> Option<Values> {
        match name {
            "ulong" => Some(Values::Ulong),
            "string" => Some(Values::String),
            "octets" => Some(Values::Octets),
            "widths" => Some(Values::Widths),
            _ => None,
        }
    }
}

fn order_named(name: &str) -> Option<Order> {
    match name {
        "big" => Some(Order::Big),
        "little" => Some(Order::Little),
        _ => None,
    }
}

/// A checksum of what came before and one value more.
#[inline(always)]
pub fn mixed(sum: u64, value: u64) -> u64 {
    sum.rotate_left(5) ^ value
}
