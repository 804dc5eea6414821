//! Byte order (CORBA 3.3 Part 2, 9.3.1.1): its two values, and the octet that says each of them.
ghost use Rattle.std.specs.Prelude.{◌≡◌};
ghost use Rattle.std.specs.Int.{w32};

/// The order of the octets of a number (9.3.1.1). The sender chooses it for each message, and again
/// for each encapsulation.
#[derive(Clone, Copy, Debug, PartialEq, Eq)]
pub enum Order {
    /// The most significant octet first: byte order 0.
    Big,
    /// The least significant octet first: byte order 1.
    Little,
}

impl Order {
    ghost use Rattle.giop_cdr.specs.Encapsulation.Opened.{order_octet};
    ghost use Rattle.giop_cdr.specs.Writing.Output.{octets_of};

    /// The octet that says this order at the start of an encapsulation (9.3.3): 0 or 1.
    pub fn octet(self) -> u8
        ensures { result ≡ order_octet self }
    {
        match self {
            Order::Big => 0,
            Order::Little => 1,
        }
    }

    /// The four octets of an unsigned long in this order.
    pub fn ulong_octets(self, value: u32) -> [u8; 4]
        ensures { result ≡ octets_of self w32 value }
    {
        match self {
            Order::Big => value.to_be_bytes(),
            Order::Little => value.to_le_bytes(),
        }
    }
}
