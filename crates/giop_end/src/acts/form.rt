//! The form in which an end sends a message: its byte order, and the size of its pieces (CORBA 3.3
//! Part 2, 9.4.9). Which forms are valid is `IsForm` in specs/Acts/Form.antt: change both.
ghost use Rattle.std.specs.Prelude.{◌≡◌, ◌↔◌, IsTrue};
ghost use Rattle.giop_end.specs.Acts.Form.{IsForm};

use giop_cdr::Order;

/// How an end sends a message: in which byte order, and in pieces of which size (CORBA 3.3 Part 2,
/// 9.4.9).
#[derive(Clone, Copy, Debug, PartialEq, Eq)]
pub struct Form {
    /// The byte order of the message and of its pieces.
    pub order: Order,
    /// How many octets a piece has at most, its header counted: a multiple of 8, and 24 at least.
    /// A message before 1.2 is one piece, whatever its size.
    pub piece: u32,
}

impl Form {
    /// Whether messages may be sent so: the piece is a multiple of 8, and 24 at least.
    pub fn is_valid(self) -> bool
        ensures { IsTrue result ↔ IsForm self }
    {
        self.piece >= 24 && self.piece % 8 == 0
    }
}

impl Default for Form {
    ghost use Rattle.giop_cdr.specs.declared.order.Order.TheVariants.{Big};

    ghost is_default = { λ form. form ≡ record { order = Big; piece = 4096 } };

    /// Big-endian, in pieces of 4,096 octets.
    fn default() -> Form {
        Form {
            order: Order::Big,
            piece: 4096,
        }
    }
}
