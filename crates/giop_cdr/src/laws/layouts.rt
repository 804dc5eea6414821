//! Laws of the layouts of `specs/Layout.antt`. Each function's contract is one of them; the bodies
//! are empty, and no program calls them.
ghost use Rattle.std.specs.Prelude.{◌≡◌, ℕ, Bool, true};
ghost use Rattle.std.specs.Int.{Width, w32};
ghost use Rattle.giop_cdr.specs.declared.order.Order.{Order};
ghost use Rattle.giop_cdr.specs.Encapsulation.OfLayout.{encapsulation, IsShortTest, IsShortInside, IsBackFromInside};
ghost use Rattle.giop_cdr.specs.Layout.{IsLawful, number, signed, boolean, octets, text, bounded_octets, bounded_text};
ghost use Rattle.giop_cdr.specs.RoundTrip.{is_primitive};
ghost use Rattle.giop_cdr.specs.Writing.Output.{Output};

use crate::laws::laid::Laid;

/// The layouts of which messages are made are lawful. What is read is what is spelled, and where
/// nothing is spelled the first refused field is returned. What is written of a value that fits is
/// read back. Whatever octets spell fits.
pub fn primitives_are_lawful()
    ensures numbers { (w : Width) → is_primitive w ≡ true → IsLawful (number w) }
    ensures signed { (w : Width) → is_primitive w ≡ true → IsLawful (signed w) }
    ensures booleans { IsLawful boolean }
    ensures octets { (bound : ℕ) → IsLawful (bounded_octets bound) × IsLawful octets }
    ensures encapsulated { (order : Order)
        → IsLawful (encapsulation order (λ n. true) (number w32)) }
    ensures texts { (bound : ℕ) → IsLawful (bounded_text bound) × IsLawful text }
{}

/// A value in an encapsulation (9.3.3), by any lawful layout. What the layout writes between
/// `begin_encapsulation` and `end_encapsulation` is read back in the encapsulation's own order and
/// alignment, whatever lies outside, where it is short enough. With a test of what is short enough,
/// the encapsulated layout is lawful itself.
pub fn encapsulations_are_lawful<T: Laid>()
    ensures back { (order : Order) (v : T) (out : Output) → IsLawful T.layout
        → T.layout.fits v ≡ true → T.layout.holds v → IsShortInside order T.layout v out
        → IsBackFromInside order T.layout v out }
    ensures lawful { (order : Order) (is_short : T → Bool) → IsLawful T.layout
        → IsShortTest order is_short T.layout → IsLawful (encapsulation order is_short T.layout) }
{}
