//! The trait of values that are an unsigned long and octets on the wire. A `TaggedListAt` is a list
//! of such values where they lie.
use crate::octet_list::OctetList;

/// A value that is an unsigned long and a sequence of octets on the wire, as a service context, a
/// tagged profile and a tagged component are (7.6.2, 7.7).
pub trait Tagged: Drop {
    ghost use Rattle.std.specs.Prelude.{◌≡◌, ℕ, List};

    // The value that a number and octets make, as contracts see it.
    ghost made: { ℕ → List ℕ → Self };

    /// The value of this number and these octets.
    fn from_parts(tag: u32, octets: OctetList) -> Self
        ensures { result ≡ made tag octets };
}
