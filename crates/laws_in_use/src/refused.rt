//! Calls of a reader and a writer that are refused: each tells its fault, leaves what it was given as it
//! was, and may be made again.
ghost use Rattle.std.specs.Prelude.{◌≡◌, ◌∷◌, [], ℕ, List, Err, Ok, Result};
ghost use Rattle.std.specs.Int.{w8, w32};
ghost use Rattle.giop_cdr.specs.Reading.Cursor.{Cursor};
ghost use Rattle.giop_cdr.specs.Reading.Outcome.{Allocates, Passes, Reads, ReadsAs};
ghost use Rattle.giop_cdr.specs.Reading.Values.{number_at, octets_at};
ghost use Rattle.giop_cdr.specs.Writing.Outcome.{Grows, Writes};
ghost use Rattle.giop_cdr.specs.Writing.Output.{number_out, Output};
ghost use Rattle.giop_cdr.specs.declared.fault.CdrFault.{CdrFault};
ghost use Rattle.laws_in_use.specs.Refused.{lacking, short, two_octets};

use giop_cdr::laws::{
    no_fault_is_told_as_want_of_memory, what_is_not_written_may_be_written_again,
    what_is_refused_is_refused_again,
};

/// An unsigned long in three octets is refused, and refused again, however it is read or passed over.
pub fn three_octets_are_refused_again()
    ensures reads { Reads short (Err lacking) short (number_at w32 short) }
    ensures views { ReadsAs (λ n. n) short (Err lacking) short (number_at w32 short) }
    ensures passes { Passes {X = ℕ} short (Err lacking) short (number_at w32 short) }
    ensures read_again { (new : Cursor) (again : Result ℕ CdrFault)
        → Reads short again new (number_at w32 short)
        → (again ≡ Err lacking) × (new ≡ short) }
    ensures viewed_again { (new : Cursor) (again : Result ℕ CdrFault)
        → ReadsAs (λ n. n) short again new (number_at w32 short)
        → (again ≡ Err lacking) × (new ≡ short) }
    ensures passed_again { (new : Cursor) (again : Result ℕ CdrFault)
        → Passes short again new (number_at w32 short)
        → (again ≡ Err lacking) × (new ≡ short) }
{
    what_is_refused_is_refused_again();
}

/// A sequence of octets whose count has no room is refused as too short, and as nothing else, also
/// where memory is wanting. The reader stays.
pub fn a_count_without_octets_is_short()
    ensures is { Allocates (λ octets. octets) short (Err lacking) short (octets_at 0 short) }
    ensures told { (e : CdrFault) (new : Cursor)
        → Allocates (λ octets. octets) short (Err e) new (octets_at 0 short) → e ≡ lacking }
    ensures stays { (e : CdrFault) (new : Cursor)
        → Allocates (λ octets. octets) short (Err e) new (octets_at 0 short) → new ≡ short }
{
    what_is_refused_is_refused_again();
    no_fault_is_told_as_want_of_memory();
}

/// An octet whose write was out of memory is written behind what was there, where it is written again.
pub fn an_octet_is_written_again()
    ensures out_of_memory { Writes {X = ℕ} {E = ℕ} two_octets (Err 0) two_octets
        (number_out w8 7 two_octets) }
    ensures written { Writes {X = ℕ} {E = ℕ} two_octets (Ok 0) (number_out w8 7 two_octets)
        (number_out w8 7 two_octets) }
    ensures again { (new : Output)
        → Writes {X = ℕ} {E = ℕ} two_octets (Ok 0) new (number_out w8 7 two_octets)
        → new ≡ number_out w8 7 two_octets }
    ensures behind { (new : Output)
        → Writes {X = ℕ} {E = ℕ} two_octets (Ok 0) new (number_out w8 7 two_octets)
        → Grows two_octets new }
{
    what_is_not_written_may_be_written_again();
}
