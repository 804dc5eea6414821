//! The law of sequences that are read and written at once. The body is empty, and no program calls
//! it.
ghost use Rattle.std.specs.Prelude.{◌≡◌, ℤ, List};
ghost use Rattle.std.specs.Int.{w32};
ghost use Rattle.giop_cdr.specs.Reading.Cursor.{Cursor};
ghost use Rattle.giop_cdr.specs.Reading.Values.{sequence_at, signed_at};
ghost use Rattle.giop_cdr.specs.Writing.Output.{Output, sequence_out, signed_out};
ghost use Rattle.giop_types.specs.Coding.AtOnce.{items_of_longs};
ghost use Rattle.giop_types.specs.Coding.Decoding.{as_read, decode_at};
ghost use Rattle.giop_types.specs.Coding.Written.{value_out};
ghost use Rattle.giop_types.specs.Descriptions.Shape.{items, long};

/// A sequence of longs that `CdrIn::read_longs` of giop_cdr reads at once is the value that
/// `decode` reads there, and it is refused as that is, at the same places. What
/// `CdrOut::write_longs` writes at once is what `encode` writes of that value.
pub fn longs_at_once_are_items()
    ensures read { (at : Cursor) → decode_at (items long 0) at
        ≡ as_read items_of_longs (sequence_at (signed_at w32) at) }
    ensures written { (longs : List ℤ) (out : Output)
        → value_out (items long 0) (items_of_longs longs) out
        ≡ sequence_out (signed_out w32) longs out }
{}
