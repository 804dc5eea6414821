//! Longs that are read and written at once, in use: two of them, as values of a sequence.
ghost use Rattle.std.specs.Prelude.{◌≡◌, ◌++◌, ◌∷◌, [], Ok, Err};
ghost use Rattle.std.specs.Int.{w32};
ghost use Rattle.giop_cdr.specs.Reading.Values.{sequence_at, signed_at};
ghost use Rattle.giop_cdr.specs.Writing.Output.{sequence_out, signed_out};
ghost use Rattle.giop_cdr.specs.declared.fault.CdrKind.TheVariants.{BadCount, Short};
ghost use Rattle.giop_cdr.specs.declared.order.Order.TheVariants.{Big};
ghost use Rattle.giop_types.specs.Coding.Decoding.{decode_at};
ghost use Rattle.giop_types.specs.Coding.Written.{value_out};
ghost use Rattle.giop_types.specs.Descriptions.Shape.{items, long};
ghost use Rattle.laws_in_use.specs.AtOnce.{at_front, cut_octets, longs, longs_octets, longs_out, longs_value, nothing_out};

use giop_types::laws::longs_at_once_are_items;

/// 7 and -2 behind their number are read at once, and as a sequence of two values. Cut off within
/// the second they are short there; where more are counted than octets follow, none is read.
pub fn two_longs_are_read()
    ensures at_once { sequence_at (signed_at w32) (at_front (longs_octets ++ 9 ∷ []))
        ≡ Ok (longs, record { order = Big; at = 12; rest = 9 ∷ [] }) }
    ensures values { decode_at (items long 0) (at_front (longs_octets ++ 9 ∷ []))
        ≡ Ok (longs_value, record { order = Big; at = 12; rest = 9 ∷ [] }) }
    ensures cut { decode_at (items long 0) (at_front cut_octets)
        ≡ Err (record { at = 8; kind = Short }) }
    ensures counted { decode_at (items long 0) (at_front (0 ∷ 0 ∷ 0 ∷ 2 ∷ 7 ∷ []))
        ≡ Err (record { at = 0; kind = BadCount }) }
{
    longs_at_once_are_items();
}

/// They are written at once as the sequence of the two values is.
pub fn two_longs_are_written()
    ensures at_once { sequence_out (signed_out w32) longs nothing_out ≡ longs_out }
    ensures values { value_out (items long 0) longs_value nothing_out ≡ longs_out }
{
    longs_at_once_are_items();
}
