//! Values of CDR in octets: numbers in both orders behind padding, booleans, strings, sequences of
//! octets and encapsulations, read, refused and written.
ghost use Rattle.std.specs.Prelude.{◌≡◌, ◌<◌, ◌++◌, ◌∷◌, [], ℕ, negsuc, List, Ok, Err, Bool, true, false, codes};
ghost use Rattle.std.specs.Int.{w8, w16, w32, w64};
ghost use Rattle.giop_cdr.specs.declared.fault.CdrKind.TheVariants.{BadBoolean, BadCount, BadOrder, BadString, BoundPassed, Short};
ghost use Rattle.giop_cdr.specs.declared.order.Order.TheVariants.{Big, Little};
ghost use Rattle.giop_cdr.specs.Encapsulation.OfLayout.{encapsulation, IsShortTest, IsShortInside};
ghost use Rattle.giop_cdr.specs.Encapsulation.Opened.{closed, content_of, encapsulation_at, opened, place_opened};
ghost use Rattle.giop_cdr.specs.Layout.{AreOctets, IsLawful, number};
ghost use Rattle.giop_cdr.specs.Reading.Cursor.{pad};
ghost use Rattle.giop_cdr.specs.Reading.Values.{boolean_at, number_at, octets_at, signed_at, string_at};
ghost use Rattle.giop_cdr.specs.Spelling.{SpellsBoolean, SpellsNumber, SpellsOctets, SpellsString};

use giop_cdr::laws::{
    Laid, booleans_are_spelled, encapsulations_are_lawful, encapsulations_are_opened_again,
    numbers_are_spelled, octets_are_spelled, padding_is_least, primitives_are_lawful,
    strings_are_spelled, written_values_are_read_back,
};
use std::marker::Model;

/// Three octets lead from 13 to the next multiple of 8, and no fewer.
pub fn three_octets_of_padding()
    ensures { pad 8 13 ≡ 3 }
{
    padding_is_least();
}

/// An unsigned long behind two octets of padding is read in either order, whatever these are; a
/// short whose first bit is set is negative; where an octet is missing, it is too short where it
/// would begin. Octets that begin with a number begin with no other.
pub fn numbers_behind_padding()
    ensures big { number_at w32
        (record { order = Big; at = 2; rest = 7 ∷ 7 ∷ 0 ∷ 0 ∷ 1 ∷ 2 ∷ 9 ∷ [] })
        ≡ Ok (258, record { order = Big; at = 8; rest = 9 ∷ [] }) }
    ensures little { number_at w32
        (record { order = Little; at = 2; rest = 7 ∷ 7 ∷ 2 ∷ 1 ∷ 0 ∷ 0 ∷ 9 ∷ [] })
        ≡ Ok (258, record { order = Little; at = 8; rest = 9 ∷ [] }) }
    ensures long_long { number_at w64
        (record { order = Big; at = 8; rest = 0 ∷ 0 ∷ 0 ∷ 0 ∷ 0 ∷ 0 ∷ 1 ∷ 0 ∷ [] })
        ≡ Ok (256, record { order = Big; at = 16; rest = [] }) }
    ensures negative { signed_at w16
        (record { order = Little; at = 4; rest = 254 ∷ 255 ∷ [] })
        ≡ Ok (negsuc 1, record { order = Little; at = 6; rest = [] }) }
    ensures short { number_at w32
        (record { order = Big; at = 2; rest = 7 ∷ 7 ∷ 0 ∷ 0 ∷ 1 ∷ [] })
        ≡ Err (record { at = 4; kind = Short }) }
    ensures alone { (n : ℕ) (octets rest : List ℕ) → SpellsNumber w32 Big 2 n octets
        → octets ++ rest ≡ 7 ∷ 7 ∷ 0 ∷ 0 ∷ 1 ∷ 2 ∷ 9 ∷ [] → n ≡ 258 }
{
    numbers_are_spelled();
}

/// The octet 1 is true, and the octet 2 is no boolean; what is written of false is read as false.
pub fn booleans_in_octets()
    ensures yes { boolean_at (record { order = Big; at = 5; rest = 1 ∷ 0 ∷ [] })
        ≡ Ok (true, record { order = Big; at = 6; rest = 0 ∷ [] }) }
    ensures bad { boolean_at (record { order = Big; at = 5; rest = 2 ∷ [] })
        ≡ Err (record { at = 5; kind = BadBoolean }) }
    ensures none { boolean_at (record { order = Big; at = 5; rest = [] })
        ≡ Err (record { at = 5; kind = Short }) }
    ensures alone { (v : Bool) (octets rest : List ℕ) → SpellsBoolean Big 5 v octets
        → octets ++ rest ≡ 1 ∷ 0 ∷ [] → v ≡ true }
    ensures back { boolean_at (record { order = Big; at = 5; rest = 0 ∷ 7 ∷ [] })
        ≡ Ok (false, record { order = Big; at = 6; rest = 7 ∷ [] }) }
{
    booleans_are_spelled();
}

/// Three octets behind their number are read; not under a bound of two, and not where five are
/// counted.
pub fn a_sequence_of_octets()
    ensures three { octets_at 0
        (record { order = Big; at = 0; rest = 0 ∷ 0 ∷ 0 ∷ 3 ∷ 97 ∷ 98 ∷ 99 ∷ 7 ∷ [] })
        ≡ Ok (codes "abc", record { order = Big; at = 7; rest = 7 ∷ [] }) }
    ensures bound { octets_at 2
        (record { order = Big; at = 0; rest = 0 ∷ 0 ∷ 0 ∷ 3 ∷ 97 ∷ 98 ∷ 99 ∷ 7 ∷ [] })
        ≡ Err (record { at = 0; kind = BoundPassed }) }
    ensures count { octets_at 0
        (record { order = Big; at = 0; rest = 0 ∷ 0 ∷ 0 ∷ 5 ∷ 97 ∷ 98 ∷ 99 ∷ 7 ∷ [] })
        ≡ Err (record { at = 0; kind = BadCount }) }
    ensures alone { (octets spelling rest : List ℕ) → SpellsOctets Big 0 octets spelling
        → spelling ++ rest ≡ 0 ∷ 0 ∷ 0 ∷ 3 ∷ 97 ∷ 98 ∷ 99 ∷ 7 ∷ [] → octets ≡ codes "abc" }
{
    octets_are_spelled();
}

/// A string is its length with the null, its octets and the null. Without the null at its end it is
/// none, and under a bound of one octet it is too long.
pub fn a_string()
    ensures text { string_at 0
        (record { order = Little; at = 0; rest = 3 ∷ 0 ∷ 0 ∷ 0 ∷ 104 ∷ 105 ∷ 0 ∷ 7 ∷ [] })
        ≡ Ok (codes "hi", record { order = Little; at = 7; rest = 7 ∷ [] }) }
    ensures no_null { string_at 0
        (record { order = Little; at = 0; rest = 2 ∷ 0 ∷ 0 ∷ 0 ∷ 104 ∷ 105 ∷ 0 ∷ 7 ∷ [] })
        ≡ Err (record { at = 0; kind = BadString }) }
    ensures bound { string_at 1
        (record { order = Little; at = 0; rest = 3 ∷ 0 ∷ 0 ∷ 0 ∷ 104 ∷ 105 ∷ 0 ∷ 7 ∷ [] })
        ≡ Err (record { at = 0; kind = BoundPassed }) }
    ensures alone { (text spelling rest : List ℕ) → SpellsString Little 0 text spelling
        → spelling ++ rest ≡ 3 ∷ 0 ∷ 0 ∷ 0 ∷ 104 ∷ 105 ∷ 0 ∷ 7 ∷ [] → text ≡ codes "hi" }
{
    strings_are_spelled();
}

/// What is written at the offset 2 has padding before it, and is read as what was written.
pub fn written_at_two()
    ensures number { number_at w32
        (record { order = Little; at = 2; rest = 0 ∷ 0 ∷ 2 ∷ 1 ∷ 0 ∷ 0 ∷ 9 ∷ [] })
        ≡ Ok (258, record { order = Little; at = 8; rest = 9 ∷ [] }) }
    ensures signed { signed_at w16 (record { order = Big; at = 2; rest = 255 ∷ 254 ∷ [] })
        ≡ Ok (negsuc 1, record { order = Big; at = 4; rest = [] }) }
    ensures octets { octets_at 0
        (record { order = Big; at = 2; rest = 0 ∷ 0 ∷ 0 ∷ 0 ∷ 0 ∷ 1 ∷ 97 ∷ 9 ∷ [] })
        ≡ Ok (codes "a", record { order = Big; at = 9; rest = 9 ∷ [] }) }
    ensures text { string_at 0
        (record { order = Big; at = 2; rest = 0 ∷ 0 ∷ 0 ∷ 0 ∷ 0 ∷ 2 ∷ 97 ∷ 0 ∷ 9 ∷ [] })
        ≡ Ok (codes "a", record { order = Big; at = 10; rest = 9 ∷ [] }) }
{
    written_values_are_read_back();
}

/// An encapsulation of a little-endian number in a big-endian message is written, and opens as what
/// is in it; one of no octet and one of another byte order are refused at their first octet.
pub fn an_encapsulation_in_another_order()
    ensures opens { encapsulation_at (record {
      order = Big;
      at = 0;
      rest = 0 ∷ 0 ∷ 0 ∷ 8 ∷ 1 ∷ 0 ∷ 0 ∷ 0 ∷ 2 ∷ 1 ∷ 0 ∷ 0 ∷ [];
    }) ≡ Ok (
      content_of Little (0 ∷ 0 ∷ 0 ∷ 2 ∷ 1 ∷ 0 ∷ 0 ∷ []),
      record { order = Big; at = 12; rest = [] },
    ) }
    ensures written { (closed (place_opened (record { order = Big; at = 0; octets = [] })) (record {
      order = Little;
      at = 8;
      octets = (opened Little (record { order = Big; at = 0; octets = [] })).octets
          ++ 0 ∷ 0 ∷ 0 ∷ 2 ∷ 1 ∷ 0 ∷ 0 ∷ [];
    })).octets ≡ 0 ∷ 0 ∷ 0 ∷ 8 ∷ 1 ∷ 0 ∷ 0 ∷ 0 ∷ 2 ∷ 1 ∷ 0 ∷ 0 ∷ [] }
    ensures empty { encapsulation_at (record { order = Big; at = 0; rest = 0 ∷ 0 ∷ 0 ∷ 0 ∷ [] })
        ≡ Err (record { at = 4; kind = Short }) }
    ensures order { encapsulation_at (record {
      order = Big;
      at = 0;
      rest = 0 ∷ 0 ∷ 0 ∷ 1 ∷ 2 ∷ [];
    }) ≡ Err (record { at = 4; kind = BadOrder }) }
{
    encapsulations_are_opened_again();
}

/// An unsigned long, of which the layout is that of an unsigned long.
pub struct Counter {
    value: u32,
}

impl Model for Counter {
    ghost Value = { ℕ };

    ghost view = { λ counter. counter.value };
}

impl Laid for Counter {
    ghost layout = { number w32 };
}

/// A little-endian unsigned long in an encapsulation stands at offset 4 of it, wherever that begins
/// and whatever the order outside. It is read back; one whose last octet is missing is too short.
pub fn a_number_within_an_encapsulation()
    ensures lawful { IsLawful (number w32) }
    ensures short { IsShortTest Little (λ n. true) (number w32) }
    ensures inside { IsShortInside Little (number w32) 258 (record { order = Big; at = 6; octets = [] }) }
    ensures back { (encapsulation Little (λ n. true) (number w32)).read (record {
      order = Big;
      at = 6;
      rest = 0 ∷ 0 ∷ 0 ∷ 0 ∷ 0 ∷ 8 ∷ 1 ∷ 0 ∷ 0 ∷ 0 ∷ 2 ∷ 1 ∷ 0 ∷ 0 ∷ 9 ∷ [];
    }) ≡ Ok (258, record { order = Big; at = 20; rest = 9 ∷ [] }) }
    ensures refused { (encapsulation Big (λ n. true) (number w32)).read
        (record { order = Big; at = 0; rest = 0 ∷ 0 ∷ 0 ∷ 2 ∷ 1 ∷ 0 ∷ [] })
        ≡ Err (record { at = 4; kind = Short }) }
{
    primitives_are_lawful();
    encapsulations_are_lawful::<Counter>();
}

/// Layouts in use: what is read is what is spelled, what is written is spelled, and a number that
/// two octets spell is below 2^16.
pub fn primitives_in_use()
    ensures octets { AreOctets (1 ∷ 2 ∷ []) }
    ensures number { (n : ℕ) → SpellsNumber w16 Big 0 n (1 ∷ 2 ∷ []) → n < 65536 }
    ensures signed { signed_at w8 (record { order = Big; at = 0; rest = 255 ∷ [] })
        ≡ Ok (negsuc 0, record { order = Big; at = 1; rest = [] }) }
    ensures boolean { boolean_at (record { order = Big; at = 0; rest = 1 ∷ [] })
        ≡ Ok (true, record { order = Big; at = 1; rest = [] }) }
    ensures counted { octets_at 1
        (record { order = Big; at = 0; rest = 0 ∷ 0 ∷ 0 ∷ 1 ∷ 97 ∷ [] })
        ≡ Ok (codes "a", record { order = Big; at = 5; rest = [] }) }
    ensures encapsulated { (encapsulation Big (λ n. true) (number w32)).read
        (record { order = Little; at = 0; rest = 5 ∷ 0 ∷ 0 ∷ 0 ∷ 0 ∷ [] })
        ≡ Err (record { at = 0; kind = BadCount }) }
    ensures text { string_at 1
        (record { order = Big; at = 0; rest = 0 ∷ 0 ∷ 0 ∷ 2 ∷ 97 ∷ 0 ∷ [] })
        ≡ Ok (codes "a", record { order = Big; at = 6; rest = [] }) }
{
    primitives_are_lawful();
}
