//! Laws of the definitions that the readers' contracts cite: alignment, primitives, strings,
//! sequences of octets and encapsulations (CORBA 3.3 Part 2, 9.3). Each function's contract is one
//! of them; the bodies are empty, and no program calls them.
ghost use Rattle.std.specs.Prelude.{◌≡◌, ℕ, ℤ, ◌+◌, ◌%◌, ◌<◌, ◌≤◌, ◌^◌, ◌++◌, ◌∷◌, Bool, List, length, true, false, if◌then◌else◌};
ghost use Rattle.std.specs.Int.{Width, w8, byte_len};
ghost use Rattle.std.specs.Prelude.{FitsSigned};
ghost use mir.Val.{bits};
ghost use Rattle.giop_cdr.specs.Reading.Cursor.{is_alignment, pad};
ghost use Rattle.giop_cdr.specs.Reading.Values.{number_at, signed_at, boolean_at, octets_at, string_at, has_null};
ghost use Rattle.giop_cdr.specs.Spelling.{SpellsNumber, SpellsSigned, SpellsBoolean, SpellsOctets, SpellsString, Bounded};
ghost use Rattle.giop_cdr.specs.Writing.Output.{Output, number_out, signed_out, octets_out, string_out};
ghost use Rattle.giop_cdr.specs.Encapsulation.Opened.{order_octet, content_of, encapsulation_at, SpellsEncapsulation, RefusedEncapsulation, opened, place_opened, closed};
ghost use Rattle.giop_cdr.specs.declared.order.Order.{Order};
ghost use Rattle.giop_cdr.specs.RoundTrip.{IsReadBack, is_primitive};
ghost use Rattle.giop_cdr.specs.Reading.Exactness.{IsExact, Took, RefusedShort, RefusedBoolean, RefusedOctets, RefusedString, StandsAlone};

/// Padding leads to a multiple of the alignment, and no fewer octets do.
pub fn padding_is_least()
    ensures aligned { (n at : ℕ) → is_alignment n ≡ true → (at + pad n at) % n ≡ 0 }
    ensures least { (n at k : ℕ) → is_alignment n ≡ true → (at + k) % n ≡ 0 → pad n at ≤ k }
{}

/// Numbers of every width, in both orders: what `read_` returns is what is spelled, and where
/// nothing is spelled the octets are too few. No spelling of a number begins another.
pub fn numbers_are_spelled()
    ensures unsigned { (w : Width)
        → IsExact (Took (SpellsNumber w)) (RefusedShort (byte_len w)) (number_at w) }
    ensures signed { (w : Width)
        → IsExact (Took (SpellsSigned w)) (RefusedShort (byte_len w)) (signed_at w) }
    ensures alone { (w : Width) → StandsAlone (SpellsNumber w) }
{}

/// Sequences of octets, under every bound: what `read_octets` returns is what is spelled, and where
/// nothing is spelled the first refused field is returned. No spelling begins another.
pub fn octets_are_spelled()
    ensures exact { (bound : ℕ)
        → IsExact (Took (Bounded bound SpellsOctets)) (RefusedOctets bound) (octets_at bound) }
    ensures alone { StandsAlone SpellsOctets }
{}

/// Strings, under every bound: what `read_string` returns is what is spelled, and where nothing is
/// spelled the first refused field is returned. No spelling begins another.
pub fn strings_are_spelled()
    ensures exact { (bound : ℕ)
        → IsExact (Took (Bounded bound SpellsString)) (RefusedString bound) (string_at bound) }
    ensures alone { StandsAlone SpellsString }
{}

/// Booleans: what `read_boolean` returns is what is spelled, and where nothing is spelled there is
/// no octet, or it is neither 0 nor 1. What `write_boolean` appends is read back.
pub fn booleans_are_spelled()
    ensures exact { IsExact (Took SpellsBoolean) RefusedBoolean boolean_at }
    ensures alone { StandsAlone SpellsBoolean }
    ensures back { (v : Bool) (out : Output)
        → IsReadBack SpellsBoolean boolean_at v out (number_out w8 (if v then 1 else 0) out) }
{}

/// What `write_` appends of a value spells it, and `read_` returns the value and leaves what stands
/// behind it: in both orders, at every offset.
pub fn written_values_are_read_back()
    ensures numbers { (w : Width) (n : ℕ) (out : Output) → is_primitive w ≡ true → n < 2 ^ bits w
        → IsReadBack (SpellsNumber w) (number_at w) n out (number_out w n out) }
    ensures signed { (w : Width) (z : ℤ) (out : Output) → is_primitive w ≡ true → FitsSigned w z
        → IsReadBack (SpellsSigned w) (signed_at w) z out (signed_out w z out) }
    ensures octets { (octets : List ℕ) (out : Output) → length octets < 2 ^ 32
        → IsReadBack SpellsOctets (octets_at 0) octets out (octets_out octets out) }
    ensures strings { (text : List ℕ) (out : Output) → has_null text ≡ false
        → length text + 1 < 2 ^ 32
        → IsReadBack SpellsString (string_at 0) text out (string_out text out) }
{}

/// Encapsulations (9.3.3). Octets that were appended between `begin_encapsulation` and
/// `end_encapsulation` are then a sequence of octets: the order octet, and what was appended.
/// `open_encapsulation` returns exactly what such octets hold, or the first refused field.
pub fn encapsulations_are_opened_again()
    ensures written { (order : Order) (out now : Output) (content : List ℕ)
        → now.octets ≡ (opened order out).octets ++ content
        → closed (place_opened out) now ≡ octets_out (order_octet order ∷ content) out }
    ensures exact { IsExact (Took SpellsEncapsulation) RefusedEncapsulation encapsulation_at }
    ensures back { (order : Order) (out now : Output) (content : List ℕ)
        → now.octets ≡ (opened order out).octets ++ content → length content + 1 < 2 ^ 32
        → IsReadBack SpellsEncapsulation encapsulation_at (content_of order content) out
        (closed (place_opened out) now) }
{}
