//! Laws of the text of a reference (CORBA 3.3 Part 2, 7.6.9), above the definitions of
//! giop_ior_text. Each function's contract is one of them; the bodies are empty, and no program
//! calls these.
ghost use Rattle.std.specs.Prelude.{◌≡◌, ◌++◌, ℕ, List, true, false, codes, Ok};
ghost use Rattle.giop_cdr.specs.Layout.{AreOctets};
ghost use Rattle.giop_types.specs.Coding.Decoding.{decode_at};
ghost use Rattle.giop_types.specs.Values.Fits.{fits};
ghost use Rattle.giop_types.specs.Descriptions.Full.{is_full};
ghost use Rattle.giop_ior_text.specs.IorText.{ReadsTexts, IorText, PrefixedText, octets_of, ior_text_of, begun, prefixed, text_written};
ghost use Rattle.giop_types.specs.Coding.Refusals.{RefusedShape};
ghost use Rattle.giop_types.specs.Descriptions.Shape.{Shape};
ghost use Rattle.giop_types.specs.Coding.Spells.{Spells};
ghost use Rattle.giop_types.specs.Values.Tree.{Tree};
ghost use Rattle.giop_types.specs.Coding.Written.{value_out};

/// The grammar of the texts of references, whatever the value that is encapsulated. What is read is
/// what the text says, and the fault that is reported is the one that it has. A text says one value
/// at most.
pub fn ior_texts_are_read()
    ensures exact { (shape : Shape) → is_full shape ≡ true
        → ReadsTexts (Spells shape) (RefusedShape shape) (ior_text_of (decode_at shape)) }
    ensures alone { (shape : Shape) → is_full shape ≡ true → (text : List ℕ) (t u : Tree)
        → IorText (Spells shape) t text → IorText (Spells shape) u text → t ≡ u }
{}

/// The text that is written of octets says them. The text that is written of a fitting value says
/// the value, and is read as that value again.
pub fn written_ior_texts_are_read_back()
    ensures octets { (octets : List ℕ) → AreOctets octets → PrefixedText octets (prefixed octets) }
    ensures written { (shape : Shape) → is_full shape ≡ true
        → (tree : Tree) → fits shape tree ≡ true
        → IorText (Spells shape) tree (text_written (value_out shape) tree) }
    ensures again { (shape : Shape) → is_full shape ≡ true
        → (tree : Tree) → fits shape tree ≡ true
        → ior_text_of (decode_at shape) (text_written (value_out shape) tree) ≡ Ok tree }
{}
