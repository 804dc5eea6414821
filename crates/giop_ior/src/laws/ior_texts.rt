//! Laws of the text of a reference (CORBA 3.3 Part 2, 7.6.9): what is read, and what is written.
//! Each function's contract is one of them; the bodies are empty, and no program calls them.
ghost use Rattle.std.specs.Prelude.{◌≡◌, List, ℕ, Ok, true};
ghost use Rattle.giop_ior_text.specs.IorText.{IorText, ReadsTexts, ior_text_of, text_written};
ghost use Rattle.giop_ior.specs.Ior.{Reference, ior_layout};
ghost use Rattle.giop_ior.specs.Written.{IsOfOctets};

/// The grammar of the texts of references: what is read is what the text says, and the fault that
/// is returned is the one that it has. A text says one reference at most, and one that can be
/// written.
pub fn reference_texts_are_read()
    ensures exact { ReadsTexts ior_layout.spells ior_layout.refused (ior_text_of ior_layout.read) }
    ensures alone { (text : List ℕ) (one two : Reference) → IorText ior_layout.spells one text
        → IorText ior_layout.spells two text → one ≡ two }
    ensures fits { (text : List ℕ) (ior : Reference) → IorText ior_layout.spells ior text
        → ior_layout.fits ior ≡ true }
{}

/// The text that `ior_to_text` writes says the reference, and is read back, where its type_id and
/// its profiles are octets: numbers below 256.
pub fn written_reference_texts_are_read_back()
    ensures written { (ior : Reference) → ior_layout.fits ior ≡ true → ior_layout.holds ior
        → IsOfOctets ior
        → IorText ior_layout.spells ior (text_written ior_layout.written ior) }
    ensures again { (ior : Reference) → ior_layout.fits ior ≡ true → ior_layout.holds ior
        → IsOfOctets ior
        → ior_text_of ior_layout.read (text_written ior_layout.written ior) ≡ Ok ior }
{}
