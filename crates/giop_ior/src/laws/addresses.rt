//! Laws of corbaloc texts (CORBA 3.3 Part 2, 7.6.10.1): what is read, which fault is the first,
//! what is written. Each function's contract is one of them; the bodies are empty, and no program
//! calls them.
ghost use Rattle.std.specs.Prelude.{◌≡◌, ◌≤◌, List, ℕ, true, Ok, Err};
ghost use Rattle.giop_ior.specs.declared.addresses.corbaloc.Corbaloc.{Corbaloc};
ghost use Rattle.giop_ior.specs.Corbaloc.{CorbalocText};
ghost use Rattle.giop_ior.specs.declared.addresses.corbaloc_fault.CorbalocFault.{CorbalocFault};
ghost use Rattle.giop_ior.specs.declared.addresses.corbaloc_fault.CorbalocKind.{CorbalocKind};
ghost use Rattle.giop_ior.specs.CorbalocFault.{corbaloc_kind_number};
ghost use Rattle.giop_ior.specs.CorbalocReading.{corbaloc_of};
ghost use Rattle.giop_ior.specs.FirstFault.{IsFirstFault};
ghost use Rattle.giop_ior.specs.Refused.{RefusedCorbaloc};
ghost use Rattle.giop_ior.specs.CorbalocWriting.{corbaloc_text, is_writable, IsInRange};

/// The grammar of corbaloc texts: reading from the left returns exactly its values, and a text has
/// at most one.
pub fn corbalocs_are_read()
    ensures found { (text : List ℕ) (c : Corbaloc) → corbaloc_of text ≡ Ok c → CorbalocText c text }
    ensures only { (text : List ℕ) (c : Corbaloc) → CorbalocText c text → corbaloc_of text ≡ Ok c }
    ensures alone { (text : List ℕ) (c d : Corbaloc) → CorbalocText c text → CorbalocText d text
        → c ≡ d }
{}

/// A refusal is the first fault from the left, by the grammar alone. What stands before its place
/// can be continued to a corbaloc, by the part that its kind names. No text that agrees up to the
/// end of what stands there instead is a corbaloc.
pub fn faults_are_the_first()
    ensures { (text : List ℕ) (e : CorbalocFault) → corbaloc_of text ≡ Err e
        → IsFirstFault text e }
{}

/// A text that has a first fault is no corbaloc.
pub fn faulty_texts_are_no_corbalocs()
    ensures { (text : List ℕ) (e : CorbalocFault) → IsFirstFault text e
        → (c : Corbaloc) → CorbalocText c text → ⊥ }
{}

/// Which fault a text has, its kind and its place, by the grammar alone: the one that is returned is
/// the text's, and the text's is returned. So a text has one fault at most, and none beside a value.
pub fn corbalocs_are_refused()
    ensures refused { (text : List ℕ) (e : CorbalocFault) → corbaloc_of text ≡ Err e
        → RefusedCorbaloc text e }
    ensures refuses { (text : List ℕ) (e : CorbalocFault) → RefusedCorbaloc text e
        → corbaloc_of text ≡ Err e }
{}

/// Only values for which `is_writable` is true have a text. Where the numbers of such a value are
/// in the ranges of their types, the text that is written says the value, and is read back.
pub fn written_corbalocs_are_read_back()
    ensures writable { (text : List ℕ) (c : Corbaloc) → CorbalocText c text → is_writable c ≡ true }
    ensures written { (c : Corbaloc) → IsInRange c → is_writable c ≡ true
        → CorbalocText c (corbaloc_text c) }
    ensures again { (c : Corbaloc) → IsInRange c → is_writable c ≡ true
        → corbaloc_of (corbaloc_text c) ≡ Ok c }
{}

/// The numbers of the kinds of fault are 1 to 8, each the number of one kind.
pub fn kinds_are_numbered()
    ensures within { (kind : CorbalocKind) → (1 ≤ corbaloc_kind_number kind)
        × (corbaloc_kind_number kind ≤ 8) }
    ensures once { (one other : CorbalocKind)
        → corbaloc_kind_number one ≡ corbaloc_kind_number other → one ≡ other }
    ensures each { (number : ℕ) → 1 ≤ number → number ≤ 8
        → (kind : CorbalocKind) × (corbaloc_kind_number kind ≡ number) }
{}
