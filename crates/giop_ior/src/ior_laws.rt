// Laws of the tables. Each function's contract is one of them; the bodies are empty, and no program
// calls these.
ghost use Rattle.std.specs.Prelude.{◌≡◌, ℕ, List, true};
ghost use Rattle.giop_cdr.specs.declared.order.Order.{Order};
ghost use Rattle.giop_cdr.specs.Output.{Output};
ghost use Rattle.giop_cdr.specs.Layout.{AreOctets};
ghost use Rattle.giop_cdr.specs.RoundTrip.{IsReadBack};
ghost use Rattle.giop_cdr.specs.Readers.{IsExact, Took, StandsAlone};
ghost use Rattle.giop_ior.specs.Ior.{Reference, ior_layout};

/// A reference: what is read is what is spelled, field by field, and where nothing is spelled the first
/// refused field is answered. No spelling of a reference begins another. Whatever octets spell fits:
/// where a reference doesn't fit, no octets spell it.
pub fn references_are_spelled()
    ensures exact { IsExact (Took ior_layout.spells) ior_layout.refused ior_layout.read }
    ensures alone { StandsAlone ior_layout.spells }
    ensures fits { (order : Order) (at : ℕ) (ior : Reference) (octets : List ℕ) → AreOctets octets
        → ior_layout.spells order at ior octets → (ior_layout.fits ior ≡ true) × ior_layout.holds ior }
{}

/// What `write_ior` appends spells the reference, and reading gives it back and leaves what stands
/// behind it: in both orders, at every offset.
pub fn written_references_are_read_back()
    ensures { (ior : Reference) (out : Output) → ior_layout.fits ior ≡ true → ior_layout.holds ior
        → IsReadBack ior_layout.spells ior_layout.read ior out (ior_layout.written ior out) }
{}
