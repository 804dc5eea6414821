//! Laws of the layouts of references (CORBA 3.3 Part 2, 7.6.2) and of IIOP profiles (9.7.2). Each
//! function's contract is one of them; the bodies are empty, and no program calls them.
ghost use Rattle.std.specs.Prelude.{◌≡◌, ℕ, List, Ok, Err, true};
ghost use Rattle.giop_cdr.specs.declared.fault.CdrFault.{CdrFault};
ghost use Rattle.giop_cdr.specs.declared.order.Order.{Order};
ghost use Rattle.giop_cdr.specs.Encapsulation.OfLayout.{RefusedInside};
ghost use Rattle.giop_cdr.specs.Writing.Output.{Output};
ghost use Rattle.giop_cdr.specs.Layout.{AreOctets};
ghost use Rattle.giop_cdr.specs.RoundTrip.{IsReadBack};
ghost use Rattle.giop_cdr.specs.Reading.Exactness.{IsExact, Took, StandsAlone};
ghost use Rattle.giop_ior.specs.declared.addresses.corbaloc.Corbaloc.{Corbaloc};
ghost use Rattle.giop_ior.specs.CorbalocWriting.{IsInRange};
ghost use Rattle.giop_ior.specs.Iiop.{Profile, iiop_layout, IiopOctets, iiop_of, iiop_octets};
ghost use Rattle.giop_ior.specs.Ior.{Reference, ior_layout};
ghost use Rattle.giop_ior.specs.ToIor.{are_profiles, ReadAsAddresses};

/// A reference: what is read is what is spelled, field by field, and where nothing is spelled the
/// first refused field is returned. No spelling of a reference begins another. Whatever octets
/// spell fits: where a reference doesn't fit, no octets spell it.
pub fn references_are_spelled()
    ensures exact { IsExact (Took ior_layout.spells) ior_layout.refused ior_layout.read }
    ensures alone { StandsAlone ior_layout.spells }
    ensures fits { (order : Order) (at : ℕ) (ior : Reference) (octets : List ℕ) → AreOctets octets
        → ior_layout.spells order at ior octets
        → (ior_layout.fits ior ≡ true) × ior_layout.holds ior }
{}

/// What `write_ior` appends spells the reference, and reading returns the reference and leaves what
/// stands behind it: in both orders, at every offset.
pub fn written_references_are_read_back()
    ensures { (ior : Reference) (out : Output) → ior_layout.fits ior ≡ true → ior_layout.holds ior
        → IsReadBack ior_layout.spells ior_layout.read ior out (ior_layout.written ior out) }
{}

/// The octets of an IIOP profile (9.7.2). What is read is the profile that they are, whatever
/// stands behind the fields, and they are of one profile at most. What is refused is no
/// encapsulation of a profile: there is no octet, the first is no byte order, or the first field of
/// the table that is refused is. What `iiop_profile` writes is octets of the profile, and is read
/// back.
pub fn profiles_are_read()
    ensures exact { IsExact (Took iiop_layout.spells) iiop_layout.refused iiop_layout.read }
    ensures found { (octets : List ℕ) (p : Profile) → iiop_of octets ≡ Ok p → IiopOctets p octets }
    ensures only { (octets : List ℕ) (p : Profile) → IiopOctets p octets → iiop_of octets ≡ Ok p }
    ensures refused { (octets : List ℕ) (e : CdrFault) → iiop_of octets ≡ Err e
        → RefusedInside iiop_layout.refused 0 octets e }
    ensures refuses { (octets : List ℕ) (e : CdrFault) → RefusedInside iiop_layout.refused 0 octets e
        → iiop_of octets ≡ Err e }
    ensures written { (p : Profile) → iiop_layout.fits p ≡ true → iiop_layout.holds p
        → IiopOctets p (iiop_octets p) }
    ensures again { (p : Profile) → iiop_layout.fits p ≡ true → iiop_layout.holds p
        → iiop_of (iiop_octets p) ≡ Ok p }
{}

/// In the reference that `to_ior` makes of a corbaloc, the profile of each address is read as that
/// address, with the key.
pub fn addresses_are_profiles()
    ensures { (c : Corbaloc) → IsInRange c → are_profiles c ≡ true → ReadAsAddresses c }
{}
