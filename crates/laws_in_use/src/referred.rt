//! References in use: the text of an address, a reference in octets and as text, and the profile of
//! an address.
ghost use Rattle.std.specs.Prelude.{◌≡◌, ◌++◌, ◌∷◌, [], ℕ, List, Ok, Err, true, codes};
ghost use Rattle.giop_cdr.specs.Layout.{AreOctets};
ghost use Rattle.giop_cdr.specs.declared.fault.CdrKind.TheVariants.{BadLabel, BadOrder, Short};
ghost use Rattle.giop_cdr.specs.declared.order.Order.TheVariants.{Big};
ghost use Rattle.giop_cdr.specs.Encapsulation.OfLayout.{RefusedInside};
ghost use Rattle.giop_cdr.specs.Reading.Exactness.{Took};
ghost use Rattle.giop_ior_text.specs.IorText.{ior_text_of, IorText, text_written};
ghost use Rattle.giop_ior.specs.Corbaloc.{CorbalocText};
ghost use Rattle.giop_ior.specs.CorbalocReading.{corbaloc_of};
ghost use Rattle.giop_ior.specs.CorbalocWriting.{corbaloc_text, is_writable, IsInRange};
ghost use Rattle.giop_ior.specs.declared.addresses.corbaloc.Corbaloc.{Corbaloc};
ghost use Rattle.giop_ior.specs.declared.addresses.corbaloc_fault.CorbalocFault.{CorbalocFault};
ghost use Rattle.giop_ior.specs.declared.addresses.corbaloc_fault.CorbalocKind.TheVariants.{BadChar, BadProtocol};
ghost use Rattle.giop_ior.specs.FirstFault.{IsFirstFault};
ghost use Rattle.giop_ior.specs.Iiop.{iiop_layout, iiop_of, IiopOctets, Profile};
ghost use Rattle.giop_ior.specs.Ior.{ior_layout, Reference};
ghost use Rattle.giop_ior.specs.Refused.{RefusedCorbaloc};
ghost use Rattle.giop_ior.specs.ToIor.{profile_of};
ghost use Rattle.giop_ior.specs.Written.{IsOfOctets};
ghost use Rattle.laws_in_use.specs.Referred.{address, profile, profile_octets, reference, reference_octets};

use giop_ior::laws::{
    addresses_are_profiles, corbalocs_are_read, corbalocs_are_refused, faults_are_the_first,
    faulty_texts_are_no_corbalocs, profiles_are_read, reference_texts_are_read,
    references_are_spelled, written_corbalocs_are_read_back, written_reference_texts_are_read_back,
    written_references_are_read_back,
};

/// The text of an address is read as that address and as no other; what is written of it is read
/// back; its profile is read as the address, with the key. And a text whose address has another
/// protocol is none, whatever is behind that.
pub fn the_text_of_an_address()
    ensures text { CorbalocText address (codes "corbaloc::h:9/k") }
    ensures read { corbaloc_of (codes "corbaloc::h:9/k") ≡ Ok address }
    ensures found { CorbalocText address (codes "corbaloc::h:9/k") }
    ensures alone { (other : Corbaloc) → CorbalocText other (codes "corbaloc::h:9/k")
        → other ≡ address }
    ensures writable { is_writable address ≡ true }
    ensures ranged { IsInRange address }
    ensures written { CorbalocText address (corbaloc_text address) }
    ensures again { corbaloc_of (corbaloc_text address) ≡ Ok address }
    ensures profile { iiop_of (profile_of (codes "k") (record {
      major = 1;
      minor = 0;
      host = codes "h";
      port = 9;
    })).octets ≡ Ok profile }
    ensures first { IsFirstFault (codes "corbaloc:http://h") (record { at = 9; kind = BadProtocol }) }
    ensures fault { (c : Corbaloc) → CorbalocText c (codes "corbaloc:http://h") → ⊥ }
{
    corbalocs_are_read();
    written_corbalocs_are_read_back();
    addresses_are_profiles();
    faults_are_the_first();
    faulty_texts_are_no_corbalocs();
}

/// A text whose key has an octet that stands for none has that fault, at that octet, and no other.
pub fn the_fault_of_a_text()
    ensures told { corbaloc_of (codes "corbaloc::h/^") ≡ Err (record { at = 12; kind = BadChar }) }
    ensures refused { RefusedCorbaloc (codes "corbaloc::h/^") (record { at = 12; kind = BadChar }) }
    ensures alone { (e : CorbalocFault) → RefusedCorbaloc (codes "corbaloc::h/^") e
        → e ≡ record { at = 12; kind = BadChar } }
{
    corbalocs_are_refused();
}

/// A reference with one profile is written, read back with what is behind it, and no other is
/// spelled so; its text is read back.
pub fn a_reference_in_octets()
    ensures octets { AreOctets reference_octets }
    ensures back { ior_layout.read (record {
      order = Big;
      at = 0;
      rest = reference_octets ++ 9 ∷ [];
    }) ≡ Ok (reference, record { order = Big; at = 21; rest = 9 ∷ [] }) }
    ensures spelled { Took ior_layout.spells (record {
      order = Big;
      at = 0;
      rest = reference_octets ++ 9 ∷ [];
    }) reference (record { order = Big; at = 21; rest = 9 ∷ [] }) }
    ensures alone { (other : Reference) (octets rest : List ℕ)
        → ior_layout.spells Big 0 other octets
        → octets ++ rest ≡ reference_octets ++ 9 ∷ [] → other ≡ reference }
    ensures fits { (other : Reference) → ior_layout.spells Big 0 other reference_octets
        → ior_layout.fits other ≡ true }
    ensures of_octets { IsOfOctets reference }
    ensures text { IorText ior_layout.spells reference
        (text_written ior_layout.written reference) }
    ensures text_back { ior_text_of ior_layout.read (text_written ior_layout.written reference)
        ≡ Ok reference }
    ensures text_read { IorText ior_layout.spells reference
        (text_written ior_layout.written reference) }
    ensures text_alone { (other : Reference)
        → IorText ior_layout.spells other (text_written ior_layout.written reference)
        → other ≡ reference }
    ensures text_fits { ior_layout.fits reference ≡ true }
{
    written_references_are_read_back();
    references_are_spelled();
    written_reference_texts_are_read_back();
    reference_texts_are_read();
}

/// A profile is written as its octets, which are read as it and as no other. No octets are too few,
/// and a first octet of 2 is no byte order.
pub fn a_profile_in_octets()
    ensures written { IiopOctets profile profile_octets }
    ensures again { iiop_of profile_octets ≡ Ok profile }
    ensures only { (other : Profile) → IiopOctets other profile_octets → other ≡ profile }
    ensures found { IiopOctets profile profile_octets }
    ensures fields { iiop_layout.read (record { order = Big; at = 1; rest = 2 ∷ [] })
        ≡ Err (record { at = 1; kind = BadLabel }) }
    ensures refused { RefusedInside iiop_layout.refused 0 [] (record { at = 0; kind = Short }) }
    ensures refuses { iiop_of (2 ∷ []) ≡ Err (record { at = 0; kind = BadOrder }) }
{
    profiles_are_read();
}
