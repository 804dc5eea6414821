//! Tagged profiles and tagged components (CORBA 3.3 Part 2, 7.6.2) as values: a tag, and octets
//! whose meaning it says.
ghost use Rattle.std.specs.Prelude.{◌≡◌, refl};

use giop_cdr::{OctetList, Tagged};

/// One way to reach an object (CORBA 3.3 Part 2, 7.6.2): its octets mean what the tag says.
#[derive(Debug, Drop, PartialEq, Eq)]
pub struct TaggedProfile {
    /// What the octets are: 0 is an IIOP profile.
    pub tag: u32,
    /// The octets, as they came.
    pub octets: OctetList,
}

/// What a profile says of its object beside its own fields (7.6.2): octets that are carried unread.
#[derive(Debug, Drop, PartialEq, Eq)]
pub struct TaggedComponent {
    /// What the octets are.
    pub tag: u32,
    /// The octets, as they came.
    pub octets: OctetList,
}

/// The number and the octets of a `Tagged` value, by which it is written.
pub trait TaggedParts: Tagged {
    ghost use Rattle.std.specs.Prelude.{◌≡◌, ℕ, List};

    // The number, as contracts see it.
    ghost tag_of: { Self → ℕ };

    // The octets, as contracts see them.
    ghost contents_of: { Self → List ℕ };

    /// The number, which says what the octets are.
    fn tag(&self) -> u32
        ensures { result ≡ tag_of self.now };

    /// The octets.
    fn contents(&self) -> &[u8]
        ensures { result.now ≡ contents_of self.now };

    // A value is what its number and its octets make.
    ghost is_made: { (x : Self) → x ≡ Self.made (tag_of x) (contents_of x) };
}

impl Tagged for TaggedProfile {
    ghost made = { λ tag contents. record { tag = tag; octets = contents } };

    fn from_parts(tag: u32, octets: OctetList) -> TaggedProfile {
        TaggedProfile { tag, octets }
    }
}

impl TaggedParts for TaggedProfile {
    ghost tag_of = { λ profile. profile.tag };

    ghost contents_of = { λ profile. profile.octets };

    ghost is_made = { λ profile. refl };

    fn tag(&self) -> u32 {
        self.tag
    }

    fn contents(&self) -> &[u8] {
        self.octets.as_slice()
    }
}

impl Tagged for TaggedComponent {
    ghost made = { λ tag contents. record { tag = tag; octets = contents } };

    fn from_parts(tag: u32, octets: OctetList) -> TaggedComponent {
        TaggedComponent { tag, octets }
    }
}

impl TaggedParts for TaggedComponent {
    ghost tag_of = { λ component. component.tag };

    ghost contents_of = { λ component. component.octets };

    ghost is_made = { λ component. refl };

    fn tag(&self) -> u32 {
        self.tag
    }

    fn contents(&self) -> &[u8] {
        self.octets.as_slice()
    }
}
