//! The target of a Request or a LocateRequest (9.4.2.1). Its layout is specs/Target.antt, read in
//! target_reading.rt and written in target_writing.rt: change them together.
ghost use Rattle.std.specs.Prelude.{◌≡◌, IfOk};
ghost use Rattle.giop_msg.specs.Messages.Request.{offer_at};

use giop_cdr::{OctetList, Octets, OctetsAt};
use giop_ior::{Ior, IorAt, TaggedProfile};
use giop_types::{Interface, Offer};
use std::alloc::{AllocError, Global};
use std::marker::Model;

/// Which object a Request or a LocateRequest is for (9.4.2.1, TargetAddress): with its octets on
/// their own or, as a `TargetAt`, where they lie. Contracts see both as one value.
///
/// Before 1.2 it is a key, without a disposition.
#[derive(Debug, Drop, PartialEq, Eq)]
pub enum Target<O = OctetList, P = TaggedProfile, I = Ior> {
    /// The object's key, as its own broker reads it: disposition 0, KeyAddr.
    Key(O),
    /// One profile of a reference to the object: disposition 1, ProfileAddr.
    Profile(P),
    /// A reference to the object, and which of its profiles was used: disposition 2, ReferenceAddr.
    Reference {
        /// The number of the profile, counted from 0. It isn't judged.
        index: u32,
        /// The reference.
        ior: I,
    },
}

/// A target whose octets lie where they were read. It takes no memory.
pub type TargetAt<'a, S> = Target<OctetsAt<'a, S>, ProfileAt<'a, S>, IorAt<'a, S>>;

/// A tagged profile whose octets lie where they were read: contracts see it as a `TaggedProfile`.
#[derive(Drop)]
pub struct ProfileAt<'a, S: Octets> {
    /// What the octets are: 0 is an IIOP profile.
    pub tag: u32,
    /// What the profile says, by its tag.
    pub octets: OctetsAt<'a, S>,
}

impl<'a, S: Octets> Model for ProfileAt<'a, S> {
    ghost use Rattle.giop_ior.specs.declared.references.tagged_profile.TaggedProfile.{TaggedProfile};

    ghost Value = { TaggedProfile };

    ghost view = { λ p. record { tag = p.tag; octets = p.octets } };
}

impl<'a, S: Octets> ProfileAt<'a, S> {
    /// The profile's tag.
    pub fn tag(&self) -> u32
        ensures { result ≡ self.now.tag }
    {
        self.tag
    }

    /// A copy of the profile on its own. It takes memory for its octets.
    #[inline(always)]
    pub fn to_owned(&self, alloc: Global) -> Result<TaggedProfile, AllocError>
        ensures { IfOk result (λ profile. profile ≡ self.now) }
    {
        Ok(TaggedProfile {
            tag: self.tag,
            octets: self.octets.to_list(alloc)?,
        })
    }
}

impl Target {
    /// What the object offers that is asked: of a key its own offer, where one was given. A profile
    /// and a reference ask for what is general.
    pub fn offer_in<'a>(&self, interface: &'a Interface) -> &'a Offer
        ensures { result.now ≡ offer_at interface.now self.now }
    {
        match self {
            Target::Key(key) => interface.of_object(key.as_slice()),
            _ => interface.general(),
        }
    }
}

impl<'a, S: Octets> TargetAt<'a, S> {
    /// What the object offers that is asked, as `offer_in` of a target on its own says.
    pub fn offer_among<'b>(&self, interface: &'b Interface) -> &'b Offer
        ensures { result.now ≡ offer_at interface.now self.now }
    {
        match self {
            Target::Key(key) => interface.of_object_at(key),
            _ => interface.general(),
        }
    }

    /// A copy of the target on its own. It takes memory for its octets and profiles.
    #[inline(always)]
    pub fn to_owned(&self, alloc: Global) -> Result<Target, AllocError>
        ensures { IfOk result (λ target. target ≡ self.now) }
    {
        match self {
            Target::Key(key) => Ok(Target::Key(key.to_list(alloc)?)),
            Target::Profile(profile) => Ok(Target::Profile(profile.to_owned(alloc)?)),
            Target::Reference { index, ior } => Ok(Target::Reference {
                index: *index,
                ior: ior.to_owned(alloc)?,
            }),
        }
    }
}
