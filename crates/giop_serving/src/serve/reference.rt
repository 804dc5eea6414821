//! The reference of an object that is served (CORBA 3.3 Part 2, 7.6.9). It is `reference_at` in
//! specs/Session/Target.antt of giop_commands: change both.
ghost use Rattle.std.specs.Prelude.{◌≡◌, ◌∷◌, [], IfOk, Ok};
ghost use Rattle.giop_ior.specs.Ior.{ior_layout};
ghost use Rattle.giop_ior_text.specs.IorText.{ior_text_of};
ghost use Rattle.giop_commands.specs.Session.Target.{profile_at, reference_at};

use giop_cdr::{EncodeFault, OctetList};
use giop_ior::{IiopProfile, Ior, Sequence, TaggedProfile, iiop_profile, ior_to_text};
use std::alloc::{AllocError, Global};

/// The text of the reference of an object, by its type id, its host, its port and its key: one
/// profile of IIOP 1.2 without components.
///
/// Refused as Unfit where a null is in the type id or the host, or one of them or the key is too
/// long for its count; else as NoMemory when out of memory.
pub fn reference_text(
    alloc: Global,
    type_id: &[u8],
    host: &[u8],
    port: u16,
    key: &[u8],
) -> Result<Vec<u8>, EncodeFault>
    ensures { IfOk result (λ text. ior_text_of ior_layout.read text.items
        ≡ Ok (reference_at type_id.now host.now port key.now)) }
{
    let profile = tagged_profile(alloc, host, port, key)?;
    let Ok(ior) = reference_of(alloc, type_id, profile) else {
        return Err(EncodeFault::NoMemory);
    };
    ior_to_text(alloc, &ior)
}

// A reference of one profile.
fn reference_of(alloc: Global, type_id: &[u8], profile: TaggedProfile) -> Result<Ior, AllocError>
    ensures { IfOk result (λ ior. ior ≡ record { type_id = type_id.now; profiles = profile ∷ [] }) }
{
    let mut profiles = Vec::with_capacity(alloc, 1)?;
    profiles.push(profile)?;
    Ok(Ior {
        type_id: OctetList::from_slice(alloc, type_id)?,
        profiles: Sequence::from(profiles),
    })
}

// The profile of IIOP 1.2 of an object.
fn tagged_profile(
    alloc: Global,
    host: &[u8],
    port: u16,
    key: &[u8],
) -> Result<TaggedProfile, EncodeFault>
    ensures { IfOk result (λ profile. profile ≡ profile_at host.now port key.now) }
{
    match iiop_at(alloc, host, port, key) {
        Ok(profile) => iiop_profile(alloc, &profile),
        Err(_) => Err(EncodeFault::NoMemory),
    }
}

// What that profile says.
fn iiop_at(alloc: Global, host: &[u8], port: u16, key: &[u8]) -> Result<IiopProfile, AllocError>
    ensures { IfOk result (λ profile. profile ≡ record {
      major = 1;
      minor = 2;
      host = host.now;
      port = port;
      key = key.now;
      components = [];
    }) }
{
    Ok(IiopProfile {
        major: 1,
        minor: 2,
        host: OctetList::from_slice(alloc, host)?,
        port,
        key: OctetList::from_slice(alloc, key)?,
        components: Sequence::new(alloc),
    })
}
