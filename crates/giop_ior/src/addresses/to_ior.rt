//! The reference of a corbaloc (CORBA 3.3 Part 2, 7.6.10.1): an IIOP profile for each address, as
//! `specs/ToIor.antt` defines it.
ghost use Rattle.std.specs.Prelude.{◌≡◌, ◌↔◌, ◌++◌, [], ◌∷◌, false, true, map, IfOk, IsErrOf, IfErr};
ghost use Rattle.std.specs.List.{list_all};
ghost use Rattle.giop_cdr.specs.declared.encode_fault.EncodeFault.{EncodeFault};
ghost use Rattle.giop_ior.specs.Iiop.{iiop_layout};
ghost use Rattle.giop_ior.specs.ToIor.{address_profile, profile_of, ior_of, are_profiles};

use crate::addresses::address::Address;
use crate::addresses::corbaloc::Corbaloc;
use crate::references::iiop_writing::{are_components, iiop_profile};
use crate::references::ior::Ior;
use crate::references::ior_writing::{is_countable, is_text};
use crate::references::profile::IiopProfile;
use crate::references::sequence::Sequence;
use crate::references::tagged_profile::TaggedProfile;
use giop_cdr::{EncodeFault, OctetList};
use std::alloc::{AllocError, Global};

impl Corbaloc {
    /// The reference of the corbaloc (CORBA 3.3 Part 2, 7.6.10.1): no type id, and for each
    /// address, in their order, an IIOP profile of that version, host and port, with the corbaloc's
    /// key and no components.
    ///
    /// Refused as Unfit where a major version isn't 1, a null is in a host, or a host or the key is
    /// too long for its count; else as NoMemory when out of memory.
    pub fn to_ior(&self, alloc: Global) -> Result<Ior, EncodeFault>
        ensures value { IfOk result (λ ior. ior ≡ ior_of self.now) }
        ensures err { IsErrOf result EncodeFault.Unfit ↔ (are_profiles self.now ≡ false) }
    {
        if !are_profiles(self) {
            return Err(EncodeFault::Unfit);
        }
        let Ok(profiles) = profiles_of(alloc, self.addresses.as_slice(), self.key.as_slice()) else {
            return Err(EncodeFault::NoMemory);
        };
        Ok(Ior {
            type_id: OctetList::new(alloc),
            profiles: Sequence::from(profiles),
        })
    }
}

#[tactic(auto, unfolding(crate::specs::Iiop::iiop_layout, crate::specs::Iiop::major_version, giop_cdr::specs::Layout::field, giop_cdr::specs::Layout::such, giop_cdr::specs::Layout::number, giop_cdr::specs::Layout::octets, giop_cdr::specs::Layout::text, giop_cdr::specs::Layout::gives))]
fn is_profile(address: &Address, key: &[u8]) -> bool
    ensures { result ≡ iiop_layout.fits (address_profile key.now address.now) }
{
    address.major == 1
        && is_text(address.host.as_slice())
        && is_countable(key)
        && are_components(address.minor, &[])
}

// Whether each address can be written as a profile with the key.
fn are_profiles(corbaloc: &Corbaloc) -> bool
    ensures { result ≡ are_profiles corbaloc.now }
{
    each_is_profile(corbaloc.addresses.as_slice(), corbaloc.key.as_slice())
}

fn each_is_profile(addresses: &[Address], key: &[u8]) -> bool
    ensures { result ≡ list_all (λ a. iiop_layout.fits (address_profile key.now a)) addresses.now }
{
    addresses.iter().all(|address| is_profile(address, key))
}

fn owned_profile(alloc: Global, address: &Address, key: &[u8]) -> Result<IiopProfile, AllocError>
    ensures { IfOk result (λ profile. profile ≡ address_profile key.now address.now) }
{
    Ok(IiopProfile {
        major: address.major,
        minor: address.minor,
        host: OctetList::from_slice(alloc, address.host.as_slice())?,
        port: address.port,
        key: OctetList::from_slice(alloc, key)?,
        components: Sequence::new(alloc),
    })
}

fn profile_of(alloc: Global, address: &Address, key: &[u8]) -> Result<TaggedProfile, EncodeFault>
    requires { iiop_layout.fits (address_profile key.now address.now) ≡ true }
    ensures value { IfOk result (λ tagged. tagged ≡ profile_of key.now address.now) }
    ensures memory { IfErr result (λ e. e ≡ EncodeFault.NoMemory) }
{
    let profile = owned_profile(alloc, address, key)?;
    iiop_profile(alloc, &profile)
}

fn profiles_of(
    alloc: Global,
    addresses: &[Address],
    key: &[u8],
) -> Result<Vec<TaggedProfile>, EncodeFault>
    requires { list_all (λ a. iiop_layout.fits (address_profile key.now a)) addresses.now ≡ true }
    ensures value { IfOk result
        (λ profiles. profiles.items ≡ map (profile_of key.now) addresses.now) }
    ensures memory { IfErr result (λ e. e ≡ EncodeFault.NoMemory) }
{
    let mut profiles = Vec::new(alloc);
    for address in addresses {
        let profile = profile_of(alloc, address, key)?;
        if profiles.push(profile).is_err() {
            return Err(EncodeFault::NoMemory);
        }
    }
    Ok(profiles)
}
