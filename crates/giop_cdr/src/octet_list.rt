//! Octets that a value owns, such as those of a string or an object key. `OctetsAt` is their view
//! where they lie, and contracts see both as a plain list.
ghost use Rattle.std.specs.Prelude.{◌≡◌, ◌==◌, ◌++◌, List, [], ℕ, length, IfOk, OnOk, OnErr};

use std::alloc::{AllocError, Global};
use std::marker::Model;

/// The octets of a field: a `Vec<u8>` that contracts see as the plain list of its octets.
#[derive(Debug, Drop)]
pub struct OctetList {
    octets: Vec<u8>,
}

impl Model for OctetList {
    ghost Value = { List ℕ };

    ghost view = { λ l. l.octets.items };
}

impl OctetList {
    /// An empty list. It takes no memory.
    pub fn new(alloc: Global) -> OctetList
        ensures { result ≡ [] }
    {
        OctetList {
            octets: Vec::new(alloc),
        }
    }

    /// A copy of `octets`. It takes memory once, for all of them.
    pub fn from_slice(alloc: Global, octets: &[u8]) -> Result<OctetList, AllocError>
        ensures { IfOk result (λ l. l ≡ octets.now) }
    {
        Ok(OctetList {
            octets: Vec::from_slice(alloc, octets)?,
        })
    }

    /// The octets in one slice.
    pub fn as_slice(&self) -> &[u8]
        ensures { result.now ≡ self.now }
    {
        self.octets.as_slice()
    }

    /// The number of octets.
    pub fn len(&self) -> usize
        ensures { result ≡ length self.now }
    {
        self.octets.len()
    }

    /// Whether there are no octets.
    pub fn is_empty(&self) -> bool
        ensures { result ≡ (length self.now == 0) }
    {
        self.octets.is_empty()
    }

    /// Appends `octets`. Out of memory, nothing changes.
    pub fn extend_from_slice(&mut self, octets: &[u8]) -> Result<(), AllocError>
        ensures ok { OnOk result (self.new ≡ self.old ++ octets.now) }
        ensures err { OnErr result (self.new ≡ self.old) }
    {
        self.octets.extend_from_slice(octets)
    }

    /// The octets as a `Vec`. It takes no memory.
    pub fn into_vec(self) -> Vec<u8>
        ensures { result.items ≡ self }
    {
        self.octets
    }
}

impl From<Vec<u8>> for OctetList {
    ghost from_gives = { λ octets list. list ≡ octets.items };

    fn from(octets: Vec<u8>) -> OctetList {
        OctetList { octets }
    }
}

impl PartialEq for OctetList {
    ghost use Rattle.std.specs.Prelude.{nat_eq};
    ghost use Rattle.std.specs.Cmp.Lexicographic.{pointwise};
    ghost use Rattle.std.specs.Cmp.Rules.{comparing};
    ghost use Rattle.std.proofs.Common.{rules};

    ghost eq = { pointwise nat_eq };

    ghost laws = { Prim.search (comparing, rules) };

    fn eq(&self, other: &OctetList) -> bool {
        self.octets == other.octets
    }
}

impl Eq for OctetList {
    ghost use Rattle.std.specs.Cmp.Rules.{comparing};
    ghost use Rattle.std.proofs.Common.{rules};

    ghost laws = { Prim.search (comparing, rules) };
}
