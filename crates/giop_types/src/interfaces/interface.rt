//! An interface as callers see it: what the objects of a connection offer. giop_json makes one of
//! JSON, objects.rt adds what single objects offer.
ghost use Rattle.std.specs.Prelude.{◌≡◌, [], option_copied, length, true};
ghost use Rattle.std.specs.BTreeMap.{get_by};
ghost use Rattle.std.specs.Ordering.{nat_cmp};
ghost use Rattle.std.specs.Cmp.Lexicographic.{slice_cmp};

use crate::interfaces::offer::Offer;
use crate::interfaces::parameters::Parameters;
use std::alloc::Global;
use std::collections::BTreeMap;

/// An operation: what a request of it carries, and what its reply does (CORBA 3.3 Part 2, 9.4.2,
/// 9.4.3).
#[derive(Debug, Drop)]
pub struct Operation {
    /// Whether no reply is sent. Then there are no outs.
    pub oneway: bool,
    /// The in and inout parameters.
    pub ins: Parameters,
    /// The result, and then the inout and out parameters.
    pub outs: Parameters,
    pub ghost silent: { oneway ≡ true → length outs.list.items ≡ 0 },
}

/// What the objects of a connection offer: those for which an offer of their own was given that,
/// by their keys, and all others one that is general.
#[derive(Debug, Drop)]
pub struct Interface {
    pub(crate) general: Offer,
    pub(crate) objects: BTreeMap<Vec<u8>, Offer>,
}

impl Interface {
    /// An interface of which each object offers the same.
    pub fn new(alloc: Global, general: Offer) -> Interface
        ensures general { result.general ≡ general }
        ensures alone { result.objects.entries ≡ [] }
    {
        Interface {
            general,
            objects: BTreeMap::new(alloc),
        }
    }

    /// What an object offers for which no offer of its own was given.
    pub fn general(&self) -> &Offer
        ensures { result.now ≡ self.now.general }
    {
        &self.general
    }

    /// The general operation of this name. It takes no memory. Its time grows with the logarithm of
    /// the number of operations.
    pub fn operation(&self, name: &[u8]) -> Option<&Operation>
        ensures { option_copied result
            ≡ get_by (λ key. slice_cmp nat_cmp name.now key.items) self.now.general.operations }
    {
        self.general.operation(name)
    }

    /// The members of the general exception of this id. It takes no memory. Its time grows with the
    /// logarithm of the number of exceptions.
    pub fn exception(&self, id: &[u8]) -> Option<&Parameters>
        ensures { option_copied result
            ≡ get_by (λ key. slice_cmp nat_cmp id.now key.items) self.now.general.exceptions }
    {
        self.general.exception(id)
    }

    /// The general operations, in the order of their names.
    pub fn operations(&self) -> &BTreeMap<Vec<u8>, Operation>
        ensures { result.now ≡ self.now.general.operations }
    {
        self.general.operations()
    }

    /// The general exceptions, in the order of their ids.
    pub fn exceptions(&self) -> &BTreeMap<Vec<u8>, Parameters>
        ensures { result.now ≡ self.now.general.exceptions }
    {
        self.general.exceptions()
    }
}
