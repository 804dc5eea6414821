//! What single objects offer, each under its key, beside what all others do.
ghost use Rattle.std.specs.Prelude.{◌≡◌, IfOk, []};
ghost use Rattle.std.specs.BTreeMap.{insert_entry};
ghost use Rattle.giop_types.specs.Objects.{by_octets, offer_of};

use crate::interfaces::interface::Interface;
use crate::interfaces::offer::Offer;
use std::alloc::{AllocError, Global};
use std::collections::BTreeMap;

impl Interface {
    /// An interface of which no object offers anything.
    pub fn empty(alloc: Global) -> Interface
        ensures operations { result.general.operations.entries ≡ [] }
        ensures exceptions { result.general.exceptions.entries ≡ [] }
        ensures alone { result.objects.entries ≡ [] }
    {
        Interface::new(
            alloc,
            Offer::new(BTreeMap::new(alloc), BTreeMap::new(alloc)),
        )
    }

    /// This interface, of which the object at a key offers what is general in another one. Where an
    /// offer was given for the key before, the new one holds.
    ///
    /// Refused as AllocError where memory is wanting. Then both interfaces are dropped.
    pub fn with_object(self, key: Vec<u8>, object: Interface) -> Result<Interface, AllocError>
        ensures general { IfOk result (λ all. all.general ≡ self.general) }
        ensures objects { IfOk result (λ all. all.objects.entries
            ≡ insert_entry by_octets self.objects.entries key object.general) }
        ensures own { IfOk result (λ all. offer_of all key.items ≡ object.general) }
    {
        let mut all = self;
        match all.objects.insert(key, object.general) {
            Ok(before) => {
                drop(before);
                Ok(all)
            }
            Err(_) => Err(AllocError),
        }
    }

    /// What the object at a key offers: its own, where that was given; else what is general. It
    /// takes no memory. Its time grows with the logarithm of the number of objects.
    pub fn of_object(&self, key: &[u8]) -> &Offer
        ensures { result.now ≡ offer_of self.now key.now }
    {
        match self.objects.get(key) {
            Some(own) => own,
            None => &self.general,
        }
    }

    /// The objects for which an offer of their own was given, in the order of their keys.
    pub fn objects(&self) -> &BTreeMap<Vec<u8>, Offer>
        ensures { result.now ≡ self.now.objects }
    {
        &self.objects
    }
}
