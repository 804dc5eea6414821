//! The interfaces of the objects that one connection reaches, each under the key of its object.
ghost use Rattle.std.specs.Prelude.{◌≡◌, IfOk, []};
ghost use Rattle.std.specs.BTreeMap.{insert_entry};
ghost use Rattle.giop_types.specs.Objects.{by_octets, interface_of};

use crate::json::interface::Interface;
use std::alloc::{AllocError, Global};
use std::collections::BTreeMap;

impl Interface {
    /// An interface without operations and exceptions, to which those of objects are added.
    pub fn empty(alloc: Global) -> Interface
        ensures operations { result.operations.entries ≡ [] }
        ensures exceptions { result.exceptions.entries ≡ [] }
        ensures alone { result.objects.entries ≡ [] }
    {
        Interface::new(alloc, BTreeMap::new(alloc), BTreeMap::new(alloc))
    }

    /// This interface, and another one for the object at a key. Where the key had one, the new one
    /// holds.
    ///
    /// Refused as AllocError where memory is wanting. Then both interfaces are dropped.
    pub fn with_object(self, key: Vec<u8>, object: Interface) -> Result<Interface, AllocError>
        ensures operations { IfOk result (λ all. all.operations ≡ self.operations) }
        ensures exceptions { IfOk result (λ all. all.exceptions ≡ self.exceptions) }
        ensures objects { IfOk result (λ all. all.objects.entries
            ≡ insert_entry by_octets self.objects.entries key object) }
        ensures own { IfOk result (λ all. interface_of all key.items ≡ object) }
    {
        let mut all = self;
        match all.objects.insert(key, object) {
            Ok(before) => {
                drop(before);
                Ok(all)
            }
            Err(refused) => Err(AllocError),
        }
    }

    /// The interface of the object at a key: its own, where it has one; else this one. It takes no
    /// memory. Its time grows with the logarithm of the number of objects.
    pub fn of_object(&self, key: &[u8]) -> &Interface
        ensures { result.now ≡ interface_of self.now key.now }
    {
        match self.objects.get(key) {
            Some(own) => own,
            None => self,
        }
    }

    /// The objects that have an interface of their own, in the order of their keys.
    pub fn objects(&self) -> &BTreeMap<Vec<u8>, Interface>
        ensures { result.now ≡ self.now.objects }
    {
        &self.objects
    }
}
