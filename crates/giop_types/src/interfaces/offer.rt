//! What an object offers: its operations and exceptions, by name and by id.
ghost use Rattle.std.specs.Prelude.{◌≡◌, option_copied};
ghost use Rattle.std.specs.BTreeMap.{get_by};
ghost use Rattle.std.specs.Ordering.{nat_cmp};
ghost use Rattle.std.specs.Cmp.Lexicographic.{slice_cmp};

use crate::interfaces::interface::Operation;
use crate::interfaces::parameters::Parameters;
use std::collections::BTreeMap;

/// What an object offers: its operations by their names and its exceptions by their ids. No name
/// and no id is there twice, and every description is checked.
#[derive(Debug, Drop)]
pub struct Offer {
    operations: BTreeMap<Vec<u8>, Operation>,
    exceptions: BTreeMap<Vec<u8>, Parameters>,
}

impl Offer {
    /// These operations and exceptions.
    pub fn new(
        operations: BTreeMap<Vec<u8>, Operation>,
        exceptions: BTreeMap<Vec<u8>, Parameters>,
    ) -> Offer
        ensures operations { result.operations ≡ operations }
        ensures exceptions { result.exceptions ≡ exceptions }
    {
        Offer {
            operations,
            exceptions,
        }
    }

    /// The operation of this name. It takes no memory. Its time grows with the logarithm of the
    /// number of operations.
    pub fn operation(&self, name: &[u8]) -> Option<&Operation>
        ensures { option_copied result
            ≡ get_by (λ key. slice_cmp nat_cmp name.now key.items) self.now.operations }
    {
        self.operations.get(name)
    }

    /// The members of the exception of this id. It takes no memory. Its time grows with the
    /// logarithm of the number of exceptions.
    pub fn exception(&self, id: &[u8]) -> Option<&Parameters>
        ensures { option_copied result
            ≡ get_by (λ key. slice_cmp nat_cmp id.now key.items) self.now.exceptions }
    {
        self.exceptions.get(id)
    }

    /// The operations, in the order of their names.
    pub fn operations(&self) -> &BTreeMap<Vec<u8>, Operation>
        ensures { result.now ≡ self.now.operations }
    {
        &self.operations
    }

    /// The exceptions, in the order of their ids.
    pub fn exceptions(&self) -> &BTreeMap<Vec<u8>, Parameters>
        ensures { result.now ≡ self.now.exceptions }
    {
        &self.exceptions
    }
}
