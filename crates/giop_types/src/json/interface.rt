//! An interface as callers see it: its operations and exceptions, by name and by id.
//! interface_json.rt makes one of JSON, objects.rt has those of objects.
ghost use Rattle.std.specs.Prelude.{◌≡◌, [], option_copied, length, true};
ghost use Rattle.std.specs.BTreeMap.{get_by};
ghost use Rattle.std.specs.Ordering.{nat_cmp};
ghost use Rattle.std.specs.Cmp.Lexicographic.{slice_cmp};

use crate::json::parameters::Parameters;
use std::alloc::Global;
use std::collections::BTreeMap;

/// An operation: what a request of it carries, and what its reply does (CORBA 3.3 Part 2, 9.4.2,
/// 9.4.3).
#[derive(Debug, Drop)]
pub struct Operation {
    /// Whether no reply is sent. Then there are no outs.
    pub oneway: bool,
    /// The in and inout parameters.
    pub ins: Parameters,
    /// The result, and then the inout and out parameters.
    pub outs: Parameters,
    pub ghost silent: { oneway ≡ true → length outs.list.items ≡ 0 },
}

/// What an interface offers: its operations by their names and its exceptions by their ids. No name
/// and no id is there twice, none has a null, and every description is checked.
///
/// One connection may reach several objects. Those that have an interface of their own have it
/// under their key; this one is of each other.
#[derive(Debug, Drop)]
pub struct Interface {
    operations: BTreeMap<Vec<u8>, Operation>,
    exceptions: BTreeMap<Vec<u8>, Parameters>,
    pub(crate) objects: BTreeMap<Vec<u8>, Interface>,
}

impl Interface {
    /// An interface of these operations and exceptions, and no object with one of its own.
    pub(crate) fn new(
        alloc: Global,
        operations: BTreeMap<Vec<u8>, Operation>,
        exceptions: BTreeMap<Vec<u8>, Parameters>,
    ) -> Interface
        ensures operations { result.operations ≡ operations }
        ensures exceptions { result.exceptions ≡ exceptions }
        ensures alone { result.objects.entries ≡ [] }
    {
        Interface {
            operations,
            exceptions,
            objects: BTreeMap::new(alloc),
        }
    }

    /// The operation of this name. It takes no memory. Its time grows with the logarithm of the
    /// number of operations.
    pub fn operation(&self, name: &[u8]) -> Option<&Operation>
        ensures { option_copied result
            ≡ get_by (λ key. slice_cmp nat_cmp name.now key.items) self.now.operations }
    {
        self.operations.get(name)
    }

    /// The members of the exception of this id. It takes no memory. Its time grows with the
    /// logarithm of the number of exceptions.
    pub fn exception(&self, id: &[u8]) -> Option<&Parameters>
        ensures { option_copied result
            ≡ get_by (λ key. slice_cmp nat_cmp id.now key.items) self.now.exceptions }
    {
        self.exceptions.get(id)
    }

    /// The operations, in the order of their names.
    pub fn operations(&self) -> &BTreeMap<Vec<u8>, Operation>
        ensures { result.now ≡ self.now.operations }
    {
        &self.operations
    }

    /// The exceptions, in the order of their ids.
    pub fn exceptions(&self) -> &BTreeMap<Vec<u8>, Parameters>
        ensures { result.now ≡ self.now.exceptions }
    {
        &self.exceptions
    }
}
