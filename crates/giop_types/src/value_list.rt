//! The values of a body or of an exception, as a list that contracts see by what its values are.
ghost use Rattle.std.specs.Prelude.{◌≡◌, ◌==◌, ◌++◌, [], ◌∷◌, length, map, OnOk, OnErr};
ghost use Rattle.giop_types.specs.Values.Views.{value_view};

use crate::same::are_same;
use crate::value::Value;
use std::alloc::{AllocError, Global};
use std::marker::Model;

/// The values of a body, one after the other: a `Vec<Value>` that contracts see as the plain list
/// of what they are.
#[derive(Debug, Drop)]
pub struct ValueList {
    values: Vec<Value>,
}

impl Model for ValueList {
    ghost use Rattle.std.specs.Prelude.{List, map};
    ghost use Rattle.std.specs.Coded.{coded_list};
    ghost use Rattle.giop_types.specs.Values.Tree.{Tree};
    ghost use Rattle.giop_types.specs.Values.TreeCode.{coded_tree};

    ghost Value = { List Tree };

    ghost coded = { coded_list coded_tree };

    ghost use Rattle.giop_types.specs.Values.Views.{value_view};

    ghost view = { λ l. map value_view l.values.items };
}

impl ValueList {
    /// No values. It takes no memory.
    pub fn new(alloc: Global) -> ValueList
        ensures { result ≡ [] }
    {
        ValueList {
            values: Vec::new(alloc),
        }
    }

    /// The values in one slice.
    pub fn as_slice(&self) -> &[Value]
        ensures { map value_view result.now ≡ self.now }
    {
        self.values.as_slice()
    }

    /// The number of values.
    pub fn len(&self) -> usize
        ensures { result ≡ length self.now }
    {
        self.values.len()
    }

    /// Whether there are none.
    pub fn is_empty(&self) -> bool
        ensures { result ≡ (length self.now == 0) }
    {
        self.values.is_empty()
    }

    /// Appends a value. Out of memory, the value is dropped and nothing changes.
    #[inline(always)]
    pub fn push(&mut self, value: Value) -> Result<(), AllocError>
        ensures ok { OnOk result (self.new ≡ self.old ++ value_view value ∷ []) }
        ensures err { OnErr result (self.new ≡ self.old) }
    {
        match self.values.push(value) {
            Ok(()) => Ok(()),
            Err(_) => Err(AllocError),
        }
    }

    /// The values as a `Vec`. It takes no memory.
    pub fn into_vec(self) -> Vec<Value>
        ensures { map value_view result.items ≡ self }
    {
        self.values
    }
}

impl From<Vec<Value>> for ValueList {
    ghost from_gives = { λ values list. list ≡ map value_view values.items };

    fn from(values: Vec<Value>) -> ValueList {
        ValueList { values }
    }
}

/// Two lists are equal where they are as long and their values are equal one by one.
impl PartialEq for ValueList {
    ghost use Rattle.giop_types.specs.Values.Same.{same_list};
    ghost use Rattle.giop_types.specs.Values.SameLaws.{same_list_partial};

    ghost eq = { same_list };

    ghost laws = { same_list_partial };

    #[tactic(auto, using(crate::proofs::Values::SameLemmas::one_by_one))]
    fn eq(&self, other: &ValueList) -> bool {
        are_same(&self.values, &other.values)
    }
}

impl Eq for ValueList {
    ghost use Rattle.giop_types.specs.Values.SameLaws.{same_list_equivalence};

    ghost laws = { same_list_equivalence };
}
