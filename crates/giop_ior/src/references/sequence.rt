//! A list that contracts see as a plain one: for the profiles of a reference, the components of a
//! profile and the addresses of a corbaloc.
ghost use Rattle.std.specs.Prelude.{◌≡◌, ◌==◌, length};

use std::alloc::Global;
use std::marker::Model;

/// The values of an IDL sequence, in their order: a list that contracts see as a plain one.
#[derive(Debug, Drop)]
pub struct Sequence<T: Drop> {
    values: Vec<T>,
}

impl<T: Drop> Model for Sequence<T> {
    ghost use Rattle.std.specs.Prelude.{List};

    ghost Value = { List T };

    ghost view = { λ s. s.values.items };
}

impl<T: Drop> Sequence<T> {
    ghost use Rattle.std.specs.Prelude.{[]};

    /// An empty sequence. It takes no memory.
    pub fn new(alloc: Global) -> Sequence<T>
        ensures { result ≡ [] }
    {
        Sequence {
            values: Vec::new(alloc),
        }
    }

    /// The values in one slice.
    pub fn as_slice(&self) -> &[T]
        ensures { result.now ≡ self.now }
    {
        self.values.as_slice()
    }

    /// The number of values.
    pub fn len(&self) -> usize
        ensures { result ≡ length self.now }
    {
        self.values.len()
    }

    /// Whether there are no values.
    pub fn is_empty(&self) -> bool
        ensures { result ≡ (length self.now == 0) }
    {
        self.values.is_empty()
    }

    /// The values as a `Vec`. It takes no memory.
    pub fn into_vec(self) -> Vec<T>
        ensures { result.items ≡ self }
    {
        let Sequence { values } = self;
        values
    }
}

impl<T: Drop> From<Vec<T>> for Sequence<T> {
    ghost from_gives = { λ values list. list ≡ values.items };

    fn from(values: Vec<T>) -> Sequence<T> {
        Sequence { values }
    }
}

/// Two sequences are equal where they have the same length, and their values are equal one by one.
impl<T: PartialEq + Drop> PartialEq for Sequence<T> {
    ghost use Rattle.std.specs.Cmp.Lexicographic.{pointwise, lists_per};

    ghost eq = { pointwise T.eq };

    ghost laws = { lists_per T.laws };

    fn eq(&self, other: &Sequence<T>) -> bool {
        self.values == other.values
    }
}

impl<T: Eq + Drop> Eq for Sequence<T> {
    ghost use Rattle.std.specs.Cmp.Lexicographic.{lists_equiv};

    ghost laws = { lists_equiv T.Eq.laws };
}
