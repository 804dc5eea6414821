//! A value in an allocation of its own. Entries and events hold their messages so, and stay small.
ghost use Rattle.std.specs.Prelude.{◌≡◌, IfOk};

use std::alloc::{AllocError, Global};
use std::marker::Model;
use std::ops::Deref;

/// A value that lies apart from what holds it, so that an entry is moved in a few octets, however
/// large the messages that it keeps. Contracts see the value itself.
#[derive(Debug, Drop)]
pub struct Aside<T> {
    value: Box<T>,
}

impl<T> Model for Aside<T> {
    ghost Value = { T };

    ghost coded = { T.code };

    ghost view = { λ a. a.value.value };
}

impl<T: Drop> Aside<T> {
    /// Lays a value aside. `alloc` gives the memory for it. Where it is out of memory, the value is
    /// dropped, and AllocError is returned.
    pub fn new(alloc: Global, value: T) -> Result<Aside<T>, AllocError>
        ensures { IfOk result (λ aside. aside ≡ value) }
    {
        Ok(Aside {
            value: Box::new(alloc, value)?,
        })
    }

    /// The value itself, taken out of its allocation. It takes no memory.
    pub fn into_inner(self) -> T
        ensures { result ≡ self }
    {
        Box::into_inner(self.value)
    }
}

impl<T> Deref for Aside<T> {
    type Target = T;

    ghost use Rattle.std.specs.Prelude.{◌≡◌};

    ghost deref_gives = { λ a value. value ≡ a };

    fn deref(&self) -> &T {
        &self.value
    }
}
