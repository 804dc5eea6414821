//! Stores of octets, from which a `CdrIn` reads: the trait `Octets`, and the octets of one slice.
//! Readers are proved for any store, so a store in several parts needs only this trait.
ghost use Rattle.std.specs.Prelude.{◌≡◌, ◌<◌, List, ℕ, length, slice_index, take, drop};

use std::marker::Model;

/// A list of octets, wherever they lie: in one slice, or in several parts.
pub trait Octets {
    // The octets, as contracts see a store.
    ghost octets: { Self → List ℕ };

    /// The number of octets.
    fn len(&self) -> usize
        ensures { result ≡ length (octets self.now) };

    /// The octet at index `i`, which counts from 0.
    fn at(&self, i: usize) -> u8
        requires { i < length (octets self.now) }
        ensures { result ≡ slice_index (octets self.now) i };

    /// Octets from index `from` on that lie together: one or more, and how many is up to the store.
    fn run(&self, from: usize) -> &[u8]
        requires { from < length (octets self.now) }
        ensures some { 0 < length result.now }
        ensures part { result.now ≡ take (length result.now) (drop from (octets self.now)) };
}

/// The octets of one slice.
#[derive(Drop)]
pub struct SliceOctets<'a> {
    slice: &'a [u8],
}

impl<'a> Model for SliceOctets<'a> {
    ghost Value = { List ℕ };

    ghost view = { λ s. s.slice.now };
}

impl<'a> SliceOctets<'a> {
    /// The octets of `slice`, in its order.
    pub fn new(slice: &'a [u8]) -> SliceOctets<'a>
        ensures { result ≡ slice.now }
    {
        SliceOctets { slice }
    }

    /// The slice that `new` was given.
    pub fn as_slice(&self) -> &'a [u8]
        ensures { result.now ≡ self.now }
    {
        self.slice
    }
}

impl<'a> Octets for SliceOctets<'a> {
    ghost octets = { λ s. s };

    fn len(&self) -> usize {
        self.slice.len()
    }

    fn at(&self, i: usize) -> u8 {
        self.slice[i]
    }

    fn run(&self, from: usize) -> &[u8] {
        &self.slice[from..]
    }
}
