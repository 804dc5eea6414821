//! Calls that take no memory: they find a name in an interface where its octets lie, and pass over
//! a value. A message is judged by them where there is no memory to read it.
ghost use Rattle.std.specs.Prelude.{◌≡◌, option_copied};
ghost use Rattle.std.specs.BTreeMap.{get_by};
ghost use Rattle.std.specs.Ordering.{nat_cmp};
ghost use Rattle.std.specs.Cmp.Lexicographic.{slice_cmp};
ghost use Rattle.std.specs.Str.{bytes_eq};
ghost use Rattle.giop_cdr.specs.Reading.Outcome.{Passes};
ghost use Rattle.giop_types.specs.Coding.Decoding.{decode_at};
ghost use Rattle.giop_types.specs.Descriptions.CheckedShape.{checked_shape};
ghost use Rattle.giop_types.specs.Objects.{offer_of};

use crate::codec::skip::skip;
use crate::description::checked_desc::CheckedDesc;
use crate::interfaces::interface::{Interface, Operation};
use crate::interfaces::offer::Offer;
use crate::interfaces::parameters::Parameters;
use giop_cdr::{CdrFault, CdrIn, Octets};
use std::collections::BTreeMap;

impl Interface {
    /// What the object offers at the key that these octets are, wherever they lie. It returns what
    /// `of_object` returns; its time grows with the number of objects.
    pub fn of_object_at<S: Octets>(&self, key: &S) -> &Offer
        ensures { result.now ≡ offer_of self.now (S.octets key.now) }
    {
        match value_at(self.objects(), key) {
            Some(own) => own,
            None => self.general(),
        }
    }
}

impl Offer {
    /// The operation of the name that these octets are, wherever they lie. It returns what
    /// `operation` returns; its time grows with the number of operations.
    pub fn operation_at<S: Octets>(&self, name: &S) -> Option<&Operation>
        ensures { option_copied result
            ≡ get_by (λ key. slice_cmp nat_cmp (S.octets name.now) key.items) self.now.operations }
    {
        value_at(self.operations(), name)
    }

    /// The members of the exception of the id that these octets are, wherever they lie. It returns
    /// what `exception` returns; its time grows with the number of exceptions.
    pub fn exception_at<S: Octets>(&self, id: &S) -> Option<&Parameters>
        ensures { option_copied result
            ≡ get_by (λ key. slice_cmp nat_cmp (S.octets id.now) key.items) self.now.exceptions }
    {
        value_at(self.exceptions(), id)
    }
}

impl CheckedDesc {
    /// Passes over a value of this description. It refuses what `decode` refuses, at the same
    /// place, but makes no value and so takes no memory.
    pub fn skip<S: Octets>(&self, input: &mut CdrIn<S>) -> Result<(), CdrFault>
        ensures { Passes input.old result input.new (decode_at (checked_shape self.now) input.old) }
    {
        let mut ahead = input.fork();
        skip(self.desc(), &mut ahead)?;
        *input = ahead;
        Ok(())
    }
}

// The value at the key that these octets are.
fn value_at<'a, S: Octets, X>(map: &'a BTreeMap<Vec<u8>, X>, octets: &S) -> Option<&'a X>
    ensures { option_copied result
        ≡ get_by (λ key. slice_cmp nat_cmp (S.octets octets.now) key.items) map.now }
{
    for (key, value) in map {
        if are_text(octets, key) {
            return Some(value);
        }
    }
    None
}

// Whether octets are those of a text.
fn are_text<S: Octets>(octets: &S, text: &[u8]) -> bool
    ensures { result ≡ bytes_eq (S.octets octets.now) text.now }
{
    if octets.len() != text.len() {
        return false;
    }
    for (i, octet) in text.iter().enumerate() {
        if octets.at(i) != *octet {
            return false;
        }
    }
    true
}
