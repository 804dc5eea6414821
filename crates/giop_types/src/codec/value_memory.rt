//! The memory that values are read into. What a message claims takes no memory before it comes.
ghost use Rattle.std.specs.Prelude.{◌≡◌, ◌/◌, [], length, min, IfOk};
ghost use Rattle.giop_cdr.specs.Reading.Outcome.{Allocates};
ghost use Rattle.giop_cdr.specs.Reading.Values.{octets_at, string_at};

use crate::codec::arriving::ArrivingValues;
use crate::description::desc::NamedDesc;
use crate::value::Value;
use giop_cdr::{CdrFault, CdrIn, OctetList, Octets};
use std::alloc::{AllocError, Global};

/// The memory that values are read into. `decode` reads by functions that have no other memory, so
/// that the contracts of these functions and of `ArrivingValues` bound what it asks for.
#[derive(Clone, Copy)]
pub struct ValueMemory {
    alloc: Global,
}

impl ValueMemory {
    /// The memory of an allocator.
    pub fn new(alloc: Global) -> ValueMemory {
        ValueMemory { alloc }
    }

    /// No values yet of a sequence or an array for which a message claims `count`. There is room for
    /// one value in eight octets that are left in `input` at most, since a value takes many more
    /// octets in memory than on the wire.
    pub fn begin<S: Octets>(
        self,
        count: usize,
        input: &CdrIn<S>,
    ) -> Result<ArrivingValues, AllocError>
        ensures none { IfOk result (λ values. values.come ≡ []) }
        ensures room { IfOk result (λ values.
            values.room ≡ min count (length input.now.rest / 8)) }
    {
        let values = Vec::with_capacity(self.alloc, count.min(input.remaining() / 8))?;
        Ok(ArrivingValues::from_vec(values))
    }

    /// No values yet of a struct, with room for one for each of its members.
    pub fn begin_members(self, members: &[NamedDesc]) -> Result<ArrivingValues, AllocError>
        ensures none { IfOk result (λ values. values.come ≡ []) }
        ensures room { IfOk result (λ values. values.room ≡ length members.now) }
    {
        let values = Vec::with_capacity(self.alloc, members.len())?;
        Ok(ArrivingValues::from_vec(values))
    }

    /// A value in a box of its own.
    pub fn in_box(self, value: Value) -> Result<Box<Value>, AllocError>
        ensures { IfOk result (λ boxed. boxed.value ≡ value) }
    {
        Ok(Box::new(self.alloc, value)?)
    }

    /// Reads a string as `CdrIn::read_string` does.
    pub fn read_text<S: Octets>(
        self,
        bound: u32,
        input: &mut CdrIn<S>,
    ) -> Result<OctetList, CdrFault>
        ensures { Allocates (λ text. text) input.old result input.new (string_at bound input.old) }
    {
        Ok(OctetList::from(input.read_string(self.alloc, bound)?))
    }

    /// Reads a sequence of octets as `CdrIn::read_octets` does.
    pub fn read_octets<S: Octets>(
        self,
        bound: u32,
        input: &mut CdrIn<S>,
    ) -> Result<OctetList, CdrFault>
        ensures { Allocates (λ octets. octets) input.old result input.new
            (octets_at bound input.old) }
    {
        Ok(OctetList::from(input.read_octets(self.alloc, bound)?))
    }
}
