//! A part of a file.
ghost use Rattle.std.specs.Prelude.{◌≡◌, IfOk};
ghost use Rattle.giop_where.specs.Alone.{alone};
ghost use Rattle.giop_where.specs.Parts.{part_view};

use crate::judge::refusal_of;
use crate::no_place::NoPlace;
use crate::role::Role;
use serde_json::Value as Json;
use std::alloc::Global;

/// A part of a file: what it is, and where it lies.
#[derive(Clone, Copy)]
pub struct Part<'a> {
    /// What it is.
    pub role: Role,
    /// What it is judged by: the description of a value; the list of the parameters of arguments; the
    /// discriminant of a union's cases, and of their parts. Of other parts it says nothing.
    pub beside: &'a Json,
    /// The part.
    pub json: &'a Json,
}

impl<'a> Part<'a> {
    /// The number of the fault with which the part is refused when it stands alone, in the smallest
    /// file that holds it; 0 where it isn't. A part that others judge isn't. Refused as TooDeep
    /// where that file nests more than 127 deep; Memory when out of memory.
    pub fn refusal(self, alloc: Global) -> Result<u8, NoPlace>
        ensures { IfOk result (λ number. number ≡ alone (part_view self.entry)) }
    {
        refusal_of(alloc, self)
    }
}
