//! The path to the first fault of a file: `IsFirst` in specs/First.antt. Change both.
ghost use Rattle.std.specs.Prelude.{IfOk, map};
ghost use Rattle.giop_where.specs.Parts.{part_view, step_view};
ghost use Rattle.giop_where.specs.First.{IsFirst};

use crate::no_place::NoPlace;
use crate::part::Part;
use crate::parts::{Placed, first_part};
use crate::step::Step;
use std::alloc::Global;

// The most steps of a path: no JSON that is read nests deeper.
const STEPS: u32 = 128;

/// Where a file is at fault.
#[derive(Drop)]
pub struct Found<'a> {
    /// The path to the part that is at fault.
    pub path: Vec<Step>,
    /// That part.
    pub part: Part<'a>,
}

/// The path from a part, such as a whole file, to the first fault of this number in it.
///
/// Each step goes to the first part, in the order of the items or of the keys, that is refused with
/// a fault of this number when it stands alone, in the smallest file that holds it. The path ends
/// where no part is. Refused as TooDeep where a part nests too deep to stand alone, or the path has
/// more than 127 steps; Memory when out of memory.
#[tactic(auto, using(crate::proofs::FirstLemmas::stepped, crate::proofs::FirstLemmas::arrived))]
pub fn first_fault<'a>(alloc: Global, part: Part<'a>, number: u8) -> Result<Found<'a>, NoPlace>
    ensures { IfOk result (λ found.
        IsFirst number (part_view part.entry) (map step_view found.path.items) (part_view found.part)) }
{
    let mut path = Vec::new(alloc);
    let mut part = part;
    for _ in 0..STEPS {
        match first_part(alloc, part, number)? {
            Some(Placed { step, part: inner }) => {
                path.push(step)?;
                part = inner;
            }
            None => return Ok(Found { path, part }),
        }
    }
    Err(NoPlace::TooDeep)
}
