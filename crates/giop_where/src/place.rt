//! Where a file is at fault, in words for people.
ghost use Rattle.std.specs.Prelude.{◌≡◌, ◌∷◌, IfOk, map};
ghost use Rattle.giop_where.specs.First.{IsPlace};
ghost use Rattle.giop_where.specs.Parts.{part_view, step_view};

use crate::first::{Found, first_fault};
use crate::no_place::NoPlace;
use crate::part::Part;
use crate::role::Role;
use crate::step::Step;
use crate::words::words_of;
use std::alloc::{AllocError, Global};
use std::fmt;

/// Where a file is at fault, and what is wanted there.
#[derive(Debug, Drop)]
pub struct Place {
    /// The path to the part that is at fault.
    pub path: Vec<Step>,
    /// What the part is.
    pub role: Role,
    // What is wanted, and what stands there.
    words: String,
}

impl Place {
    /// The place of the first fault of this number in a part, such as a whole file: where
    /// `first_fault` leads. Refused as that is.
    pub fn find(alloc: Global, part: Part<'_>, number: u8) -> Result<Place, NoPlace>
        ensures { IfOk result (IsPlace number (part_view part.entry)) }
    {
        let Found { path, part } = first_fault(alloc, part, number)?;
        let words = words_of(alloc, part, number)?;
        Ok(Place {
            path,
            role: part.role,
            words,
        })
    }

    /// The same place, told of a whole in which the part is at the end of this step.
    pub fn under(self, step: Step) -> Result<Place, AllocError>
        ensures path { IfOk result (λ place. map step_view place.path.items
            ≡ step_view step ∷ map step_view self.path.items) }
        ensures role { IfOk result (λ place. place.role ≡ self.role) }
    {
        let mut path = self.path;
        path.insert(0, step)?;
        Ok(Place {
            path,
            role: self.role,
            words: self.words,
        })
    }
}

/// The path, and behind it what is wanted: `operations.add.ins[0][1]: no description, "int"`. The
/// path of a whole file is `.`.
impl fmt::Display for Place {
    fn fmt<W: fmt::Write>(&self, f: &mut fmt::Formatter<W>) -> fmt::Result {
        if self.path.is_empty() {
            f.write_str(".")?;
        }
        for (i, step) in self.path.iter().enumerate() {
            match step {
                Step::Key(key) if i == 0 => f.write_str(key.as_str())?,
                _ => write!(f, "{step}")?,
            }
        }
        write!(f, ": {}", self.words)
    }
}
