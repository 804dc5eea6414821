//! Why no place is told.
use std::alloc::{AllocError, AllocFailed};
use std::error::Error;
use std::fmt;

/// Why no place is told.
#[derive(Clone, Copy, Debug, PartialEq, Eq)]
pub enum NoPlace {
    /// Out of memory.
    Memory,
    /// A part that stands alone nests arrays and objects more than 127 deep, or the path is longer
    /// than that. This isn't so of what was read from a text.
    TooDeep,
}

impl fmt::Display for NoPlace {
    fn fmt<W: fmt::Write>(&self, f: &mut fmt::Formatter<W>) -> fmt::Result {
        f.write_str(match self {
            NoPlace::Memory => "out of memory",
            NoPlace::TooDeep => "nested too deep",
        })
    }
}

impl Error for NoPlace {}

impl From<AllocError> for NoPlace {
    ghost use Rattle.std.specs.Prelude.{◌≡◌};
    ghost use Rattle.giop_where.specs.declared.no_place.NoPlace.TheVariants.{Memory};

    ghost from_gives = { λ _ e. e ≡ Memory };

    fn from(_wanting: AllocError) -> NoPlace {
        NoPlace::Memory
    }
}

impl<T: Drop> From<AllocFailed<T>> for NoPlace {
    ghost use Rattle.std.specs.Prelude.{◌≡◌};
    ghost use Rattle.giop_where.specs.declared.no_place.NoPlace.TheVariants.{Memory};

    ghost from_gives = { λ _ e. e ≡ Memory };

    fn from(_wanting: AllocFailed<T>) -> NoPlace {
        NoPlace::Memory
    }
}
