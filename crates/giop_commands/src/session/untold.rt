//! Why lines of calls that are over weren't written.
ghost use Rattle.std.specs.Prelude.{◌≡◌, ◌≢◌};
ghost use Rattle.std.specs.IoError.{error_kind};

use giop_show::failure::Failure;
use std::alloc::AllocError;
use std::io;
use std::io::ErrorKind;

/// Why a line wasn't written.
#[derive(Debug, Drop)]
pub enum Untold {
    /// It is out of memory for the line, of which nothing was written.
    Memory,
    /// Writing failed.
    Output(io::Error),
}

impl From<AllocError> for Untold {
    ghost use Rattle.giop_commands.specs.declared.session.untold.Untold.TheVariants.{Memory};

    ghost from_gives = { λ _ untold. untold ≡ Memory };

    fn from(_error: AllocError) -> Untold {
        Untold::Memory
    }
}

impl From<io::Error> for Untold {
    ghost use Rattle.giop_commands.specs.declared.session.untold.Untold.TheVariants.{Output};

    ghost from_gives = { λ error untold. untold ≡ Output error };

    fn from(error: io::Error) -> Untold {
        Untold::Output(error)
    }
}

/// The failure of a line that wasn't written: Memory where it is out of memory, else Output.
impl From<Untold> for Failure {
    fn from(untold: Untold) -> Failure
        ensures memory { untold ≡ Untold.Memory → result ≡ Failure.Memory }
        ensures output { (error : _) → untold ≡ Untold.Output error
            → error_kind error ≢ ErrorKind.OutOfMemory → result ≡ Failure.Output error }
    {
        match untold {
            Untold::Memory => Failure::Memory,
            Untold::Output(error) => Failure::from(error),
        }
    }
}
