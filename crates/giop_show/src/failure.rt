//! What stops a command before its end. The status of each is `failure_status` in
//! specs/Status.antt, and docs/giopctl.md lists the statuses: change all three.
ghost use Rattle.std.specs.Prelude.{◌≡◌, ◌≢◌};
ghost use Rattle.std.specs.IoError.{error_kind};

use crate::status::Status;
use std::alloc::AllocError;
use std::io::ErrorKind;
use std::{fmt, io};

/// Why a command could not finish.
#[derive(Debug, Drop)]
pub enum Failure {
    /// It is out of memory.
    Memory,
    /// Reading failed.
    Input(io::Error),
    /// Writing failed.
    Output(io::Error),
    /// The connection failed: it was refused, or reading from it or writing to it failed.
    Connection(io::Error),
    /// A session took all its turns, and wasn't over.
    TurnsSpent,
}

impl Failure {
    ghost use Rattle.giop_show.specs.Status.{failure_status};

    /// The failure of an error of reading: Memory where it is out of memory, else Input.
    pub fn input(error: io::Error) -> Failure
        ensures memory { error_kind error ≡ ErrorKind.OutOfMemory → result ≡ Failure.Memory }
        ensures value { error_kind error ≢ ErrorKind.OutOfMemory → result ≡ Failure.Input error }
    {
        match error.kind() {
            ErrorKind::OutOfMemory => Failure::Memory,
            _ => Failure::Input(error),
        }
    }

    /// The failure of an error of a connection: Memory where it is out of memory, else Connection.
    pub fn connection(error: io::Error) -> Failure
        ensures memory { error_kind error ≡ ErrorKind.OutOfMemory → result ≡ Failure.Memory }
        ensures value { error_kind error ≢ ErrorKind.OutOfMemory
            → result ≡ Failure.Connection error }
    {
        match error.kind() {
            ErrorKind::OutOfMemory => Failure::Memory,
            _ => Failure::Connection(error),
        }
    }

    /// The status that the program ends with.
    pub fn status(&self) -> Status
        ensures { result ≡ failure_status self.now }
    {
        match self {
            Failure::Memory => Status::Memory,
            Failure::Input(_) | Failure::Output(_) | Failure::Connection(_) | Failure::TurnsSpent =>
                Status::InputOutput,
        }
    }
}

impl From<AllocError> for Failure {
    ghost use Rattle.giop_show.specs.declared.failure.Failure.TheVariants.{Memory};

    ghost from_gives = { λ _ failure. failure ≡ Memory };

    fn from(_error: AllocError) -> Failure {
        Failure::Memory
    }
}

/// The failure of an error of writing: Memory where it is out of memory, else Output.
impl From<io::Error> for Failure {
    fn from(error: io::Error) -> Failure
        ensures memory { error_kind error ≡ ErrorKind.OutOfMemory → result ≡ Failure.Memory }
        ensures value { error_kind error ≢ ErrorKind.OutOfMemory → result ≡ Failure.Output error }
    {
        match error.kind() {
            ErrorKind::OutOfMemory => Failure::Memory,
            _ => Failure::Output(error),
        }
    }
}

impl fmt::Display for Failure {
    fn fmt<W: fmt::Write>(&self, f: &mut fmt::Formatter<W>) -> fmt::Result {
        match self {
            Failure::Memory => f.write_str("out of memory"),
            Failure::Input(error) | Failure::Output(error) | Failure::Connection(error) => {
                write!(f, "{error}")
            }
            Failure::TurnsSpent => f.write_str("the session goes on after all its turns"),
        }
    }
}
