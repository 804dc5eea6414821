//! Why `turn` and `pump` stop. The numbers are `pump_fault_number` in specs/Pumping.antt: change
//! both.
ghost use Rattle.std.specs.Prelude.{◌≡◌};

use crate::session_fault::SessionFault;
use std::io;
use thiserror::Error;

/// Why an end between a reader and a writer stops.
#[derive(Debug, Drop, Error)]
pub enum PumpFault {
    /// Reading failed.
    #[error("reading: {0}")]
    Read(io::Error),
    /// Writing failed, or the writer took no octets.
    #[error("writing: {0}")]
    Write(io::Error),
    /// The end refuses what was read, for this reason.
    #[error("{0}")]
    Session(SessionFault),
    /// The turns are spent, and each of them has read at least one octet.
    #[error("the turns are spent")]
    TurnsSpent,
}

impl PumpFault {
    ghost use Rattle.giop_end.specs.Pumping.{pump_fault_number};

    /// The number of the fault, 1 to 4.
    pub fn number(&self) -> u8
        ensures { result ≡ pump_fault_number self.now }
    {
        match self {
            PumpFault::Read(_) => 1,
            PumpFault::Write(_) => 2,
            PumpFault::Session(_) => 3,
            PumpFault::TurnsSpent => 4,
        }
    }
}
