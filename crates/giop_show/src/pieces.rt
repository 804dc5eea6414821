//! Files and the standard input are read piece by piece.
ghost use Rattle.std.specs.Prelude.{◌≡◌, ◌<◌, IfOk, OnOk, length};
ghost use Rattle.std.specs.Io.{ReadsAtMost};
ghost use Rattle.std.specs.Io.KnownBytes.{Consumes, IsAtEnd, ReadConsumes};

use crate::failure::Failure;
use std::alloc::{AllocError, Global};
use std::io;
use std::io::{ErrorKind, Read};
use std::marker::Model;

// A piece is of so many octets at most.
const PIECE: usize = 65_536;

/// The room that pieces are read into, one after the other.
#[derive(Drop)]
pub struct PieceBuffer {
    octets: Vec<u8>,
}

impl Model for PieceBuffer {
    ghost use Rattle.std.specs.Prelude.{◌<◌, List, ℕ, length};

    ghost Value = { List ℕ };

    ghost view = { λ b. b.octets.items };

    ghost invariant = { λ b. 0 < length b.octets.items };
}

impl PieceBuffer {
    /// Room for a piece.
    pub fn new(alloc: Global) -> Result<PieceBuffer, AllocError> {
        Ok(PieceBuffer {
            octets: vec![in alloc; 0u8; PIECE]?,
        })
    }

    /// The octets that come next, as many as one read returns; none only at the end.
    pub fn fill<R: Read>(&mut self, reader: &mut R) -> Result<&[u8], Failure>
        ensures ok { IfOk result (λ piece.
            Consumes (R.remaining reader.old) (R.remaining reader.new) piece.now) }
        ensures end { IfOk result (λ piece.
            length piece.now ≡ 0 → IsAtEnd (R.remaining reader.new)) }
    {
        let n = read_some(reader, self.octets.as_mut_slice())?;
        Ok(&self.octets[..n])
    }
}

// One read. A read that was interrupted is done again.
fn read_some<R: Read>(reader: &mut R, piece: &mut [u8]) -> Result<usize, Failure>
    ensures within { ReadsAtMost result piece.new }
    ensures bytes { ReadConsumes (R.remaining reader.old) (R.remaining reader.new)
        result piece.new }
{
    'tries: for _ in 0..u64::MAX {
        match reader.read(piece) {
            Err(error) if error.kind() == ErrorKind::Interrupted => {}
            Err(error) => return Err(Failure::input(error)),
            Ok(n) => return Ok(n),
        }
    }
    Err(Failure::Input(io::Error::from(ErrorKind::Interrupted)))
}

/// Reads to the end, and drops what is read.
pub fn drain<R: Read>(buffer: &mut PieceBuffer, reader: &mut R) -> Result<(), Failure>
    ensures { OnOk result (IsAtEnd (R.remaining reader.new)) }
{
    for _ in 0..u64::MAX {
        if buffer.fill(reader)?.is_empty() {
            return Ok(());
        }
    }
    Err(Failure::Input(io::Error::from(ErrorKind::FileTooLarge)))
}
