//! Reading piece by piece.
ghost use Rattle.std.specs.Prelude.{◌≡◌, IfOk, OnOk, length};
ghost use Rattle.std.specs.Io.{ReadsAtMost};
ghost use Rattle.std.specs.Io.KnownBytes.{Consumes, IsAtEnd, ReadConsumes};

use crate::failure::Failure;
use std::alloc::{AllocError, Global};
use std::io;
use std::io::{ErrorKind, Read};

// A piece is of so many octets at most.
const PIECE: usize = 65_536;

/// The octets that come next, some at least unless the end is reached.
pub fn read_piece<R: Read>(alloc: Global, reader: &mut R) -> Result<Vec<u8>, Failure>
    ensures ok { IfOk result (λ piece.
        Consumes (R.remaining reader.old) (R.remaining reader.new) piece.items) }
    ensures end { IfOk result (λ piece.
        length piece.items ≡ 0 → IsAtEnd (R.remaining reader.new)) }
{
    let mut piece = zeros(alloc, PIECE)?;
    let n = read_some(reader, piece.as_mut_slice())?;
    piece.truncate(n);
    Ok(piece)
}

fn zeros(alloc: Global, n: usize) -> Result<Vec<u8>, AllocError>
    ensures { IfOk result (λ octets. length octets.items ≡ n) }
{
    vec![in alloc; 0u8; n]
}

// One read. A read that was interrupted is done again.
fn read_some<R: Read>(reader: &mut R, piece: &mut [u8]) -> Result<usize, Failure>
    ensures within { ReadsAtMost result piece.new }
    ensures bytes { ReadConsumes (R.remaining reader.old) (R.remaining reader.new)
        result piece.new }
{
    'tries: for _ in 0..u64::MAX {
        match reader.read(piece) {
            Err(error) if error.kind() == ErrorKind::Interrupted => {}
            Err(error) => return Err(Failure::input(error)),
            Ok(n) => return Ok(n),
        }
    }
    Err(Failure::Input(io::Error::from(ErrorKind::Interrupted)))
}

/// Reads to the end, and lets go what is read.
pub fn drain<R: Read>(alloc: Global, reader: &mut R) -> Result<(), Failure>
    ensures { OnOk result (IsAtEnd (R.remaining reader.new)) }
{
    for _ in 0..u64::MAX {
        if read_piece(alloc, reader)?.is_empty() {
            return Ok(());
        }
    }
    Err(Failure::Input(io::Error::from(ErrorKind::FileTooLarge)))
}
