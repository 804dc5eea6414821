//! What goes over a connection in turns: what an end has put out is written, then once is read.
//! To be removed: giop_session has these two calls under the same names.
ghost use Rattle.std.specs.Prelude.{◌≡◌, ◌≤◌, length};

use giop_session::{End, Hearing, SessionFault};
use std::io;
use std::io::{ErrorKind, Read, Write};

/// Why a turn wasn't taken to its end.
#[derive(Debug, Drop)]
pub enum PumpFault {
    /// Reading failed.
    Read(io::Error),
    /// Writing failed.
    Write(io::Error),
    /// The end refuses what was read.
    Session(SessionFault),
    /// All turns are taken, and the input hasn't ended.
    TurnsSpent,
}

/// Writes what is outgoing, to the last octet.
pub fn write_out<R: Hearing, W: Write>(end: &mut End<'_, R>, writer: &mut W) -> io::Result<()> {
    for _ in 0..end.outgoing().len() {
        let octets = end.outgoing();
        if octets.is_empty() {
            return Ok(());
        }
        let written = writer.write(octets)?;
        if written == 0 {
            return Err(io::Error::from(ErrorKind::WriteZero));
        }
        end.wrote(written);
    }
    Ok(())
}

/// Writes what is outgoing, then reads once and feeds what was read: so many octets, 0 at the end of
/// the input.
pub fn turn<R: Hearing, I: Read, W: Write>(
    end: &mut End<'_, R>,
    reader: &mut I,
    writer: &mut W,
) -> Result<usize, PumpFault> {
    if let Err(error) = write_out(end, writer) {
        return Err(PumpFault::Write(error));
    }
    let mut piece = [0u8; 4096];
    let read = match reader.read(&mut piece) {
        Ok(read) => read,
        Err(error) => return Err(PumpFault::Read(error)),
    };
    match end.feed(&piece[..read]) {
        Ok(()) => Ok(read),
        Err(fault) => Err(PumpFault::Session(fault)),
    }
}
