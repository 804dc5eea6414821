//! What is left of the octets of one direction, and its messages.

use crate::failure::Failure;
use crate::pieces::PieceBuffer;
use crate::status::Status;
use giop_msg::{Framer, Msg, WireKind};
use std::alloc::{AllocError, Global};
use std::io;
use std::io::{ErrorKind, Read, Write};

/// The octets of a direction that were read and are no message yet, and room for more.
#[derive(Drop)]
pub struct Incoming {
    framer: Framer,
    buffer: PieceBuffer,
}

impl Incoming {
    /// Nothing is read. Messages may have this size, the header not counted.
    pub fn new(alloc: Global, limit: u32) -> Result<Incoming, AllocError> {
        Ok(Incoming {
            framer: Framer::new(alloc, limit),
            buffer: PieceBuffer::new(alloc)?,
        })
    }

    /// The next message; `None` at the end, or at a header that is wrong. The writer is flushed
    /// before each read, so that what is over is shown as soon as it is known.
    pub fn next<R: Read, W: Write>(
        &mut self,
        reader: &mut R,
        writer: &mut W,
    ) -> Result<Option<Msg>, Failure> {
        'pieces: for _ in 0..u64::MAX {
            match self.framer.next() {
                Ok(Some(message)) => return Ok(Some(message)),
                Ok(None) => {}
                Err(fault) if fault.kind == WireKind::NoMemory => return Err(Failure::Memory),
                Err(_) => return Ok(None),
            }
            writer.flush()?;
            let piece = self.buffer.fill(reader)?;
            if piece.is_empty() {
                return Ok(None);
            }
            if self.framer.feed(piece).is_err() {
                return Err(Failure::Memory);
            }
        }
        Err(Failure::Input(io::Error::from(ErrorKind::FileTooLarge)))
    }

    /// The last line of a direction: how many octets are left, or what is wrong with the header
    /// that stands there.
    pub fn write_end<W: Write>(&mut self, name: &str, writer: &mut W) -> Result<Status, Failure> {
        match self.framer.next() {
            Ok(_) => {
                let rest = self.framer.rest();
                writeln!(writer, "{name} rest {rest}")?;
                Ok(match rest {
                    0 => Status::Done,
                    _ => Status::Refused,
                })
            }
            Err(fault) if fault.kind == WireKind::NoMemory => Err(Failure::Memory),
            Err(fault) => {
                writeln!(writer, "{name} fault {} {fault}", fault.number())?;
                Ok(Status::Refused)
            }
        }
    }
}
