//! The outgoing octets of an end go to a writer, as many at a time as it takes. What the writer
//! gets is `Writes` in specs/Pumping.antt.
ghost use Rattle.std.specs.Prelude.{◌≡◌, ◌↔◌, [], IsOk};
ghost use Rattle.giop_end.specs.Pumping.{Writes};

use crate::acts::outgoing::Outgoing;
use crate::end::End;
use crate::hearing::Hearing;
use std::io;
use std::io::{ErrorKind, Write};

/// Writes what is outgoing, as many octets at a time as the writer takes; where nothing is outgoing
/// it makes no write. It takes no memory.
///
/// Where a write fails, or takes no octets (`WriteZero`), that error is returned; an interrupted
/// write is such an error too. The octets that were written are outgoing no longer, and the rest
/// still is.
pub fn write_out<R: Hearing, W: Write>(end: &mut End<'_, R>, writer: &mut W) -> io::Result<()>
    ensures writes { Writes (W.contents writer.old) (W.contents writer.new) end.old.outgoing
        end.new.outgoing }
    ensures all { IsOk result ↔ (end.new.outgoing ≡ []) }
    ensures others { end.new ≡ record end.old { outgoing = end.new.outgoing } }
{
    write_outgoing(&mut end.outgoing, writer)
}

// A loop over the field alone, so that all else of the end is seen to stay.
fn write_outgoing<W: Write>(outgoing: &mut Outgoing, writer: &mut W) -> io::Result<()>
    ensures writes { Writes (W.contents writer.old) (W.contents writer.new) outgoing.old
        outgoing.new }
    ensures all { IsOk result ↔ (outgoing.new ≡ []) }
{
    'parts: while !outgoing.as_slice().is_empty() {
        let n = writer.write(outgoing.as_slice())?;
        if n == 0 {
            return Err(io::Error::from(ErrorKind::WriteZero));
        }
        outgoing.wrote(n);
    }
    Ok(())
}
