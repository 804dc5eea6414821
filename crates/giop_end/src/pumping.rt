//! An end between a reader and a writer: it writes what is outgoing and hears what is read, turn
//! after turn. Its meaning is `Turned` and `Pumped` in specs/Pumping.antt: change both.
ghost use Rattle.giop_end.specs.Hearing.Heard.{hears_in};
ghost use Rattle.giop_end.specs.Pumping.{Writes};
ghost use Rattle.giop_end.specs.Ends.View.{IsTurned, TurnedAt, PumpedAt};

use crate::end::{End, write_out};
use crate::hearing::Hearing;
use crate::pump_fault::PumpFault;
use std::io::{Read, Write};

// One read returns so many octets at most.
const ONE_READ: usize = 4_096;

/// Writes what is outgoing, then reads once, at most 4,096 octets, and feeds the end with these.
/// It returns how many were read, 0 at the end of the input. A read of none is fed too, so that a
/// failed end always returns its fault.
///
/// Faults:
///
/// - `Write` where a write fails or takes no octets. Then nothing is read, and what was not written
///   is outgoing still.
/// - `Read` where the read fails. Then the end is as it was but for what was written.
/// - `Session` with the fault of the end that refuses what was read.
///
/// An interrupted read or write is a fault like any other.
pub fn turn<R: Hearing, I: Read, W: Write>(
    end: &mut End<'_, R>,
    reader: &mut I,
    writer: &mut W,
) -> Result<usize, PumpFault>
    ensures turned { TurnedAt (hears_in R.Hearing end.old.interface.now)
        (I.remaining reader.old) (W.contents writer.old) end.old result
        (I.remaining reader.new) (W.contents writer.new) end.new }
    ensures others { IsTurned end.old end.new }
{
    write_out(end, writer).map_err(PumpFault::Write)?;
    let mut buffer = [0u8; ONE_READ];
    let n = reader.read(&mut buffer).map_err(PumpFault::Read)?;
    end.feed(&buffer[..n]).map_err(PumpFault::Session)?;
    Ok(n)
}

/// Takes turns until one reads no octets, at the end of the input; at most `turns` of them.
///
/// Faults: that of a turn; or `TurnsSpent`, where each of the turns has read at least one octet.
pub fn pump<R: Hearing, I: Read, W: Write>(
    end: &mut End<'_, R>,
    reader: &mut I,
    writer: &mut W,
    turns: usize,
) -> Result<(), PumpFault>
    ensures pumped { PumpedAt (hears_in R.Hearing end.old.interface.now) turns
        (I.remaining reader.old) (W.contents writer.old) end.old result
        (I.remaining reader.new) (W.contents writer.new) end.new }
    ensures writes { Writes (W.contents writer.old) (W.contents writer.new) end.old.outgoing
        end.new.outgoing }
    ensures others { IsTurned end.old end.new }
{
    'turns: for done in 0..turns {
        if turn(end, reader, writer)? == 0 {
            return Ok(());
        }
    }
    Err(PumpFault::TurnsSpent)
}
