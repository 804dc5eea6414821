//! What the kinds of `convert` have in common: the text of a file, a line, and a refusal.
ghost use Rattle.std.specs.Prelude.{◌≡◌, IfOk, OnOk};
ghost use Rattle.std.specs.Io.KnownBytes.{Appends};
ghost use Rattle.giop_converting.specs.Convert.{Tells};
ghost use Rattle.giop_show.specs.Forms.{ended};

pub mod described;
pub mod reference;
pub mod value;

use giop_lines::RefusalLine;
use giop_show::failure::Failure;
use giop_show::status::Status;
use std::io::Write;

/// Writes a line, and the newline behind it.
pub fn write_line<W: Write>(line: &[u8], writer: &mut W) -> Result<(), Failure>
    ensures { OnOk result
        (Appends (W.contents writer.old) (W.contents writer.new) (ended line.now)) }
{
    writer.write_all(line)?;
    writer.write_all(b"\n")?;
    Ok(())
}

/// Writes the line of a refusal, which ends the run.
pub fn refuse<W: Write>(line: RefusalLine, writer: &mut W) -> Result<Status, Failure>
    ensures text { OnOk result (Tells (W.contents writer.old) (W.contents writer.new) line) }
    ensures ok { IfOk result (λ status. status ≡ Status.Refused) }
{
    writeln!(writer, "{}", line)?;
    Ok(Status::Refused)
}
