//! A message that isn't decoded, in the line of a call. Its text is `message_text` in
//! specs/Trace/Lines.antt: change both.
ghost use Rattle.std.specs.Prelude.{OnOk};
ghost use Rattle.std.specs.Io.KnownBytes.{Appends};
ghost use Rattle.giop_tracing.specs.Trace.Lines.{message_text};

use giop_lines::HexText;
use giop_msg::Msg;
use giop_show::failure::Failure;
use std::io::Write;

/// Writes what a message is, its kind and its joined octets.
pub fn write_message<W: Write>(what: &str, message: &Msg, writer: &mut W) -> Result<(), Failure>
    ensures { OnOk result (Appends (W.contents writer.old) (W.contents writer.new)
        (message_text what.now message.now)) }
{
    let octets = HexText(message.payload.as_slice());
    write!(writer, " {what} {} {octets}", message.kind)?;
    Ok(())
}
