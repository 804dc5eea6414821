//! `dump`: each message of a file, and how the file ends. Its meaning is `Dumps` and `DumpsKnown`
//! in specs/Dump/Text.antt, of the telling that specs/Dump/Heads.antt or Bodies.antt says: change
//! them together.
ghost use Rattle.std.specs.Prelude.{◌≡◌, ◌++◌, [], IfErr, IfOk, OnOk};
ghost use Rattle.std.specs.Io.KnownBytes.{IsAtEnd};
ghost use Rattle.giop_json.specs.declared.number_form.NumberForm.TheVariants.{Plain};
ghost use Rattle.giop_dumping.specs.Dump.Bodies.{telling_of};
ghost use Rattle.giop_dumping.specs.Dump.Text.{Dumps, DumpsKnown, no_lists};
ghost use Rattle.giop_dumping.specs.Dump.Heads.{heads_alone};
ghost use Rattle.giop_show.specs.Status.{IsJudged};

pub mod bodies;
pub mod heads;
pub mod joining;
pub mod messages;
pub mod teller;
pub mod text;

use crate::dump::messages::write_fault;
use crate::dump::teller::Teller;
use giop_forms::LineForm;
use giop_json::NumberForm;
use giop_msg::Framer;
use giop_show::failure::Failure;
use giop_show::pieces::{PieceBuffer, drain};
use giop_show::status::Status;
use giop_show::{BehindFault, write_rest};
use std::alloc::Global;
use std::io;
use std::io::{ErrorKind, Read, Write};

/// The greatest message size that is taken where none is given, the header not counted.
pub const MESSAGE_LIMIT: u32 = 1_048_576;

/// Writes the messages that the octets of a file are, in lines of text, and then how many octets
/// are left, or the fault that ends it. It is `Done` where the file is messages and nothing else,
/// else `Refused`.
///
/// Where writing fails, it is `InputOutput`. Where it is out of memory, it is `Memory`. After
/// either, a part of the text may be written.
pub fn dump_octets<W: Write>(alloc: Global, octets: &[u8], writer: &mut W) -> Status
    ensures { Dumps (heads_alone (LineForm.Text Plain)) MESSAGE_LIMIT octets.now
        (W.contents writer.old) (W.contents writer.new) result }
{
    let mut left = octets;
    let (limit, form) = (MESSAGE_LIMIT, LineForm::Text(NumberForm::Plain));
    match dump_stream(alloc, limit, form, &mut left, writer, BehindFault::Read) {
        Ok(status) => status,
        Err(failure) => failure.status(),
    }
}

/// Does what `dump_octets` does, in a form, for the octets that a reader gives and messages of up
/// to this size, the header not counted. Where something fails, what failed is returned in place of
/// a status. No more octets are held than a message and a piece.
///
/// The writer is flushed before each read, so that a message is shown as soon as it is whole. What
/// is written last, the rest or the fault, is left to the caller to flush.
pub fn dump_stream<R: Read, W: Write>(
    alloc: Global,
    limit: u32,
    form: LineForm,
    reader: &mut R,
    writer: &mut W,
    behind: BehindFault,
) -> Result<Status, Failure>
    ensures text { IfOk result (DumpsKnown (heads_alone form) limit (R.remaining reader.old)
        (W.contents writer.old) (W.contents writer.new)) }
    ensures end { OnOk result (behind ≡ BehindFault.Read → IsAtEnd (R.remaining reader.new)) }
    ensures done { IfOk result (λ status. status ≡ Status.Done → IsAtEnd (R.remaining reader.new)) }
    ensures judged { IfOk result IsJudged }
{
    let mut teller = Teller::of_heads(alloc, form);
    dump_by(alloc, &mut teller, limit, reader, writer, behind)
}

/// Does what `dump_stream` does, with the lines that a teller writes of each message.
pub fn dump_by<R: Read, W: Write>(
    alloc: Global,
    teller: &mut Teller<'_>,
    limit: u32,
    reader: &mut R,
    writer: &mut W,
    behind: BehindFault,
) -> Result<Status, Failure>
    requires { teller.old.gather.lists ≡ no_lists }
    ensures text { IfOk result (DumpsKnown (telling_of teller.old) limit (R.remaining reader.old)
        (W.contents writer.old) (W.contents writer.new)) }
    ensures end { OnOk result (behind ≡ BehindFault.Read → IsAtEnd (R.remaining reader.new)) }
    ensures done { IfOk result (λ status. status ≡ Status.Done → IsAtEnd (R.remaining reader.new)) }
    ensures judged { IfOk result IsJudged }
{
    let mut framer = Framer::new(alloc, limit);
    let mut buffer = PieceBuffer::new(alloc)?;
    dump_with(&mut framer, &mut buffer, teller, reader, writer, behind)
}

// Does so by a new framer, with room for a piece.
fn dump_with<R: Read, W: Write>(
    framer: &mut Framer,
    buffer: &mut PieceBuffer,
    teller: &mut Teller<'_>,
    reader: &mut R,
    writer: &mut W,
    behind: BehindFault,
) -> Result<Status, Failure>
    requires lists { teller.old.gather.lists ≡ no_lists }
    requires unread { framer.old.octets ≡ [] }
    ensures text { IfOk result (DumpsKnown (telling_of teller.old) framer.old.limit
        (R.remaining reader.old) (W.contents writer.old) (W.contents writer.new)) }
    ensures end { OnOk result (behind ≡ BehindFault.Read → IsAtEnd (R.remaining reader.new)) }
    ensures done { IfOk result (λ status. status ≡ Status.Done → IsAtEnd (R.remaining reader.new)) }
    ensures judged { IfOk result IsJudged }
{
    let mut at = 0usize;
    'messages: for _ in 0..u64::MAX {
        match framer.next() {
            Ok(Some(message)) => {
                teller.tell(at, &message, writer)?;
                let Some(next) = at.checked_add(12 + message.payload.len()) else {
                    break;
                };
                at = next;
                continue;
            }
            Ok(None) => {
                writer.flush()?;
                let piece = buffer.fill(reader)?;
                if piece.is_empty() {
                    return write_rest(teller.form, framer.rest(), writer);
                }
                feed(framer, piece)?;
            }
            Err(fault) => {
                if behind == BehindFault::Read {
                    drain(buffer, reader)?;
                }
                return write_fault(teller.form, at, fault, writer);
            }
        }
    }
    Err(Failure::Input(io::Error::from(ErrorKind::FileTooLarge)))
}

fn feed(framer: &mut Framer, piece: &[u8]) -> Result<(), Failure>
    ensures ok { OnOk result (framer.new
        ≡ record framer.old { octets = framer.old.octets ++ piece.now }) }
    ensures memory { IfErr result (λ failure. failure ≡ Failure.Memory) }
{
    match framer.feed(piece) {
        Ok(()) => Ok(()),
        Err(_) => Err(Failure::Memory),
    }
}
