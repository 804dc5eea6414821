//! What is left of the octets of one direction, and its messages.
ghost use Rattle.std.specs.Prelude.{◌≡◌, ◌^◌, ◌<◌, [], None, IfNone, IfSome, IfOk, OnOk, length};
ghost use Rattle.std.specs.Io.KnownBytes.{Appends, IsAtEnd, Keeps};
ghost use Rattle.giop_show.specs.Forms.{ended};
ghost use Rattle.giop_show.specs.Status.{IsJudged};
ghost use Rattle.giop_tracing.specs.Trace.Incoming.{IsLast, IsNext, unheard};
ghost use Rattle.giop_tracing.specs.Trace.Outcome.{direction_end_in, direction_status};

use giop_call_lines::{DirectionEndJson, DirectionEndLine};
use giop_forms::LineForm;
use giop_msg::{Framer, Msg, WireFault, WireKind};
use giop_show::failure::Failure;
use giop_show::pieces::PieceBuffer;
use giop_show::status::Status;
use giop_trace::Direction;
use std::alloc::{AllocError, Global};
use std::io;
use std::io::{ErrorKind, Read, Write};

// The most octets of a message whose memory serves for a later one.
const MOST_REUSED: usize = 1024;

/// The octets of a direction that were read and are no message yet, and room for more.
#[derive(Drop)]
pub struct Incoming {
    /// What is unread.
    pub framer: Framer,
    /// What is wrong with the header that stands there, if it was found to be.
    pub fault: Option<WireFault>,
    /// Room for a piece.
    pub buffer: PieceBuffer,
}

/// A message that a direction brought. Its size is an unsigned long.
#[derive(Drop)]
pub struct Brought {
    /// The message.
    pub message: Msg,
    pub ghost sized: { length message.payload < 2 ^ 32 },
}

impl Incoming {
    /// Nothing is read. Messages may have this size, the header not counted.
    pub fn new(alloc: Global, limit: u32) -> Result<Incoming, AllocError>
        ensures limit { IfOk result (λ incoming. incoming.framer.limit ≡ limit) }
        ensures ok { IfOk result (λ incoming. incoming.fault ≡ None) }
        ensures unread { IfOk result (λ incoming. incoming.framer.octets ≡ []) }
    {
        Ok(Incoming {
            framer: Framer::new(alloc, limit),
            fault: None,
            buffer: PieceBuffer::new(alloc)?,
        })
    }

    /// The next message; `None` at the end, or at a header that is wrong. The writer is flushed
    /// before each read, so that what is over is shown as soon as it is known.
    pub fn next<R: Read, W: Write>(
        &mut self,
        reader: &mut R,
        writer: &mut W,
    ) -> Result<Option<Brought>, Failure>
        ensures end { IfOk result (λ o. IfNone o
            (self.new.fault ≡ None → IsAtEnd (R.remaining reader.new))) }
        ensures found { IfOk result (λ o. IfSome o (λ brought. IsNext self.old.framer.limit
            (unheard self.old.framer (R.remaining reader.old))
            (unheard self.new.framer (R.remaining reader.new)) brought.message)) }
        ensures last { IfOk result (λ o. IfNone o (IsLast self.old.framer.limit
            (unheard self.old.framer (R.remaining reader.old))
            (unheard self.new.framer (R.remaining reader.new)) self.new.fault
            self.new.framer.octets)) }
        ensures limit { OnOk result (self.new.framer.limit ≡ self.old.framer.limit) }
        ensures text { OnOk result (Keeps (W.contents writer.old) (W.contents writer.new)) }
    {
        'pieces: for _ in 0..u64::MAX {
            match self.framer.next() {
                Ok(Some(message)) => return Ok(Some(Brought { message })),
                Ok(None) => {}
                Err(fault) if fault.kind == WireKind::NoMemory => return Err(Failure::Memory),
                Err(fault) => {
                    self.fault = Some(fault);
                    return Ok(None);
                }
            }
            writer.flush()?;
            let piece = self.buffer.fill(reader)?;
            if piece.is_empty() {
                self.fault = None;
                return Ok(None);
            }
            if self.framer.feed(piece).is_err() {
                return Err(Failure::Memory);
            }
        }
        Err(Failure::Input(io::Error::from(ErrorKind::FileTooLarge)))
    }

    /// Takes a message that is no longer needed, whose memory may serve for one that comes. That of
    /// a large message doesn't, since a call that is open would hold more than its own octets.
    #[inline(always)]
    pub fn reuse(&mut self, message: Msg)
        ensures { self.new ≡ self.old }
    {
        if message.payload.len() <= MOST_REUSED {
            self.framer.reuse(message);
        }
    }

    /// The last line of a direction: how many octets are left, or what is wrong with the header
    /// that stands there. It is `Done` where none are left and nothing is wrong, `LimitPassed`
    /// where a message is larger than the limit, else `Refused`.
    pub fn write_end<W: Write>(
        &self,
        form: LineForm,
        direction: Direction,
        writer: &mut W,
    ) -> Result<Status, Failure>
        ensures text { OnOk result (Appends (W.contents writer.old) (W.contents writer.new)
            (ended (direction_end_in form direction self.now.fault
            (length self.now.framer.octets)))) }
        ensures ok { IfOk result (λ status. status
            ≡ direction_status self.now.fault (length self.now.framer.octets)) }
        ensures done { IfOk result (λ status. status ≡ Status.Done → self.now.fault ≡ None) }
        ensures judged { IfOk result IsJudged }
    {
        let (fault, rest) = (self.fault, self.framer.rest());
        match form {
            LineForm::Text(_) => writeln!(
                writer,
                "{}",
                DirectionEndLine {
                    direction,
                    fault,
                    rest
                }
            )?,
            LineForm::Json(_) => writeln!(
                writer,
                "{}",
                DirectionEndJson {
                    direction,
                    fault,
                    rest
                }
            )?,
        }
        Ok(direction_status(fault, rest))
    }
}

// The status of a direction that ends with this fault in a header, or with so many octets left.
fn direction_status(fault: Option<WireFault>, rest: usize) -> Status
    ensures value { result ≡ direction_status fault rest }
    ensures judged { IsJudged result }
{
    match fault {
        Some(fault) => Status::of_header(fault.kind),
        None if rest == 0 => Status::Done,
        None => Status::Refused,
    }
}
