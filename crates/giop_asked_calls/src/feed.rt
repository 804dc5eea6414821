//! Lines of calls are read, as many octets as one read gives, until a call is there. Its meaning is
//! specs/Lines.antt: change both.
ghost use Rattle.std.specs.Prelude.{◌≡◌, OnOk, IfOk};
ghost use Rattle.giop_asked_calls.specs.Lines.{feed_at, none_taken, ReadsOn, ReadsPiece, so_far};

use crate::lines::CallLines;
use giop_show::failure::Failure;
use giop_show::pieces::PieceBuffer;
use giop_types::Interface;
use std::alloc::{AllocError, Global};
use std::io::Read;

/// Where lines of calls are read from, and what they have brought.
#[derive(Drop)]
pub struct LineFeed<S> {
    /// What they have brought.
    pub lines: CallLines,
    /// Where they are read from.
    pub source: S,
    /// Whether a read may wait, as for a pipe.
    pub waits: bool,
    /// The room that they are read into.
    pub buffer: PieceBuffer,
}

impl<S: Read + Drop> LineFeed<S> {
    /// Nothing is read yet.
    pub fn new(alloc: Global, source: S, waits: bool) -> Result<LineFeed<S>, AllocError>
        ensures source { IfOk result (λ f. f.source ≡ source) }
        ensures lines { IfOk result (λ f. so_far f.lines ≡ none_taken) }
        ensures waits { IfOk result (λ f. f.waits ≡ waits) }
    {
        Ok(LineFeed {
            lines: CallLines::new(alloc),
            source,
            waits,
            buffer: PieceBuffer::new(alloc)?,
        })
    }

    /// Reads until a call is there, or the text is over, or a line is refused.
    pub fn read_on(&mut self, alloc: Global, interface: &Interface) -> Result<(), Failure>
        ensures reads { OnOk result (ReadsOn interface.now (feed_at (S.remaining self.old.source)
            self.old) (feed_at (S.remaining self.new.source) self.new)) }
        ensures waits { self.new.waits ≡ self.old.waits }
    {
        'reads: for done in 0..u64::MAX {
            if !self.lines.wants_more() {
                return Ok(());
            }
            self.read_once(alloc, interface)?;
        }
        Err(Failure::TurnsSpent)
    }

    // Reads once.
    fn read_once(&mut self, alloc: Global, interface: &Interface) -> Result<(), Failure>
        ensures reads { OnOk result (ReadsPiece interface.now (feed_at (S.remaining self.old.source)
            self.old) (feed_at (S.remaining self.new.source) self.new)) }
        ensures waits { self.new.waits ≡ self.old.waits }
    {
        let piece = self.buffer.fill(&mut self.source)?;
        self.lines.take_read(alloc, interface, piece)
    }
}
