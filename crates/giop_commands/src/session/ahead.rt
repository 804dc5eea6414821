//! A connection is read while it takes no more of what is written, so that two ends which both
//! write don't wait for each other.
ghost use Rattle.std.specs.Prelude.{◌≡◌, ◌≤◌, ◌+◌, ◌++◌, [], length, OnOk};
ghost use Rattle.std.specs.Io.{ReadsAtMost, WritesAtMost};
ghost use Rattle.std.specs.Io.KnownBytes.{Keeps, ReadConsumes, WriteAppends, prepend_known};
ghost use Rattle.std.specs.VecDeque.{deque_len, deque_capacity};

use std::alloc::Global;
use std::collections::VecDeque;
use std::io;
use std::io::{ErrorKind, Read, Write};
use std::marker::Model;

/// So many octets are read ahead at most.
pub const MOST_AHEAD: usize = 67_108_864;

// One read gives so many octets at most.
const ONE_READ: usize = 4_096;

/// The octets that were read before they were asked for, in their order.
///
/// Contracts see the list of them.
#[derive(Drop)]
pub struct Ahead {
    octets: VecDeque<u8>,
}

impl Model for Ahead {
    ghost use Rattle.std.specs.Prelude.{List, ℕ};

    ghost Value = { List ℕ };

    ghost view = { λ a. a.octets.items };
}

impl Ahead {
    /// No octets. It takes no memory.
    pub fn new(alloc: Global) -> Ahead
        ensures { result ≡ [] }
    {
        Ahead {
            octets: VecDeque::new(alloc),
        }
    }

    /// The next octets: those that were read ahead, and where there are none, those of one read.
    pub fn read<R: Read>(&mut self, reader: &mut R, piece: &mut [u8]) -> io::Result<usize>
        ensures within { ReadsAtMost result piece.new }
        ensures bytes { ReadConsumes (prepend_known self.old (R.remaining reader.old))
            (prepend_known self.new (R.remaining reader.new)) result piece.new }
    {
        if self.octets.is_empty() {
            reader.read(piece)
        } else {
            self.octets.read(piece)
        }
    }

    /// Writes as many of the octets as the writer takes. While it takes none and would have to wait
    /// (`WouldBlock`, or `Interrupted`), all that `reader` has is read ahead, up to 64 MiB; no
    /// octet of it is lost. A reader that would have to wait has nothing.
    ///
    /// Another error of the writer or of the reader is returned, and `OutOfMemory` where there is
    /// no room for what would be read.
    #[tactic(auto, using(crate::proofs::OnSession::AheadLemmas::kept, crate::proofs::OnSession::AheadLemmas::kept_on, crate::proofs::OnSession::AheadLemmas::written_on))]
    pub fn write<R: Read, W: Write>(
        &mut self,
        reader: &mut R,
        writer: &mut W,
        octets: &[u8],
    ) -> io::Result<usize>
        ensures within { WritesAtMost result octets.now }
        ensures bytes { WriteAppends (W.contents writer.old) (W.contents writer.new) result
            octets.now }
        ensures kept { Keeps (prepend_known self.old (R.remaining reader.old))
            (prepend_known self.new (R.remaining reader.new)) }
        ensures bounded { length self.old ≤ MOST_AHEAD → length self.new ≤ MOST_AHEAD }
    {
        'tries: for done in 0..u64::MAX {
            match writer.write(octets) {
                Err(error) if would_wait(&error) => self.read_there(reader)?,
                written => return written,
            }
        }
        Err(io::Error::from(ErrorKind::WouldBlock))
    }

    // Reads all that is there, as far as there is room for it.
    #[tactic(auto, using(crate::proofs::OnSession::AheadLemmas::kept, crate::proofs::OnSession::AheadLemmas::kept_on, crate::proofs::OnSession::AheadLemmas::written_on))]
    fn read_there<R: Read>(&mut self, reader: &mut R) -> io::Result<()>
        ensures kept { Keeps (prepend_known self.old (R.remaining reader.old))
            (prepend_known self.new (R.remaining reader.new)) }
        ensures bounded { length self.old ≤ MOST_AHEAD → length self.new ≤ MOST_AHEAD }
    {
        'reads: for done in 0..u64::MAX {
            if self.read_once(reader)? == 0 {
                return Ok(());
            }
        }
        Ok(())
    }

    // Reads once, where there is room. Returns how many octets were read, 0 also where the reader
    // would have to wait.
    fn read_once<R: Read>(&mut self, reader: &mut R) -> io::Result<usize>
        ensures kept { Keeps (prepend_known self.old (R.remaining reader.old))
            (prepend_known self.new (R.remaining reader.new)) }
        ensures bounded { length self.old ≤ MOST_AHEAD → length self.new ≤ MOST_AHEAD }
    {
        if self.octets.len() > MOST_AHEAD - ONE_READ {
            return Ok(0);
        }
        self.octets.reserve(ONE_READ)?;
        let mut piece = [0u8; ONE_READ];
        match reader.read(&mut piece) {
            Ok(n) => {
                push_all(&mut self.octets, &piece[..n]);
                Ok(n)
            }
            Err(error) if would_wait(&error) => Ok(0),
            Err(error) => Err(error),
        }
    }
}

// Whether an error says no more than that a call would have to wait.
fn would_wait(error: &io::Error) -> bool {
    matches!(error.kind(), ErrorKind::WouldBlock | ErrorKind::Interrupted)
}

// Appends octets for which there is room.
fn push_all(queue: &mut VecDeque<u8>, octets: &[u8])
    requires { deque_len queue.old + length octets.now ≤ deque_capacity queue.old }
    ensures { queue.new.items ≡ queue.old.items ++ octets.now }
{
    for octet in octets {
        queue.push_back_reserved(*octet);
    }
}
