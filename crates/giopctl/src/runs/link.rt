//! A connection of `call` and `serve`. It is read while it takes no more of what is written
//! (session/ahead.rt of giop_commands).
ghost use Rattle.std.specs.Io.{ReadsAtMost, WritesAtMost};

use giop_commands::session::ahead::Ahead;
use std::alloc::Global;
use std::cell::{Cell, RefCell};
use std::io;
use std::io::{ErrorKind, Read, Write};
use std::net::TcpStream;
use std::time::Duration;

// A write waits for so many milliseconds before the connection is read instead.
const WRITE_WAIT: u64 = 10;

/// A connection, what was read from it ahead, and the error of a write that failed. What the peer
/// sent before that is read first, and then the error is told.
#[derive(Drop)]
pub struct Link {
    stream: TcpStream,
    ahead: RefCell<Ahead>,
    failed: Cell<Option<io::Error>>,
}

impl Link {
    /// A connection. A read that waits longer than this fails with `TimedOut`; without it a read
    /// waits for ever.
    pub fn new(alloc: Global, stream: TcpStream, timeout: Option<Duration>) -> io::Result<Link> {
        stream.set_write_timeout(Some(Duration::from_millis(WRITE_WAIT)))?;
        stream.set_read_timeout(timeout)?;
        Ok(Link {
            stream,
            ahead: RefCell::new(Ahead::new(alloc)),
            failed: Cell::new(None),
        })
    }

    // The next octets, those that were read ahead first. An interrupted read is done again.
    fn read_on(&self, piece: &mut [u8]) -> io::Result<usize>
        ensures { ReadsAtMost result piece.new }
    {
        let Ok(mut ahead) = self.ahead.try_borrow_mut() else {
            return Err(io::Error::from(ErrorKind::Other));
        };
        for _ in 0..u64::MAX {
            match ahead.read(&mut &self.stream, piece) {
                Err(error) if error.kind() == ErrorKind::Interrupted => {}
                Err(error) if error.kind() == ErrorKind::WouldBlock => {
                    return Err(io::Error::from(ErrorKind::TimedOut));
                }
                read => return read,
            }
        }
        Err(io::Error::from(ErrorKind::Interrupted))
    }

    // Writes some of the octets, and reads ahead while none can be written.
    fn write_some(&self, octets: &[u8]) -> io::Result<usize>
        ensures { WritesAtMost result octets.now }
    {
        let Ok(mut ahead) = self.ahead.try_borrow_mut() else {
            return Err(io::Error::from(ErrorKind::Other));
        };
        ahead.write(&mut There(&self.stream), &mut &self.stream, octets)
    }
}

impl Read for &Link {
    fn read(&mut self, piece: &mut [u8]) -> io::Result<usize> {
        match self.read_on(piece) {
            Ok(n) if n > 0 => Ok(n),
            ended => match self.failed.take() {
                Some(error) => Err(error),
                None => ended,
            },
        }
    }
}

impl Write for &Link {
    fn write(&mut self, octets: &[u8]) -> io::Result<usize> {
        match self.write_some(octets) {
            Ok(n) => Ok(n),
            Err(error) => {
                self.failed.set(Some(error));
                Ok(octets.len())
            }
        }
    }

    fn flush(&mut self) -> io::Result<()> {
        Ok(())
    }
}

// A connection that is read without waiting.
#[derive(Drop)]
struct There<'a>(&'a TcpStream);

impl Read for There<'_> {
    fn read(&mut self, piece: &mut [u8]) -> io::Result<usize> {
        self.0.set_nonblocking(true)?;
        let read = (&mut &*self.0).read(piece);
        self.0.set_nonblocking(false)?;
        read
    }
}
