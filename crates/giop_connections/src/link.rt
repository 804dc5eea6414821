//! A connection of `call` and `serve`. It is read while it takes no more of what is written
//! (giop_commands' session/ahead.rt).
ghost use Rattle.std.specs.Io.{ReadsAtMost, WritesAtMost};

use crate::door::Door;
use giop_commands::session::ahead::Ahead;
use std::alloc::Global;
use std::cell::{Cell, RefCell};
use std::io;
use std::io::{ErrorKind, Read, Write};
use std::net::TcpStream;
use std::rc::Rc;
use std::time::Duration;

// A write waits for so many milliseconds before the connection is read instead.
const WRITE_WAIT: u64 = 10;

// So many such waits take a second.
const WAITS_IN_A_SECOND: u64 = 1_000 / WRITE_WAIT;

/// A connection, what was read from it ahead, and the error of a write that failed. What the peer
/// sent before that is read first, and then the error is told.
#[derive(Drop)]
pub struct Link {
    stream: TcpStream,
    ahead: RefCell<Ahead>,
    failed: Cell<Option<io::Error>>,
    patience: Patience,
    // The door that is looked at between reads, if there is one.
    door: Option<Rc<Door>>,
}

impl Link {
    /// A connection. Where nothing comes or goes for so many seconds, at least 1, it fails with
    /// `TimedOut`; without a timeout it waits for ever.
    pub fn new(alloc: Global, stream: TcpStream, timeout: Option<u32>) -> io::Result<Link> {
        stream.set_write_timeout(Some(Duration::from_millis(WRITE_WAIT)))?;
        stream.set_read_timeout(timeout.map(|seconds| Duration::from_secs(u64::from(seconds))))?;
        Ok(Link {
            stream,
            ahead: RefCell::new(Ahead::new(alloc)),
            failed: Cell::new(None),
            patience: Patience::of(timeout),
            door: None,
        })
    }

    /// A connection of a client that was let in by a door, without a timeout. That door is looked
    /// at between reads.
    pub fn through(alloc: Global, stream: TcpStream, door: Rc<Door>) -> io::Result<Link> {
        let mut link = Link::new(alloc, stream, None)?;
        link.stream.set_read_timeout(Some(Door::between_looks()))?;
        link.door = Some(door);
        Ok(link)
    }

    // Looks at the door where nothing came for a while, if there is one. Returns whether there is.
    fn looks(&self) -> bool {
        match &self.door {
            Some(door) => {
                door.look();
                true
            }
            None => false,
        }
    }

    // Something came: the door is looked at now and then, if there is one.
    fn counts(&self) {
        if let Some(door) = &self.door {
            door.count();
        }
    }

    // The next octets, those that were read ahead first. An interrupted read is done again.
    fn read_on(&self, piece: &mut [u8]) -> io::Result<usize>
        ensures { ReadsAtMost result piece.new }
    {
        let Ok(mut ahead) = self.ahead.try_borrow_mut() else {
            return Err(io::Error::from(ErrorKind::Other));
        };
        for _ in 0..u64::MAX {
            match ahead.read(&mut &self.stream, piece) {
                Err(error) if error.kind() == ErrorKind::Interrupted => {}
                Err(error) if error.kind() == ErrorKind::WouldBlock => {
                    if !self.looks() {
                        return Err(io::Error::from(ErrorKind::TimedOut));
                    }
                }
                read => {
                    self.counts();
                    return read;
                }
            }
        }
        Err(io::Error::from(ErrorKind::Interrupted))
    }

    // Writes some of the octets, and reads ahead while none can be written.
    fn write_some(&self, octets: &[u8]) -> io::Result<usize>
        ensures { WritesAtMost result octets.now }
    {
        let Ok(mut ahead) = self.ahead.try_borrow_mut() else {
            return Err(io::Error::from(ErrorKind::Other));
        };
        ahead.write(&mut There(self), &mut Here(self), octets)
    }

    // Keeps the error of a write, which is told when what is there has been read. Where the peer
    // takes nothing any more, no read waits for it a second time.
    fn fail(&self, error: io::Error) {
        if error.kind() == ErrorKind::TimedOut {
            let _ = self
                .stream
                .set_read_timeout(Some(Duration::from_millis(WRITE_WAIT)));
        }
        self.failed.set(Some(error));
    }
}

impl Read for &Link {
    fn read(&mut self, piece: &mut [u8]) -> io::Result<usize> {
        match self.read_on(piece) {
            Ok(n) if n > 0 => Ok(n),
            ended => match self.failed.take() {
                Some(error) => Err(error),
                None => ended,
            },
        }
    }
}

impl Write for &Link {
    fn write(&mut self, octets: &[u8]) -> io::Result<usize> {
        match self.write_some(octets) {
            Ok(n) => Ok(n),
            Err(error) => {
                self.fail(error);
                Ok(octets.len())
            }
        }
    }

    fn flush(&mut self) -> io::Result<()> {
        Ok(())
    }
}

// How long a peer may take nothing and send nothing while octets are to be written to it.
#[derive(Drop)]
struct Patience {
    // So many writes in a row at most; any number where there is none.
    most: Option<u64>,
    // So many have found no room since something came or went.
    spent: Cell<u64>,
}

impl Patience {
    fn of(timeout: Option<u32>) -> Patience {
        Patience {
            most: timeout.map(|seconds| u64::from(seconds) * WAITS_IN_A_SECOND),
            spent: Cell::new(0),
        }
    }

    // Something came or went.
    fn renew(&self) {
        self.spent.set(0);
    }

    // A write found no room. Returns whether there may be another.
    fn lasts(&self) -> bool {
        let spent = self.spent.get().saturating_add(1);
        self.spent.set(spent);
        match self.most {
            Some(most) => spent < most,
            None => true,
        }
    }
}

// A connection that is written to; a write waits for `WRITE_WAIT` milliseconds at most.
#[derive(Drop)]
struct Here<'a>(&'a Link);

impl Write for Here<'_> {
    fn write(&mut self, octets: &[u8]) -> io::Result<usize> {
        match (&mut &self.0.stream).write(octets) {
            Ok(n) => {
                self.0.patience.renew();
                Ok(n)
            }
            Err(error) if error.kind() == ErrorKind::WouldBlock && !self.0.patience.lasts() => {
                Err(io::Error::from(ErrorKind::TimedOut))
            }
            Err(error) => Err(error),
        }
    }

    fn flush(&mut self) -> io::Result<()> {
        Ok(())
    }
}

// A connection that is read without waiting.
#[derive(Drop)]
struct There<'a>(&'a Link);

impl Read for There<'_> {
    fn read(&mut self, piece: &mut [u8]) -> io::Result<usize> {
        self.0.stream.set_nonblocking(true)?;
        let read = (&mut &self.0.stream).read(piece);
        self.0.stream.set_nonblocking(false)?;
        if let Ok(1..) = read {
            self.0.patience.renew();
        }
        read
    }
}
