//! The door of `serve`: one client is served at a time, and those that come meanwhile are told of
//! on standard error.

use std::cell::{Cell, RefCell};
use std::io;
use std::io::{Lock, StderrLock, Write};
use std::net::{SocketAddr, TcpListener, TcpStream};
use std::rc::Rc;
use std::time::Duration;

// A read waits for so many milliseconds before the door is looked at.
const BETWEEN_LOOKS: u64 = 100;

// Where octets come all the time, it is looked at once in so many reads.
const READS_BETWEEN_LOOKS: u32 = 16;

// So many clients are held that wait. The system holds others, of which nothing is told.
const MOST_WAITING: usize = 64;

// A client, and its address.
type Client = (TcpStream, SocketAddr);

/// A listener, the clients that wait, in the order in which they came, and which is served.
#[derive(Drop)]
pub struct Door {
    listener: TcpListener,
    waiting: RefCell<Vec<Client>>,
    told: RefCell<StderrLock<'static>>,
    connections: u32,
    served: Cell<u32>,
    reads: Cell<u32>,
}

impl Door {
    /// The door of a listener, through which so many clients are let, one after the other.
    pub fn new(rt: &HostRuntime, listener: TcpListener, connections: u32) -> io::Result<Rc<Door>> {
        let door = Door {
            listener,
            waiting: RefCell::new(Vec::new(rt.alloc())),
            told: RefCell::new(rt.stderr().lock()),
            connections,
            served: Cell::new(0),
            reads: Cell::new(0),
        };
        Ok(Rc::new(rt.alloc(), door)?)
    }

    /// How long a read may wait before the door is looked at.
    pub fn between_looks() -> Duration {
        Duration::from_millis(BETWEEN_LOOKS)
    }

    /// The client that waits longest, or else the next one. It is the connection of this number.
    pub fn admit(&self, number: u32) -> io::Result<Client> {
        self.served.set(number);
        match self.first() {
            Some(client) => Ok(client),
            None => self.listener.accept(),
        }
    }

    // The client that waits longest, if one does.
    fn first(&self) -> Option<Client> {
        let Ok(mut waiting) = self.waiting.try_borrow_mut() else {
            return None;
        };
        if waiting.is_empty() {
            return None;
        }
        Some(waiting.remove(0))
    }

    /// Counts a read that brought something, and looks where that is due.
    pub fn count(&self) {
        let reads = self.reads.get().saturating_add(1);
        if reads < READS_BETWEEN_LOOKS {
            self.reads.set(reads);
        } else {
            self.look();
        }
    }

    /// Looks whether clients came, and tells that each of them waits, once.
    pub fn look(&self) {
        self.reads.set(0);
        let _ = self.hold_all();
    }

    // Lets all clients in that are at the door, to wait.
    fn hold_all(&self) -> io::Result<()> {
        let Ok(mut waiting) = self.waiting.try_borrow_mut() else {
            return Ok(());
        };
        self.listener.set_nonblocking(true)?;
        for _ in 0..MOST_WAITING {
            if waiting.len() >= MOST_WAITING {
                break;
            }
            let Ok(client) = self.listener.accept() else {
                break;
            };
            let address = client.1;
            if waiting.push(client).is_err() {
                break;
            }
            let _ = self.tell(address, waiting.len());
        }
        self.listener.set_nonblocking(false)
    }

    // Tells that a client waits, as the one at this place, counted from 1.
    fn tell(&self, address: SocketAddr, place: usize) -> io::Result<()> {
        let Ok(mut told) = self.told.try_borrow_mut() else {
            return Ok(());
        };
        let (served, last) = (self.served.get(), self.connections);
        if place <= last.saturating_sub(served) as usize {
            writeln!(
                told,
                "giopctl: {address} waits for the end of connection {served}"
            )
        } else {
            writeln!(
                told,
                "giopctl: {address} isn't served: connection {last} is the last"
            )
        }
    }
}
