//! The door of `serve`: one client is served at a time, and those that come meanwhile are told of on
//! standard error.

use std::alloc::Global;
use std::cell::{Cell, RefCell};
use std::io;
use std::io::ErrorKind;
use std::net::{SocketAddr, TcpListener, TcpStream};
use std::time::{Duration, Instant};

// While a client is served the door is looked at so often, in milliseconds.
const BETWEEN_LOOKS: u64 = 100;

// So many clients are held that wait. The system holds others, of which nothing is told.
const MOST_WAITING: usize = 64;

// A client, and its address.
type Client = (TcpStream, SocketAddr);

/// A listener, the clients that wait, in the order in which they came, and which is served.
#[derive(Drop)]
pub struct Door<'a> {
    rt: &'a HostRuntime,
    listener: TcpListener,
    waiting: RefCell<Vec<Client>>,
    connections: u32,
    served: Cell<u32>,
    looked: Cell<Option<Instant>>,
}

impl<'a> Door<'a> {
    /// The door of a listener, through which so many clients are let, one after the other.
    pub fn new(rt: &'a HostRuntime, listener: TcpListener, connections: u32) -> Door<'a> {
        let alloc: Global = rt.alloc();
        Door {
            rt,
            listener,
            waiting: RefCell::new(Vec::new(alloc)),
            connections,
            served: Cell::new(0),
            looked: Cell::new(None),
        }
    }

    /// How long a read may wait before the door is looked at again.
    pub fn between_looks() -> Duration {
        Duration::from_millis(BETWEEN_LOOKS)
    }

    /// The client that waits longest, or else the next one. This is the connection of the number.
    pub fn admit(&self, number: u32) -> io::Result<Client> {
        self.served.set(number);
        match self.first() {
            Some(client) => Ok(client),
            None => self.listener.accept(),
        }
    }

    // The client that waits longest, if one does.
    fn first(&self) -> Option<Client> {
        let Ok(mut waiting) = self.waiting.try_borrow_mut() else {
            return None;
        };
        if waiting.is_empty() {
            return None;
        }
        Some(waiting.remove(0))
    }

    /// Looks whether clients came, and tells that each of them waits, once. It does so where some
    /// time has passed since the last look.
    pub fn look(&self) {
        if self.is_due() {
            let _ = self.hold_all();
        }
    }

    // Whether it is time to look. Where there is no clock, it is.
    fn is_due(&self) -> bool {
        let Ok(now) = Instant::now(self.rt) else {
            return true;
        };
        let due = match self.looked.get() {
            Some(last) => now.duration_since(last) >= Door::between_looks(),
            None => true,
        };
        if due {
            self.looked.set(Some(now));
        }
        due
    }

    // Lets all clients in that are at the door, to wait.
    fn hold_all(&self) -> io::Result<()> {
        let Ok(mut waiting) = self.waiting.try_borrow_mut() else {
            return Ok(());
        };
        self.listener.set_nonblocking(true)?;
        while waiting.len() < MOST_WAITING {
            let Ok(client) = self.listener.accept() else {
                break;
            };
            let address = client.1;
            if waiting.push(client).is_err() {
                break;
            }
            self.tell(address, waiting.len());
        }
        self.listener.set_nonblocking(false)
    }

    // Tells that a client waits, before which so many do, itself among them.
    fn tell(&self, address: SocketAddr, place: usize) {
        let served = self.served.get();
        let _ = if self.is_let_in(place) {
            eprintln!(self.rt; "giopctl: {address} waits for the end of connection {served}")
        } else {
            eprintln!(self.rt;
                "giopctl: {address} isn't served: connection {} is the last",
                self.connections
            )
        };
    }

    // Whether the client at this place, counted from 1, will be served.
    fn is_let_in(&self, place: usize) -> bool {
        let left = self.connections.saturating_sub(self.served.get());
        place <= left as usize
    }
}
