//! The octets that an end has put out, until its program has written them.
ghost use Rattle.std.specs.Prelude.{◌≡◌, ◌≤◌, ◌<◌, ◌^◌, ◌++◌, [], drop, length, take, OnErr, OnOk};
ghost use Rattle.giop_msg.specs.Msg.{message_octets};

use bytes::BytesMut;
use giop_msg::Msg;
use std::alloc::{AllocError, Global};
use std::marker::Model;

/// The octets that an end has put out and its program has still to write, the next one first.
///
/// Contracts see the list of them.
#[derive(Drop)]
pub struct Outgoing {
    octets: BytesMut,
}

impl Model for Outgoing {
    ghost use Rattle.std.specs.Prelude.{List, ℕ};

    ghost Value = { List ℕ };

    ghost view = { λ o. o.octets.items };
}

impl Outgoing {
    /// No octets. It takes no memory.
    pub fn new(alloc: Global) -> Outgoing
        ensures { result ≡ [] }
    {
        Outgoing {
            octets: BytesMut::new(alloc),
        }
    }

    /// The octets in one slice. It takes no memory.
    pub fn as_slice(&self) -> &[u8]
        ensures { result.now ≡ self.now }
    {
        self.octets.as_slice()
    }

    /// The first `n` octets are written. It takes no memory.
    pub fn wrote(&mut self, n: usize)
        requires { n ≤ length self.old }
        ensures { self.new ≡ drop n self.old }
    {
        self.octets.advance(n);
        // The next octets then begin at the front of its memory.
        if self.octets.is_empty() {
            self.octets.clear();
        }
    }

    /// Puts a message out, behind what is outgoing. Where it is out of memory, nothing changes.
    #[inline(always)]
    pub fn put(&mut self, message: &Msg) -> Result<(), AllocError>
        requires { length message.now.payload < 2 ^ 32 }
        ensures ok { OnOk result (self.new ≡ self.old ++ message_octets message.now) }
        ensures err { OnErr result (self.new ≡ self.old) }
    {
        let before = self.octets.len();
        self.octets.extend_from_slice(&message.header().octets())?;
        let payload = self.octets.extend_from_slice(message.payload.as_slice());
        if payload.is_err() {
            self.octets.truncate(before);
        }
        payload
    }

    /// Takes back what was put out behind the first `len` octets. It takes no memory.
    pub fn back_to(&mut self, len: usize)
        ensures { self.new ≡ take len self.old }
    {
        self.octets.truncate(len);
    }
}
