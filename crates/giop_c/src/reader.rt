//! What a framer's handle holds, and its calls as C sees them.
ghost use Rattle.std.specs.Prelude.{◌≡◌, [], None};
ghost use Rattle.giop_c.specs.Calls.{Copies, Feeds, Takes, refusal};

use crate::records::{Fault, Message};
use crate::status::{FAULT, NO_MEMORY, OK, SMALL, WAITS};
use giop_msg::{Framer, Msg, WireFault, WireKind};
use std::alloc::Global;

/// What a handle holds: a framer, and the message that was taken last.
#[derive(Drop)]
pub struct Reader {
    pub framer: Framer,
    pub message: Option<Msg>,
}

impl Reader {
    /// A reader that refuses each message whose size, which doesn't count the header, is above the
    /// limit. It takes no memory.
    pub fn new(alloc: Global, limit: u32) -> Reader
        ensures { result ≡ record {
          framer = record { limit = limit; octets = [] };
          message = None;
        } }
    {
        Reader {
            framer: Framer::new(alloc, limit),
            message: None,
        }
    }

    /// Appends octets to those that are unread. It answers OK, or NO_MEMORY, which changes nothing.
    pub fn feed(&mut self, octets: &[u8]) -> u32
        ensures { Feeds octets.now self.old self.new result }
    {
        match self.framer.feed(octets) {
            Ok(()) => OK,
            Err(_) => NO_MEMORY,
        }
    }

    /// Gives the message before back, and takes the first one of the unread octets. It answers OK
    /// and writes the header; or WAITS; or FAULT or NO_MEMORY, and writes the fault.
    pub fn next(&mut self, message: &mut Message, fault: &mut Fault) -> u32
        ensures { Takes self.old self.new message.old message.new fault.old fault.new result }
    {
        if let Some(last) = self.message.take() {
            self.framer.reuse(last);
        }
        match self.framer.next() {
            Ok(Some(found)) => {
                *message = Message::of(&found);
                self.message = Some(found);
                OK
            }
            Ok(None) => WAITS,
            Err(refused) => {
                *fault = Fault::of(refused);
                status_of(refused)
            }
        }
    }

    /// Copies the payload of the message that was taken last, and writes its size. It answers OK;
    /// or SMALL, where the buffer has no room for it; or WAITS, where no message was taken.
    pub fn payload(&self, buffer: &mut [u8], size: &mut usize) -> u32
        ensures { Copies self.now.message buffer.old buffer.new size.old size.new result }
    {
        let Some(message) = &self.message else {
            return WAITS;
        };
        let octets = message.payload.as_slice();
        *size = octets.len();
        if buffer.len() < octets.len() {
            return SMALL;
        }
        buffer[..octets.len()].copy_from_slice(octets);
        OK
    }
}

// The status of what the framer refused.
fn status_of(refused: WireFault) -> u32
    ensures { result ≡ refusal refused.kind }
{
    match refused.kind {
        WireKind::NoMemory => NO_MEMORY,
        _ => FAULT,
    }
}
