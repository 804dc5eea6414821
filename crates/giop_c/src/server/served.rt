//! What a handle of a server's end holds, and its calls, each a call of giop_session at the end.
ghost use Rattle.std.specs.Prelude.{◌≡◌, ◌≤◌, ◌+◌, ◌/◌, ◌^◌, length, OnOk, OnErr};
ghost use Rattle.std.specs.FinMap as finite;
ghost use Rattle.std_alloc.specs.Arc.{arc_value};
ghost use Rattle.giop_end.specs.Ends.SessionFaults.{error_message_of};
ghost use Rattle.giop_end.specs.Ends.Begun.{end_state, new_end};
ghost use Rattle.giop_table.specs.CallTable.{entry_at};
ghost use Rattle.giop_c.specs.Server.Entries.{c_server_row};
ghost use Rattle.giop_c.specs.Copying.{CopiesFront};
ghost use Rattle.giop_c.specs.Server.Ends.{ClosesServer, FeedsServer, LocatesAtServer, SendsAtServer, TakesAtServer, WritesAtServer};

use crate::copying::{copy_front, copy_ids};
use crate::server::entries::ServerRow;
use crate::status::{OK, SMALL};
use giop_calls::ServerRule;
use giop_cdr::Order;
use giop_end::{Detached, Limits, SessionFault};
use giop_types::Interface;
use std::alloc::{AllocError, Global};
use std::sync::Arc;

/// A server's end beside its interface, of which it keeps a share.
#[derive(Drop)]
pub struct Served {
    pub interface: Arc<Interface>,
    pub end: Detached<ServerRule>,
}

impl Served {
    /// A server's end without calls. It takes no memory.
    pub fn new(alloc: Global, interface: Arc<Interface>, limits: Limits) -> Served
        requires { limits.gathered ≤ 2 ^ 62 }
        ensures interface { arc_value result.interface ≡ arc_value interface }
        ensures state { end_state result.end.framer result.end.calls result.end.outgoing
            result.end.fault ≡ new_end (record {}) limits }
        ensures limits { result.end.limits ≡ limits }
    {
        Served {
            interface,
            end: Detached::new(alloc, ServerRule, limits),
        }
    }

    /// Takes in octets of the client, as `End::feed`.
    pub fn feed(&mut self, octets: &[u8]) -> Result<(), SessionFault>
        ensures { FeedsServer octets.now self.old result self.new }
    {
        self.end.feed(&self.interface, octets)
    }

    /// Copies the first outgoing octets, as many as the buffer has room for, and writes how many
    /// there are in all. It takes no memory.
    pub fn outgoing(&self, buffer: &mut [u8], size: &mut usize)
        ensures copies { CopiesFront self.now.end.outgoing buffer.old buffer.new size.new }
    {
        copy_front(self.end.outgoing(), buffer, size);
    }

    /// The first `n` of the outgoing octets are written. It answers OK; or SMALL, where fewer are
    /// outgoing, and nothing has changed. It takes no memory.
    pub fn wrote(&mut self, n: usize) -> u32
        ensures { WritesAtServer n self.old self.new result }
    {
        if n <= self.end.outgoing().len() {
            self.end.wrote(n);
            OK
        } else {
            SMALL
        }
    }

    /// Puts out the next piece of a Reply, as `End::send`.
    pub fn send(&mut self, id: u32) -> Result<(), SessionFault>
        ensures { SendsAtServer id self.old result self.new }
    {
        self.end.send(id)
    }

    /// Answers a LocateRequest, as `End::answer_locate`.
    pub fn answer_locate(&mut self, id: u32, here: bool, order: Order) -> Result<(), SessionFault>
        ensures { LocatesAtServer id here order self.old result self.new }
    {
        self.end.answer_locate(id, here, order)
    }

    /// Closes the connection, as `End::close`.
    pub fn close(&mut self) -> Result<(), SessionFault>
        ensures { ClosesServer self.old result self.new }
    {
        self.end.close()
    }

    /// Takes what is stored for an id out and drops it, as `End::take`. It takes no memory.
    pub fn take(&mut self, id: u32) -> Result<(), SessionFault>
        ensures { TakesAtServer id self.old result self.new }
    {
        match self.end.take(id) {
            Ok(_) => Ok(()),
            Err(why) => Err(why),
        }
    }

    /// Copies the first ids for which something is stored, ascending, as many as the buffer has room
    /// for, and writes how many there are in all.
    pub fn ids(
        &self,
        alloc: Global,
        buffer: &mut [u32],
        count: &mut usize,
    ) -> Result<(), AllocError>
        ensures ok { OnOk result (CopiesFront (finite.keys self.now.end.calls.table) buffer.old
            buffer.new count.new) }
        ensures err { OnErr result ((buffer.new ≡ buffer.old) × (count.new ≡ count.old)) }
    {
        let ids = self.end.ids(alloc)?;
        copy_ids(ids.as_slice(), buffer, count);
        Ok(())
    }

    /// How many octets are unread. It takes no memory.
    pub fn rest(&self) -> usize
        ensures value { result ≡ length self.now.end.framer.octets }
    {
        self.end.rest()
    }

    /// How many blocks of 512 octets the end has taken for pieces. It takes no memory.
    pub fn blocks(&self) -> usize
        ensures within { result ≤ self.now.end.calls.room / 512 + self.now.end.calls.calls }
    {
        self.end.blocks()
    }

    /// The MessageError that the fault of the end asks for, if it does. It takes no memory.
    pub fn error_message(&self) -> Option<[u8; 12]>
        ensures value { result ≡ error_message_of self.now.end.fault }
    {
        self.end.error_message()
    }

    /// What is stored for an id, as C sees it. It takes no memory.
    pub fn row(&self, id: u32) -> ServerRow
        ensures value { result ≡ c_server_row (entry_at self.now.end.calls id) }
    {
        ServerRow::of(self.end.entry(id))
    }
}
