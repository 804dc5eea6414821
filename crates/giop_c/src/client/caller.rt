//! What a handle of a client's end holds, and its calls, each a call of giop_session at the end.
ghost use Rattle.std.specs.Prelude.{◌≡◌, ◌+◌, ◌/◌, ◌≤◌, ◌^◌, Some, None, length, OnOk, OnErr};
ghost use Rattle.std.specs.FinMap as finite;
ghost use Rattle.std_alloc.specs.Arc.{arc_value};
ghost use Rattle.giop_end.specs.Ends.SessionFaults.{error_message_of};
ghost use Rattle.giop_end.specs.Ends.Begun.{end_state, new_end};
ghost use Rattle.giop_table.specs.CallTable.{entry_at};
ghost use Rattle.giop_c.specs.Client.Entries.{CopiesMembers, CopiesOuts, CopiesReference, body_of, c_client_row, contexts_of, exception_in, forward_in};
ghost use Rattle.giop_c.specs.Contexts.{CopiesContext, context_at};
ghost use Rattle.giop_c.specs.Copying.{CopiesFront, CopiesOctets};
ghost use Rattle.giop_c.specs.Client.Ends.{CancelsAtClient, ClosesClient, FeedsClient, SendsAtClient, TakesAtClient, WritesAtClient};

use crate::client::entries::{ClientRow, body_of, contexts_of, exception_in, forward_in};
use crate::client::replies::{copy_members, copy_outs, copy_reference};
use crate::contexts::{context_at, copy_context};
use crate::copying::{copy_front, copy_ids, copy_octets};
use crate::status::{OK, SMALL};
use crate::value_form::ValueForm;
use giop_calls::ClientRule;
use giop_cdr::Order;
use giop_end::{Detached, Limits, SessionFault};
use giop_types::Interface;
use std::alloc::{AllocError, Global};
use std::sync::Arc;

/// A client's end beside its interface, of which it keeps a share.
#[derive(Drop)]
pub struct Caller {
    pub interface: Arc<Interface>,
    pub end: Detached<ClientRule>,
}

impl Caller {
    /// A client's end without calls. It takes no memory.
    pub fn new(alloc: Global, interface: Arc<Interface>, limits: Limits) -> Caller
        requires { limits.gathered ≤ 2 ^ 62 }
        ensures interface { arc_value result.interface ≡ arc_value interface }
        ensures state { end_state result.end.framer result.end.calls result.end.outgoing
            result.end.fault ≡ new_end (record {}) limits }
        ensures limits { result.end.limits ≡ limits }
    {
        Caller {
            interface,
            end: Detached::new(alloc, ClientRule, limits),
        }
    }

    /// Takes in octets of the server, as `End::feed`.
    pub fn feed(&mut self, octets: &[u8]) -> Result<(), SessionFault>
        ensures { FeedsClient octets.now self.old result self.new }
    {
        self.end.feed(&self.interface, octets)
    }

    /// Copies the first outgoing octets, as many as the buffer has room for, and writes how many
    /// there are in all. It takes no memory.
    pub fn outgoing(&self, buffer: &mut [u8], size: &mut usize)
        ensures copies { CopiesFront self.now.end.outgoing buffer.old buffer.new size.new }
    {
        copy_front(self.end.outgoing(), buffer, size);
    }

    /// The first `n` of the outgoing octets are written. It answers OK; or SMALL, where fewer are
    /// outgoing, and nothing has changed. It takes no memory.
    pub fn wrote(&mut self, n: usize) -> u32
        ensures { WritesAtClient n self.old self.new result }
    {
        if n <= self.end.outgoing().len() {
            self.end.wrote(n);
            OK
        } else {
            SMALL
        }
    }

    /// Puts out the next piece of a call, as `End::send`.
    pub fn send(&mut self, id: u32) -> Result<(), SessionFault>
        ensures { SendsAtClient id self.old result self.new }
    {
        self.end.send(id)
    }

    /// Cancels the call of an id, as `End::cancel`.
    pub fn cancel(&mut self, id: u32, order: Order) -> Result<(), SessionFault>
        ensures { CancelsAtClient id order self.old result self.new }
    {
        self.end.cancel(id, order)
    }

    /// Closes the connection, as `End::close`.
    pub fn close(&mut self) -> Result<(), SessionFault>
        ensures { ClosesClient self.old result self.new }
    {
        self.end.close()
    }

    /// Takes what is stored for an id out and drops it, as `End::take`. It takes no memory.
    pub fn take(&mut self, id: u32) -> Result<(), SessionFault>
        ensures { TakesAtClient id self.old result self.new }
    {
        let _entry = self.end.take(id)?;
        Ok(())
    }

    /// Copies the first ids for which something is stored, ascending, as many as the buffer has room
    /// for, and writes how many there are in all.
    pub fn ids(
        &self,
        alloc: Global,
        buffer: &mut [u32],
        count: &mut usize,
    ) -> Result<(), AllocError>
        ensures ok { OnOk result (CopiesFront (finite.keys self.now.end.calls.table) buffer.old
            buffer.new count.new) }
        ensures err { OnErr result ((buffer.new ≡ buffer.old) × (count.new ≡ count.old)) }
    {
        let ids = self.end.ids(alloc)?;
        copy_ids(ids.as_slice(), buffer, count);
        Ok(())
    }

    /// How many octets are unread. It takes no memory.
    pub fn rest(&self) -> usize
        ensures value { result ≡ length self.now.end.framer.octets }
    {
        self.end.rest()
    }

    /// How many blocks of 512 octets the end has taken for pieces. It takes no memory.
    pub fn blocks(&self) -> usize
        ensures within { result ≤ self.now.end.calls.room / 512 + self.now.end.calls.calls }
    {
        self.end.blocks()
    }

    /// The MessageError that the fault of the end asks for, if it does. It takes no memory.
    pub fn error_message(&self) -> Option<[u8; 12]>
        ensures value { result ≡ error_message_of self.now.end.fault }
    {
        self.end.error_message()
    }

    /// What is stored for an id, as C sees it. It takes no memory.
    pub fn row(&self, id: u32) -> ClientRow
        ensures value { result ≡ c_client_row (entry_at self.now.end.calls id) }
    {
        ClientRow::of(self.end.entry(id))
    }

    /// Copies what the Reply under an id brought without an exception, in a form. It answers OK;
    /// SMALL, where the buffer has no room for it;
    /// WAITS, where there is no such Reply; NO_MEMORY; or FAULT, where the values aren't of their
    /// descriptions.
    pub fn outs(
        &self,
        alloc: Global,
        id: u32,
        form: ValueForm,
        buffer: &mut [u8],
        size: &mut usize,
    ) -> u32
        ensures copies { CopiesOuts (arc_value self.now.interface)
            (entry_at self.now.end.calls id) form
            buffer.old buffer.new size.old size.new result }
    {
        copy_outs(
            alloc,
            &self.interface,
            self.end.entry(id),
            form,
            buffer,
            size,
        )
    }

    /// Copies the repository id of the exception that the Reply under an id brought. It answers OK;
    /// SMALL, where the buffer has no room for it; or WAITS, where there is no such Reply. It takes
    /// no memory.
    pub fn exception(&self, id: u32, buffer: &mut [u8], size: &mut usize) -> u32
        ensures copies { CopiesOctets (exception_in (body_of (entry_at self.now.end.calls id)))
            buffer.old buffer.new size.old size.new result }
    {
        copy_octets(exception_in(body_of(self.end.entry(id))), buffer, size)
    }

    /// Copies the members of the exception of the interface that the Reply under an id brought, as
    /// in a form. It answers as `outs`.
    pub fn members(
        &self,
        alloc: Global,
        id: u32,
        form: ValueForm,
        buffer: &mut [u8],
        size: &mut usize,
    ) -> u32
        ensures copies { CopiesMembers (arc_value self.now.interface)
            (body_of (entry_at self.now.end.calls id)) form
            buffer.old buffer.new size.old size.new result }
    {
        let body = body_of(self.end.entry(id));
        copy_members(alloc, &self.interface, body, form, buffer, size)
    }

    /// Writes the id of a service context of the Reply under an id, the first at index 0, and copies
    /// its octets. It answers OK; SMALL, where the buffer has no room for them; or WAITS, where there
    /// is no such context. It takes no memory.
    pub fn context(
        &self,
        id: u32,
        index: usize,
        service: &mut u32,
        buffer: &mut [u8],
        size: &mut usize,
    ) -> u32
        ensures copies { CopiesContext (context_at index
            (contexts_of (entry_at self.now.end.calls id)))
            service.old service.new buffer.old buffer.new size.old size.new result }
    {
        let context = context_at(contexts_of(self.end.entry(id)), index);
        copy_context(context, service, buffer, size)
    }

    /// Copies the text of the reference to which the Reply under an id forwards. It answers as
    /// `outs`; FAULT, where no octets spell the reference.
    pub fn forward(&self, alloc: Global, id: u32, buffer: &mut [u8], size: &mut usize) -> u32
        ensures copies { CopiesReference (forward_in (body_of (entry_at self.now.end.calls id)))
            buffer.old buffer.new size.old size.new result }
    {
        let ior = forward_in(body_of(self.end.entry(id)));
        copy_reference(alloc, ior, buffer, size)
    }
}
