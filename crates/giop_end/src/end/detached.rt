//! An end apart from its interface. It borrows nothing, so it can lie in a struct beside its
//! interface, as in a handle of C. Its acts are those of the end; the ones that need the interface
//! are given it. What a server's program answers is detached/answering.rt, what a client's asks
//! detached/calling.rt, and both in pieces detached/sending.rt.
ghost use Rattle.std.specs.Prelude.{◌≡◌, ◌≤◌, ◌^◌, ◌+◌, ◌/◌, ◌++◌, [], drop, None, Some, Err, Ok, length, option_copied, IfErr, IfOk, OnErr, OnOk};
ghost use Rattle.std.specs.FinMap as finite;
ghost use Rattle.giop_cdr.specs.declared.order.Order.TheVariants.{Big};
ghost use Rattle.giop_frag.specs.Gathered.{blocks_of};
ghost use Rattle.giop_msg.specs.Msg.{message_octets};
ghost use Rattle.giop_end.specs.declared.session_fault.SessionFault.TheVariants.{Closed, NoMemory, StillOpen};
ghost use Rattle.giop_end.specs.Ends.Begun.{no_calls};
ghost use Rattle.giop_table.specs.CallTable.{DoesTo, entry_at, Gives, IsTaken, IsOpenAt, without};
ghost use Rattle.giop_end.specs.Hearing.Feeding.{Fed, standing, with_octets};
ghost use Rattle.giop_end.specs.Hearing.Heard.{hears_in};
ghost use Rattle.giop_end.specs.Acts.Sent.{close_connection};
ghost use Rattle.giop_end.specs.Ends.SessionFaults.{error_message_of};
ghost use Rattle.giop_end.specs.Ends.Detached.{IsFedOnly};

mod answering;
mod calling;
mod sending;

use crate::acts::outgoing::Outgoing;
use crate::end::End;
use crate::end::parts::{close, error_message, feed, take};
use crate::hearing::Hearing;
use crate::limits::Limits;
use crate::session_fault::SessionFault;
use giop_msg::Framer;
use giop_mux::CallRule;
use giop_table::CallTable;
use giop_types::Interface;
use std::alloc::{AllocError, Global};

/// All of an end but its interface.
///
/// Contracts see the octets that are unread, the calls, the octets that are outgoing, the limits,
/// and the fault of an end that failed or is closed.
#[derive(Drop)]
pub struct Detached<R: Hearing> {
    framer: Framer,
    calls: CallTable<R>,
    outgoing: Outgoing,
    limits: Limits,
    fault: Option<SessionFault>,
    alloc: Global,
}

impl<R: Hearing> Detached<R> {
    /// An end by this rule, without calls. It takes no memory.
    pub fn new(alloc: Global, rule: R, limits: Limits) -> Detached<R>
        requires { limits.gathered ≤ 2 ^ 62 }
        ensures calls { result.calls ≡ no_calls rule limits }
        ensures unread { result.framer ≡ record { limit = limits.message; octets = [] } }
        ensures outgoing { result.outgoing ≡ [] }
        ensures limits { result.limits ≡ limits }
        ensures fault { result.fault ≡ None }
        ensures alloc { result.alloc ≡ alloc }
    {
        Detached {
            framer: Framer::new(alloc, limits.message),
            calls: CallTable::new(alloc, rule, limits.calls, limits.gathered as usize),
            outgoing: Outgoing::new(alloc),
            limits,
            fault: None,
            alloc,
        }
    }

    /// The end over an interface. It takes no memory.
    pub fn attach<'a>(self, interface: &'a Interface) -> End<'a, R>
        ensures interface { result.interface.now ≡ interface.now }
        ensures calls { result.calls ≡ self.calls }
        ensures unread { result.framer ≡ self.framer }
        ensures outgoing { result.outgoing ≡ self.outgoing }
        ensures limits { result.limits ≡ self.limits }
        ensures fault { result.fault ≡ self.fault }
        ensures alloc { result.alloc ≡ self.alloc }
    {
        End {
            interface,
            framer: self.framer,
            calls: self.calls,
            outgoing: self.outgoing,
            limits: self.limits,
            fault: self.fault,
            alloc: self.alloc,
        }
    }

    /// Takes in octets of the peer, as `End::feed` of the end over this interface.
    pub fn feed(&mut self, interface: &Interface, octets: &[u8]) -> Result<(), SessionFault>
        ensures failed { (why : _) → self.old.fault ≡ Some why
            → (result ≡ Err why) × (self.new ≡ self.old) }
        ensures fed { self.old.fault ≡ None → Fed (hears_in R.Hearing interface.now)
            (with_octets self.old.framer octets.now) self.old.calls result self.new.framer
            self.new.calls }
        ensures stands { self.old.fault ≡ None → self.new.fault ≡ standing result }
        ensures others { IsFedOnly self.old self.new }
    {
        feed(
            self.alloc,
            interface,
            &mut self.framer,
            &mut self.calls,
            &mut self.fault,
            octets,
        )
    }

    /// The entry that is stored for the id, if one is. It takes no memory.
    pub fn entry(&self, id: u32) -> Option<&R::Entry>
        ensures { option_copied result ≡ entry_at self.now.calls id }
    {
        self.calls.slot(id).map(|slot| &slot.entry)
    }

    /// The ids for which something is stored, ascending. `alloc` gives the memory of the list.
    pub fn ids(&self, alloc: Global) -> Result<Vec<u32>, AllocError>
        ensures { IfOk result (λ ids. ids.items ≡ finite.keys self.now.calls.table) }
    {
        self.calls.ids(alloc)
    }

    /// The octets that the end has put out and its program has still to write. It takes no memory.
    pub fn outgoing(&self) -> &[u8]
        ensures { result.now ≡ self.now.outgoing }
    {
        self.outgoing.as_slice()
    }

    /// The first `n` of the outgoing octets are written: they are outgoing no longer. It takes no
    /// memory.
    pub fn wrote(&mut self, n: usize)
        requires { n ≤ length self.old.outgoing }
        ensures { self.new ≡ record self.old { outgoing = drop n self.old.outgoing } }
    {
        self.outgoing.wrote(n);
    }

    /// Closes the connection, as `End::close`.
    pub fn close(&mut self) -> Result<(), SessionFault>
        ensures failed { (why : _) → self.old.fault ≡ Some why → result ≡ Err why }
        ensures ok { OnOk result ((self.old.fault ≡ None) × (self.new ≡ record self.old {
          outgoing = self.old.outgoing ++ message_octets (close_connection Big);
          fault = Some Closed;
        })) }
        ensures want { self.old.fault ≡ None → IfErr result (λ why. why ≡ NoMemory) }
        ensures kept { OnErr result (self.new ≡ self.old) }
    {
        close(self.alloc, &mut self.outgoing, &mut self.fault)
    }

    /// How many octets are unread, as `End::rest`. It takes no memory.
    pub fn rest(&self) -> usize
        ensures { result ≡ length self.now.framer.octets }
    {
        self.framer.rest()
    }

    /// How many blocks of 512 octets the end has taken for pieces, as `End::blocks`. It takes no
    /// memory.
    pub fn blocks(&self) -> usize
        ensures least { blocks_of self.now.calls.gathered ≤ result }
        ensures within { result ≤ self.now.calls.room / 512 + self.now.calls.calls }
    {
        self.calls.blocks()
    }

    /// The MessageError that the fault of the end asks for, as `End::error_message`. It takes no
    /// memory.
    pub fn error_message(&self) -> Option<[u8; 12]>
        ensures { result ≡ error_message_of self.now.fault }
    {
        error_message(self.fault)
    }

    /// Takes out what is stored for the id, as `End::take`. It takes no memory.
    pub fn take(&mut self, id: u32) -> Result<Option<R::Entry>, SessionFault>
        ensures failed { (why : _) → self.old.fault ≡ Some why → result ≡ Err why }
        ensures value { IfOk result (λ taken. (taken ≡ entry_at self.old.calls id)
            × (self.new ≡ record self.old { calls = without self.old.calls id })) }
        ensures does { IfOk result (λ taken. DoesTo R.Side self.old.calls id IsTaken
            (Ok (Gives (finite.get self.old.calls.table id))) self.new.calls) }
        ensures open { self.old.fault ≡ None → IfErr result (λ why. (why ≡ StillOpen)
            × IsOpenAt R.Side self.old.calls id) }
        ensures kept { IfErr result (λ why. self.new ≡ self.old) }
    {
        take(&mut self.calls, self.fault, id)
    }
}

impl<'a, R: Hearing> End<'a, R> {
    /// The end without its interface. It takes no memory.
    pub fn detach(self) -> Detached<R>
        ensures { result ≡ record {
          framer = self.entry.framer;
          calls = self.entry.calls;
          outgoing = self.entry.outgoing;
          limits = self.entry.limits;
          fault = self.entry.fault;
          alloc = self.entry.alloc;
        } }
    {
        Detached {
            framer: self.framer,
            calls: self.calls,
            outgoing: self.outgoing,
            limits: self.limits,
            fault: self.fault,
            alloc: self.alloc,
        }
    }
}
