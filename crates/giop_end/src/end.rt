//! One end of a connection (CORBA 3.3 Part 2, 9.4): it is made, fed with octets of the peer, looked
//! at and closed. What its own program answers is end/answering.rt, what it calls is
//! end/calling.rt, both in pieces end/sending.rt, and end/writing.rt writes what is outgoing. What feeding does is `Fed` in
//! specs/Hearing/Feeding.antt.
ghost use Rattle.std.specs.Prelude.{◌≡◌, ◌≤◌, ◌^◌, ◌+◌, ◌/◌, ◌++◌, [], drop, None, Some, Err, Ok, length, option_copied, IfErr, IfOk, OnErr, OnOk};
ghost use Rattle.std.specs.FinMap as finite;
ghost use Rattle.giop_cdr.specs.declared.order.Order.TheVariants.{Big};
ghost use Rattle.giop_frag.specs.Gathered.{blocks_of};
ghost use Rattle.giop_msg.specs.Msg.{message_octets};
ghost use Rattle.giop_end.specs.declared.session_fault.SessionFault.TheVariants.{Closed, NoMemory, StillOpen};
ghost use Rattle.giop_end.specs.Ends.Begun.{no_calls};
ghost use Rattle.giop_table.specs.CallTable.{DoesTo, entry_at, Gives, IsTaken, IsOpenAt, without};
ghost use Rattle.giop_end.specs.Hearing.Feeding.{Fed, standing, with_octets};
ghost use Rattle.giop_end.specs.Hearing.Heard.{hears_in};
ghost use Rattle.giop_end.specs.Acts.Sent.{close_connection};
ghost use Rattle.giop_end.specs.Ends.SessionFaults.{error_message_of};
ghost use Rattle.giop_end.specs.Ends.View.{IsFedOnly};

mod answering;
mod calling;
mod detached;
mod parts;
mod sending;
mod writing;

use crate::acts::outgoing::Outgoing;
use crate::hearing::Hearing;
use crate::limits::Limits;
use crate::session_fault::SessionFault;
pub use detached::Detached;
use giop_calls::{ClientRule, ServerRule};
use giop_frag::Gather;
use giop_msg::Framer;
use giop_mux::CallRule;
use giop_table::{CallTable, Slot};
use giop_types::Interface;
use parts::{close, error_message, feed, take};
use std::alloc::{AllocError, Global};
pub use writing::write_out;

/// One end of a connection: octets of the peer go in, and it keeps the table of the calls.
///
/// Contracts see the interface, the octets that are unread, the calls, the octets that are
/// outgoing, the limits, and the fault of an end that failed or is closed.
#[derive(Drop)]
pub struct End<'a, R: Hearing> {
    interface: &'a Interface,
    framer: Framer,
    calls: CallTable<R>,
    outgoing: Outgoing,
    limits: Limits,
    fault: Option<SessionFault>,
    alloc: Global,
}

/// The end of a connection that answers calls of an interface.
pub type ServerEnd<'a> = End<'a, ServerRule>;

/// The end of a connection that calls.
pub type ClientEnd<'a> = End<'a, ClientRule>;

impl<'a> End<'a, ServerRule> {
    /// A server's end without calls. It takes no memory.
    pub fn new(alloc: Global, interface: &'a Interface, limits: Limits) -> ServerEnd<'a>
        requires { limits.gathered ≤ 2 ^ 62 }
        ensures interface { result.interface.now ≡ interface.now }
        ensures calls { result.calls ≡ no_calls (record {}) limits }
        ensures unread { result.framer ≡ record { limit = limits.message; octets = [] } }
        ensures outgoing { result.outgoing ≡ [] }
        ensures limits { result.limits ≡ limits }
        ensures fault { result.fault ≡ None }
    {
        End::by_rule(alloc, ServerRule, interface, limits)
    }
}

impl<'a> End<'a, ClientRule> {
    /// A client's end without calls. It takes no memory.
    pub fn new(alloc: Global, interface: &'a Interface, limits: Limits) -> ClientEnd<'a>
        requires { limits.gathered ≤ 2 ^ 62 }
        ensures interface { result.interface.now ≡ interface.now }
        ensures calls { result.calls ≡ no_calls (record {}) limits }
        ensures unread { result.framer ≡ record { limit = limits.message; octets = [] } }
        ensures outgoing { result.outgoing ≡ [] }
        ensures limits { result.limits ≡ limits }
        ensures fault { result.fault ≡ None }
    {
        End::by_rule(alloc, ClientRule, interface, limits)
    }
}

impl<'a, R: Hearing> End<'a, R> {
    // An end by this rule, which has heard nothing.
    fn by_rule(alloc: Global, rule: R, interface: &'a Interface, limits: Limits) -> End<'a, R>
        requires { limits.gathered ≤ 2 ^ 62 }
        ensures interface { result.interface.now ≡ interface.now }
        ensures calls { result.calls ≡ no_calls rule limits }
        ensures unread { result.framer ≡ record { limit = limits.message; octets = [] } }
        ensures outgoing { result.outgoing ≡ [] }
        ensures limits { result.limits ≡ limits }
        ensures fault { result.fault ≡ None }
    {
        End {
            interface,
            framer: Framer::new(alloc, limits.message),
            calls: CallTable::new(alloc, rule, limits.calls, limits.gathered as usize),
            outgoing: Outgoing::new(alloc),
            limits,
            fault: None,
            alloc,
        }
    }

    /// Takes in octets of the peer, any number of them. Each message that is whole is heard, in
    /// their order, and acts on the call that it names.
    ///
    /// A fault makes the end failed: its calls are those after the last message before the fault,
    /// nothing is read any more, and the end returns this fault from then on. For one message it is
    /// the first of these that holds: `Wire`; `WrongDirection`; `Closed` and `PeerError`; `NoId`;
    /// `Call`; `TooManyCalls`; `GatherFull`. `NoMemory` may stand in place of any.
    pub fn feed(&mut self, octets: &[u8]) -> Result<(), SessionFault>
        ensures failed { (why : _) → self.old.fault ≡ Some why
            → (result ≡ Err why) × (self.new ≡ self.old) }
        ensures fed { self.old.fault ≡ None → Fed (hears_in R.Hearing self.old.interface.now)
            (with_octets self.old.framer octets.now) self.old.calls result self.new.framer
            self.new.calls }
        ensures stands { self.old.fault ≡ None → self.new.fault ≡ standing result }
        ensures others { IsFedOnly self.old self.new }
    {
        feed(
            self.alloc,
            self.interface,
            &mut self.framer,
            &mut self.calls,
            &mut self.fault,
            octets,
        )
    }

    /// The entry that is stored for the id, if one is. It takes no memory.
    pub fn entry(&self, id: u32) -> Option<&R::Entry>
        ensures { option_copied result ≡ entry_at self.now.calls id }
    {
        self.calls.slot(id).map(|slot| &slot.entry)
    }

    /// The ids for which something is stored, ascending. `alloc` gives the memory of the list.
    pub fn ids(&self, alloc: Global) -> Result<Vec<u32>, AllocError>
        ensures { IfOk result (λ ids. ids.items ≡ finite.keys self.now.calls.table) }
    {
        self.calls.ids(alloc)
    }

    /// The octets that this end has put out and its program has still to write, in one slice. It
    /// takes no memory.
    pub fn outgoing(&self) -> &[u8]
        ensures { result.now ≡ self.now.outgoing }
    {
        self.outgoing.as_slice()
    }

    /// The first `n` of the outgoing octets are written: they are outgoing no longer. It takes no
    /// memory.
    pub fn wrote(&mut self, n: usize)
        requires { n ≤ length self.old.outgoing }
        ensures { self.new ≡ record self.old { outgoing = drop n self.old.outgoing } }
    {
        self.outgoing.wrote(n);
    }

    /// Closes the connection: a CloseConnection is put out (9.4.7), big-endian and in 1.2, and the
    /// end returns `Closed` from then on.
    ///
    /// A failed end returns its fault. Else `NoMemory` is returned where it is out of memory. A
    /// refusal changes nothing.
    pub fn close(&mut self) -> Result<(), SessionFault>
        ensures failed { (why : _) → self.old.fault ≡ Some why → result ≡ Err why }
        ensures ok { OnOk result ((self.old.fault ≡ None) × (self.new ≡ record self.old {
          outgoing = self.old.outgoing ++ message_octets (close_connection Big);
          fault = Some Closed;
        })) }
        ensures want { self.old.fault ≡ None → IfErr result (λ why. why ≡ NoMemory) }
        ensures kept { OnErr result (self.new ≡ self.old) }
    {
        close(self.alloc, &mut self.outgoing, &mut self.fault)
    }

    /// How many octets are unread: those of a message that isn't whole, and at a failed end those
    /// behind the message that failed it. It takes no memory.
    pub fn rest(&self) -> usize
        ensures { result ≡ length self.now.framer.octets }
    {
        self.framer.rest()
    }

    /// The gatherer of the pieces of which more are to come: it holds those of each id, and counts
    /// its blocks. It takes no memory.
    pub fn gatherer(&self) -> &Gather
        ensures pieces { result.now.lists ≡ self.now.calls.gathered }
        ensures limit { result.now.limit ≡ self.now.calls.room }
    {
        self.calls.gatherer()
    }

    /// How many blocks of 512 octets the end has taken for pieces, as `Gather::blocks` counts them
    /// of its `gatherer`. None is freed until the end is dropped. They are at least those that the
    /// gathered pieces need, each call's octets over 512, rounded up; and at most the limit of
    /// gathered octets over 512, and one more for each entry that there may be. It takes no memory.
    pub fn blocks(&self) -> usize
        ensures least { blocks_of self.now.calls.gathered ≤ result }
        ensures within { result ≤ self.now.calls.room / 512 + self.now.calls.calls }
    {
        self.calls.blocks()
    }

    /// The fault that made the end failed, if one did. It takes no memory.
    pub fn fault(&self) -> Option<SessionFault>
        ensures { result ≡ self.now.fault }
    {
        self.fault
    }

    /// The MessageError (9.4.8) to be sent to a peer whose octets are no message, have no request
    /// id, are a message of the wrong direction, or are refused by the rule of the call that they
    /// name. `None` after any other fault, and without one. It takes no memory.
    pub fn error_message(&self) -> Option<[u8; 12]>
        ensures { result ≡ error_message_of self.now.fault }
    {
        error_message(self.fault)
    }

    /// Takes out what is stored for the id, where its call is over, and returns the entry; `None`
    /// where nothing is stored. It takes no memory.
    ///
    /// A failed end returns its fault. A call that isn't over is refused as `StillOpen`. A refusal
    /// changes nothing.
    pub fn take(&mut self, id: u32) -> Result<Option<R::Entry>, SessionFault>
        ensures failed { (why : _) → self.old.fault ≡ Some why → result ≡ Err why }
        ensures value { IfOk result (λ taken. (taken ≡ entry_at self.old.calls id)
            × (self.new ≡ record self.old { calls = without self.old.calls id })) }
        ensures does { IfOk result (λ taken. DoesTo R.Side self.old.calls id IsTaken
            (Ok (Gives (finite.get self.old.calls.table id))) self.new.calls) }
        ensures open { self.old.fault ≡ None → IfErr result (λ why. (why ≡ StillOpen)
            × IsOpenAt R.Side self.old.calls id) }
        ensures kept { IfErr result (λ why. self.new ≡ self.old) }
    {
        take(&mut self.calls, self.fault, id)
    }
}
