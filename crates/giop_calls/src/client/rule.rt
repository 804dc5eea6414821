//! The rule of a client's calls (CORBA 3.3 Part 2, 9.4 and 9.6): it finds the function of
//! client/steps.rt for an event. The table is specs/ClientTable.antt, and docs/PROFILE.md prints
//! it.
ghost use Rattle.std.specs.Prelude.{◌≡◌, Some};
ghost use Rattle.giop_calls.specs.ClientTable.{client_step};

use crate::client::entry::ClientEntry;
use crate::client::event::ClientEvent;
use crate::client::steps;
use crate::fault::CallFault;
use giop_mux::{CallRule, Side, Step};
use std::mem;

/// The rule by which a client's calls run.
#[derive(Clone, Copy, Debug, PartialEq, Eq)]
pub struct ClientRule;

impl CallRule for ClientRule {
    ghost use Rattle.giop_calls.specs.ClientTable.{client_step, is_closed};
    ghost use Rattle.giop_calls.specs.ClientKeeps.{fault_keeps};

    type Entry = ClientEntry;

    type Event = ClientEvent;

    type Answer = ();

    type Fault = CallFault;

    ghost next = { λ rule. client_step };

    ghost closed = { λ rule. is_closed };

    ghost fault_keeps = { λ rule. fault_keeps };

    #[inline(always)]
    fn step(
        &self,
        entry: Option<ClientEntry>,
        event: ClientEvent,
    ) -> Step<ClientEntry, (), CallFault>
        ensures { result ≡ client_step entry event }
    {
        match event {
            ClientEvent::Call { call, pieces } => steps::begin(entry, call, pieces),
            ClientEvent::Send => steps::send(entry),
            ClientEvent::Cancel => steps::cancel(entry),
            ClientEvent::First { kind, version } => steps::first(entry, kind, version),
            ClientEvent::Whole {
                kind,
                version,
                reply,
            } => steps::whole(entry, kind, version, reply),
            ClientEvent::More { in_order } => steps::more(entry, in_order),
            ClientEvent::Last { in_order, reply } => steps::last(entry, in_order, reply),
        }
    }

    fn is_closed(&self, entry: &ClientEntry) -> bool {
        entry.is_closed()
    }
}

impl Side for ClientRule {
    ghost use Rattle.giop_calls.specs.ClientTable.{is_gathering};
    ghost use Rattle.giop_calls.specs.ClientKeeps.{gathering_is_open};

    ghost gathering = { is_gathering };

    ghost gathering_is_open = { λ rule. gathering_is_open };

    fn is_gathering(entry: &ClientEntry) -> bool {
        entry.is_gathering()
    }

    #[inline(always)]
    fn step_at(&self, entry: &mut ClientEntry, event: ClientEvent) -> Result<(), CallFault> {
        match event {
            ClientEvent::Call { call, pieces } => steps::begin_at(entry, call, pieces),
            event => step_moved(entry, event),
        }
    }
}

// What an event does to a call with this entry, which is moved out of its place and back.
fn step_moved(entry: &mut ClientEntry, event: ClientEvent) -> Result<(), CallFault>
    ensures { client_step (Some entry.old) event
        ≡ record { entry = Some entry.new; outcome = result } }
{
    let before = mem::replace(entry, steps::DROPPED);
    let step = ClientRule.step(Some(before), event);
    *entry = step.entry.unwrap_or(steps::DROPPED);
    step.outcome
}
