//! The rule of a server's calls (CORBA 3.3 Part 2, 9.4 and 9.6): it finds the function of
//! server/steps.rt for an event. The table is specs/ServerTable.antt, and docs/PROFILE.md prints
//! it.
ghost use Rattle.std.specs.Prelude.{◌≡◌, Some};
ghost use Rattle.giop_calls.specs.ServerTable.{server_step};

use crate::fault::CallFault;
use crate::server::entry::ServerEntry;
use crate::server::event::ServerEvent;
use crate::server::steps;
use giop_mux::{CallRule, Side, Step};
use std::mem;

/// The rule by which a server's calls run.
#[derive(Clone, Copy, Debug, PartialEq, Eq)]
pub struct ServerRule;

impl CallRule for ServerRule {
    ghost use Rattle.giop_calls.specs.ServerTable.{server_step, is_closed};
    ghost use Rattle.giop_calls.specs.ServerKeeps.{fault_keeps};

    type Entry = ServerEntry;

    type Event = ServerEvent;

    type Answer = ();

    type Fault = CallFault;

    ghost next = { λ rule. server_step };

    ghost closed = { λ rule. is_closed };

    ghost fault_keeps = { λ rule. fault_keeps };

    #[inline(always)]
    fn step(
        &self,
        entry: Option<ServerEntry>,
        event: ServerEvent,
    ) -> Step<ServerEntry, (), CallFault>
        ensures { result ≡ server_step entry event }
    {
        match event {
            ServerEvent::First { kind } => steps::begin(entry, ServerEntry::Gathering { kind }),
            ServerEvent::Whole { call } => steps::begin(entry, steps::arrived(call)),
            ServerEvent::More { in_order } => steps::more(entry, in_order),
            ServerEvent::Last { in_order, call } => steps::last(entry, in_order, call),
            ServerEvent::Cancel => steps::cancel(entry),
            ServerEvent::Answer { reply, pieces } => steps::answer(entry, reply, pieces),
            ServerEvent::AnswerLocate { here } => steps::answer_locate(entry, here),
            ServerEvent::Send => steps::send(entry),
        }
    }

    fn is_closed(&self, entry: &ServerEntry) -> bool {
        entry.is_closed()
    }
}

impl Side for ServerRule {
    ghost use Rattle.giop_calls.specs.ServerTable.{is_gathering};
    ghost use Rattle.giop_calls.specs.ServerKeeps.{gathering_is_open};

    ghost gathering = { is_gathering };

    ghost gathering_is_open = { λ rule. gathering_is_open };

    fn is_gathering(entry: &ServerEntry) -> bool {
        entry.is_gathering()
    }

    #[inline(always)]
    fn step_at(&self, entry: &mut ServerEntry, event: ServerEvent) -> Result<(), CallFault> {
        match event {
            ServerEvent::Whole { call } => steps::begin_at(entry, steps::arrived(call)),
            ServerEvent::Answer { reply, pieces } => steps::answer_at(entry, reply, pieces),
            event => step_moved(entry, event),
        }
    }
}

// What an event does to a call with this entry, which is moved out of its place and back.
fn step_moved(entry: &mut ServerEntry, event: ServerEvent) -> Result<(), CallFault>
    ensures { server_step (Some entry.old) event
        ≡ record { entry = Some entry.new; outcome = result } }
{
    let before = mem::replace(entry, steps::DROPPED);
    let step = ServerRule.step(Some(before), event);
    *entry = step.entry.unwrap_or(steps::DROPPED);
    step.outcome
}
