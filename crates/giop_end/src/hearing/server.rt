//! What a message of the client does at a server (CORBA 3.3 Part 2, 9.4), a function for each kind.
//! Its meaning is `server_breaks` and `server_act` in specs/Hearing/ServerHears.antt: change both.
ghost use Rattle.std.specs.Prelude.{◌≡◌, ◌≤◌, ◌^◌, length};
ghost use Rattle.giop_msg.specs.RequestId.{request_id_of};
ghost use Rattle.giop_calls.specs.declared.server.event.ServerEvent.TheVariants as event;
ghost use Rattle.giop_calls.specs.ServerTable.{is_free};
ghost use Rattle.giop_table.specs.CallTable.{entry_at, Hears, Nothing};
ghost use Rattle.giop_end.specs.Hearing.Heard.{ActsOn, silently, named};
ghost use Rattle.giop_end.specs.Hearing.ServerHears.{arrives, AtServer, begins, comes};

use crate::hearing::decoding::heard_call;
use crate::hearing::heard::{ending_of, named_id};
use crate::hearing::pieces::{Joins, go_on};
use crate::hearing::with_last::WithLast;
use crate::hearing::{Hearing, events};
use crate::session_fault::SessionFault;
use giop_calls::{CallFault, CallKind, HeardCall, ServerEntry, ServerEvent, ServerRule};
use giop_cdr::SliceOctets;
use giop_frag::Chain;
use giop_msg::{Kind, Msg};
use giop_table::CallTable;
use giop_types::Interface;
use std::alloc::Global;

type Calls = CallTable<ServerRule>;

impl Hearing for ServerRule {
    ghost use Rattle.giop_end.specs.Hearing.Heard.{in_call};
    ghost use Rattle.giop_end.specs.Hearing.ServerHears.{server_act, server_breaks};

    ghost breaks = { server_breaks };

    ghost act_by = { server_act };

    ghost in_call = { in_call };

    // Out of line, so that a fault which isn't there is never moved.
    #[inline(never)]
    fn hear(
        alloc: Global,
        interface: &Interface,
        calls: &mut Calls,
        message: &Msg,
    ) -> Result<(), SessionFault> {
        match message.kind {
            Kind::Request => come(alloc, interface, calls, CallKind::Request, message),
            Kind::LocateRequest => come(alloc, interface, calls, CallKind::Locate, message),
            Kind::CancelRequest => cancel(calls, message),
            Kind::Fragment => go_on(alloc, interface, calls, message),
            Kind::Reply | Kind::LocateReply | Kind::CloseConnection | Kind::MessageError => {
                Err(ending_of(message.kind))
            }
        }
    }
}

impl Joins for ServerRule {
    ghost use Rattle.giop_end.specs.Hearing.ServerHears.{server_pieces};
    ghost use Rattle.giop_end.specs.Hearing.Joining.{server_joins};

    type Known = CallKind;

    type Whole = HeardCall;

    ghost pieces = { server_pieces };

    ghost joins = { λ rule. server_joins };

    fn known(entry: &ServerEntry) -> Option<&CallKind> {
        match entry {
            ServerEntry::Gathering { kind } => Some(kind),
            _ => None,
        }
    }

    fn whole(
        alloc: Global,
        interface: &Interface,
        kind: &CallKind,
        message: &Msg,
        joined: &WithLast<'_, Chain<'_>>,
    ) -> Option<HeardCall> {
        let (version, order) = (message.version, message.order);
        heard_call(alloc, interface, *kind, version, order, joined)
    }

    fn last(call: HeardCall) -> ServerEvent {
        ServerEvent::Last {
            in_order: true,
            call,
        }
    }

    fn stray(_message: &Msg) -> ServerEvent {
        ServerEvent::More { in_order: false }
    }
}

// A Request or a LocateRequest comes.
#[inline(always)]
fn come(
    alloc: Global,
    interface: &Interface,
    calls: &mut Calls,
    kind: CallKind,
    message: &Msg,
) -> Result<(), SessionFault>
    requires { length message.now.payload ≤ 2 ^ 62 }
    ensures { AtServer (named (request_id_of message.now)
        (λ id. comes interface.now kind message.now)) calls.old result calls.new }
{
    let id = named_id(message)?;
    if message.more {
        begin(calls, id, kind, message)
    } else {
        arrive(alloc, interface, calls, id, kind, message)
    }
}

// The first piece of a Request or a LocateRequest comes. It is refused before its octets are
// gathered where the id isn't free.
fn begin(calls: &mut Calls, id: u32, kind: CallKind, message: &Msg) -> Result<(), SessionFault>
    ensures { AtServer (ActsOn id (begins kind message.now)) calls.old result calls.new }
{
    if !is_free(calls, id) {
        let fault = CallFault::IdInUse;
        return Err(SessionFault::Call { id, fault });
    }
    events::begin(calls, id, ServerEvent::First { kind }, message)
}

// A Request or a LocateRequest comes in one piece.
#[inline(always)]
fn arrive(
    alloc: Global,
    interface: &Interface,
    calls: &mut Calls,
    id: u32,
    kind: CallKind,
    message: &Msg,
) -> Result<(), SessionFault>
    requires { length message.now.payload ≤ 2 ^ 62 }
    ensures { AtServer (ActsOn id (arrives interface.now kind message.now)) calls.old result
        calls.new }
{
    let joined = SliceOctets::new(message.payload.as_slice());
    let (version, order) = (message.version, message.order);
    let Some(call) = heard_call(alloc, interface, kind, version, order, &joined) else {
        return Err(SessionFault::NoMemory);
    };
    events::happen(calls, id, ServerEvent::Whole { call })
}

fn cancel(calls: &mut Calls, message: &Msg) -> Result<(), SessionFault>
    requires { length message.now.payload ≤ 2 ^ 62 }
    ensures { AtServer (named (request_id_of message.now)
        (λ id. Hears (silently event.Cancel) Nothing)) calls.old result calls.new }
{
    let id = named_id(message)?;
    events::happen(calls, id, ServerEvent::Cancel)
}

// Whether a call may take the id.
fn is_free(calls: &Calls, id: u32) -> bool
    ensures { result ≡ is_free (entry_at calls.now id) }
{
    match calls.slot(id) {
        Some(slot) => slot.entry.is_closed(),
        None => true,
    }
}
