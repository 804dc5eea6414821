//! What a message of the server does at a client (CORBA 3.3 Part 2, 9.4), a function for each kind.
//! Its meaning is `client_breaks` and `client_act` in specs/Hearing/ClientHears.antt: change both.
ghost use Rattle.std.specs.Prelude.{◌≡◌, ◌≤◌, ◌^◌, length, option_copied, is_some, true, IfSome};
ghost use Rattle.std.specs.FinMap as finite;
ghost use Rattle.giop_msg.specs.RequestId.{request_id_of};
ghost use Rattle.giop_end.specs.Hearing.ClientHears.{arrives, AtClient, awaited, awaited_in, begins, comes, reply_in, OfAwaited};
ghost use Rattle.giop_end.specs.Hearing.Heard.{ActsOn, named};

use crate::hearing::heard::{ending_of, named_id};
use crate::hearing::pieces::{Joins, go_on};
use crate::hearing::reply_decoding::heard_reply;
use crate::hearing::with_last::WithLast;
use crate::hearing::{Hearing, events};
use crate::session_fault::SessionFault;
use giop_calls::{Call, CallKind, ClientEntry, ClientEvent, ClientRule, HeardReply};
use giop_cdr::SliceOctets;
use giop_frag::Chain;
use giop_msg::{Kind, Msg, Version};
use giop_table::CallTable;
use giop_types::Interface;
use std::alloc::Global;

type Calls = CallTable<ClientRule>;

impl Hearing for ClientRule {
    ghost use Rattle.giop_end.specs.Hearing.Heard.{in_call};
    ghost use Rattle.giop_end.specs.Hearing.ClientHears.{client_act, client_breaks};

    ghost breaks = { client_breaks };

    ghost act_by = { client_act };

    ghost in_call = { in_call };

    // Out of line, so that a fault which isn't there is never moved.
    #[inline(never)]
    fn hear(
        alloc: Global,
        interface: &Interface,
        calls: &mut Calls,
        message: &Msg,
    ) -> Result<(), SessionFault> {
        match message.kind {
            Kind::Reply => come(alloc, interface, calls, CallKind::Request, message),
            Kind::LocateReply => come(alloc, interface, calls, CallKind::Locate, message),
            Kind::Fragment => go_on(alloc, interface, calls, message),
            Kind::Request
            | Kind::LocateRequest
            | Kind::CancelRequest
            | Kind::CloseConnection
            | Kind::MessageError => Err(ending_of(message.kind)),
        }
    }
}

impl Joins for ClientRule {
    ghost use Rattle.giop_end.specs.Hearing.ClientHears.{client_pieces};
    ghost use Rattle.giop_end.specs.Hearing.Joining.{client_joins};

    type Known = Call;

    type Whole = HeardReply;

    ghost pieces = { client_pieces };

    ghost joins = { λ rule. client_joins };

    fn known(entry: &ClientEntry) -> Option<&Call> {
        match entry {
            ClientEntry::Gathering { call } => Some(call),
            _ => None,
        }
    }

    fn whole(
        alloc: Global,
        interface: &Interface,
        call: &Call,
        message: &Msg,
        joined: &WithLast<'_, Chain<'_>>,
    ) -> Option<HeardReply> {
        let (version, order) = (message.version, message.order);
        heard_reply(alloc, interface, call, version, order, joined)
    }

    fn last(reply: HeardReply) -> ClientEvent {
        ClientEvent::Last {
            in_order: true,
            reply,
        }
    }

    fn stray(message: &Msg) -> ClientEvent {
        match message.more {
            true => ClientEvent::More { in_order: false },
            false => ClientEvent::Last {
                in_order: false,
                reply: HeardReply::Unread,
            },
        }
    }
}

// A Reply or a LocateReply comes.
fn come(
    alloc: Global,
    interface: &Interface,
    calls: &mut Calls,
    kind: CallKind,
    message: &Msg,
) -> Result<(), SessionFault>
    requires { length message.now.payload ≤ 2 ^ 62 }
    ensures { AtClient (named (request_id_of message.now) (λ id. comes interface.now kind
        message.now (awaited kind message.now.version (finite.get calls.old.table id)))) calls.old
        result calls.new }
{
    let id = named_id(message)?;
    let version = message.version;
    match (is_awaited(calls, id, kind, version), message.more) {
        (true, true) => begin(calls, id, kind, message),
        (true, false) => arrive(alloc, interface, calls, id, kind, message),
        (false, true) => events::happen(calls, id, ClientEvent::First { kind, version }),
        (false, false) => {
            let reply = HeardReply::Unread;
            let whole = ClientEvent::Whole {
                kind,
                version,
                reply,
            };
            events::happen(calls, id, whole)
        }
    }
}

// The call that waits for a message of this kind and version, if one does.
fn awaited_in(kind: CallKind, version: Version, entry: &ClientEntry) -> Option<&Call>
    ensures { option_copied result ≡ awaited_in kind version entry.now }
{
    match entry {
        ClientEntry::Waiting { call } if call.is_answered_by(kind, version) => Some(call),
        _ => None,
    }
}

fn is_awaited(calls: &Calls, id: u32, kind: CallKind, version: Version) -> bool
    ensures { result ≡ is_some (awaited kind version (finite.get calls.now.table id)) }
{
    match calls.slot(id) {
        Some(slot) => awaited_in(kind, version, &slot.entry).is_some(),
        None => false,
    }
}

// The first piece of the reply to a call that waits for it comes.
fn begin(calls: &mut Calls, id: u32, kind: CallKind, message: &Msg) -> Result<(), SessionFault>
    requires { is_some (awaited kind message.now.version (finite.get calls.old.table id)) ≡ true }
    ensures { AtClient (ActsOn id (begins kind message.now)) calls.old result calls.new }
{
    let first = ClientEvent::First {
        kind,
        version: message.version,
    };
    events::begin(calls, id, first, message)
}

// The reply to a call that waits for it comes in one piece.
fn arrive(
    alloc: Global,
    interface: &Interface,
    calls: &mut Calls,
    id: u32,
    kind: CallKind,
    message: &Msg,
) -> Result<(), SessionFault>
    requires { length message.now.payload ≤ 2 ^ 62 }
    ensures { OfAwaited kind message.now.version calls.old id (λ call. AtClient
        (ActsOn id (arrives interface.now kind message.now call)) calls.old result calls.new) }
{
    let Some(reply) = reply_to(alloc, interface, calls, id, kind, message) else {
        return Err(SessionFault::NoMemory);
    };
    let version = message.version;
    let whole = ClientEvent::Whole {
        kind,
        version,
        reply,
    };
    events::happen(calls, id, whole)
}

// The message decoded, as the reply to the call that waits for it. `None` where it is out of
// memory.
fn reply_to(
    alloc: Global,
    interface: &Interface,
    calls: &Calls,
    id: u32,
    kind: CallKind,
    message: &Msg,
) -> Option<HeardReply>
    requires { length message.now.payload ≤ 2 ^ 62 }
    ensures { IfSome result (λ reply. OfAwaited kind message.now.version calls.now id
        (λ call. reply ≡ reply_in interface.now call message.now message.now.payload)) }
{
    let call = awaited_in(kind, message.version, &calls.slot(id)?.entry)?;
    let joined = SliceOctets::new(message.payload.as_slice());
    heard_reply(
        alloc,
        interface,
        call,
        message.version,
        message.order,
        &joined,
    )
}
