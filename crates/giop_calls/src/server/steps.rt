//! What each event does to a call at a server (CORBA 3.3 Part 2, 9.4 and 9.6), a function for each.
//! None takes memory. The table is specs/ServerTable.antt, a definition for each: change both.
ghost use Rattle.std.specs.Prelude.{◌≡◌, ◌==◌, Some};
ghost use Rattle.std.specs.Option.{option_or};
ghost use Rattle.giop_calls.specs.ServerTable as table;
ghost use Rattle.giop_calls.specs.declared.server.entry.ServerEntry.TheVariants.{Asked, Gathering};
ghost use Rattle.giop_calls.specs.Messages.{is_same_version, is_system_exception};

use crate::aside::Aside;
use crate::fault::CallFault;
use crate::kind::CallKind;
use crate::server::entry::ServerEntry;
use crate::server::heard::HeardCall;
use crate::server::question::Question;
use crate::server::undecoded::UndecodedCall;
use giop_msg::{Reply, ReplyBody, Request, Version};
use giop_mux::Step;
use std::mem;

pub type ServerStep = Step<ServerEntry, (), CallFault>;

/// The entry of a call that was cancelled before it was answered.
pub const DROPPED: ServerEntry = ServerEntry::Cancelled {
    answered: false,
    left: 0,
};

#[inline(always)]
fn becomes(entry: ServerEntry) -> ServerStep
    ensures { result ≡ table.becomes entry }
{
    Step {
        entry: Some(entry),
        outcome: Ok(()),
    }
}

#[inline(always)]
fn refused(entry: Option<ServerEntry>, fault: CallFault) -> ServerStep
    ensures { result ≡ table.refused entry fault }
{
    Step {
        entry,
        outcome: Err(fault),
    }
}

// Whether a call may take the id of this entry: there is none, or its call is over.
#[inline(always)]
fn is_free(entry: &Option<ServerEntry>) -> bool
    ensures { result ≡ table.is_free entry.now }
{
    match entry {
        None => true,
        Some(entry) => entry.is_closed(),
    }
}

/// The entry of a message that came whole.
#[inline(always)]
pub fn arrived(call: HeardCall) -> ServerEntry
    ensures { result ≡ table.arrived call }
{
    match call {
        HeardCall::Request(request) if request.head.flags == 0 => {
            ServerEntry::Delivered { request }
        }
        HeardCall::Request(request) => ServerEntry::Asked { request },
        HeardCall::Locate(request) => ServerEntry::LocateAsked { request },
        HeardCall::Undecoded(call) => ServerEntry::Undecoded { call },
    }
}

/// A Request or a LocateRequest comes, and leaves this entry. Refused as IdInUse where the id isn't
/// free.
pub fn begin(entry: Option<ServerEntry>, next: ServerEntry) -> ServerStep
    ensures { result ≡ table.begins entry next }
{
    if is_free(&entry) {
        becomes(next)
    } else {
        refused(entry, CallFault::IdInUse)
    }
}

/// A Request or a LocateRequest comes with an id that has this entry, which becomes the next one
/// where it lies. Refused as IdInUse where the entry's call isn't over.
#[inline(always)]
pub fn begin_at(entry: &mut ServerEntry, next: ServerEntry) -> Result<(), CallFault>
    ensures { table.begins (Some entry.old) next
        ≡ record { entry = Some entry.new; outcome = result } }
{
    if !entry.is_closed() {
        return Err(CallFault::IdInUse);
    }
    *entry = next;
    Ok(())
}

/// A Fragment comes, and more are to come. Refused as OrderDiffers, or as Stray where nothing is
/// gathered; ignored behind a cancel.
pub fn more(entry: Option<ServerEntry>, in_order: bool) -> ServerStep
    ensures { result ≡ table.more entry in_order }
{
    let outcome = fragment(&entry, in_order);
    Step { entry, outcome }
}

// Whether a Fragment may come with this entry, or how it is refused.
#[inline(always)]
fn fragment(entry: &Option<ServerEntry>, in_order: bool) -> Result<(), CallFault>
    ensures { result ≡ (table.more entry.now in_order).outcome }
{
    match entry {
        Some(ServerEntry::Gathering { .. }) if !in_order => Err(CallFault::OrderDiffers),
        Some(ServerEntry::Gathering { .. } | ServerEntry::Cancelled { .. }) => Ok(()),
        _ => Err(CallFault::Stray),
    }
}

/// The last Fragment comes. The refusals are those of `more`.
pub fn last(entry: Option<ServerEntry>, in_order: bool, call: HeardCall) -> ServerStep
    ensures { result ≡ table.last entry in_order call }
{
    let outcome = fragment(&entry, in_order);
    if outcome.is_ok() && matches!(&entry, Some(ServerEntry::Gathering { .. })) {
        becomes(arrived(call))
    } else {
        Step { entry, outcome }
    }
}

/// A CancelRequest comes: it ends a call that expects a reply, and else changes nothing. It is
/// never refused.
pub fn cancel(entry: Option<ServerEntry>) -> ServerStep
    ensures { result ≡ table.cancel entry }
{
    Step {
        entry: cancelled(entry),
        outcome: Ok(()),
    }
}

// The entry that a CancelRequest leaves.
#[inline(always)]
fn cancelled(entry: Option<ServerEntry>) -> Option<ServerEntry>
    ensures { result ≡ (table.cancel entry).entry }
{
    match &entry {
        Some(call) => cancelled_call(call).or(entry),
        None => None,
    }
}

// The entry that a CancelRequest leaves in place of this one; `None` where it changes nothing.
#[inline(always)]
fn cancelled_call(entry: &ServerEntry) -> Option<ServerEntry>
    ensures { option_or result (Some entry.now) ≡ (table.cancel (Some entry.now)).entry }
{
    match entry {
        ServerEntry::Gathering { .. }
        | ServerEntry::LocateAsked { .. }
        | ServerEntry::Asked { .. } => Some(DROPPED),
        ServerEntry::Undecoded { call } if call.expects.is_some() => Some(DROPPED),
        ServerEntry::Answered { left, .. } => Some(ServerEntry::Cancelled {
            answered: true,
            left: *left,
        }),
        ServerEntry::LocateAnswered { .. } => Some(ServerEntry::Cancelled {
            answered: true,
            left: 0,
        }),
        _ => None,
    }
}

/// The server answers a Request in so many pieces, of which the first goes out.
///
/// Refused as WrongKind for a LocateRequest, and as NotOpen where no reply is expected. Refused as
/// Unfit in another version than the request's, or where the request couldn't be decoded and the
/// reply is no system exception.
#[inline(always)]
pub fn answer(entry: Option<ServerEntry>, reply: Aside<Reply>, pieces: u32) -> ServerStep
    ensures { result ≡ table.answer entry reply pieces }
{
    match entry {
        Some(ServerEntry::Asked { request }) => answer_request(request, reply, pieces),
        Some(ServerEntry::Undecoded { call }) => answer_undecoded(call, reply, pieces),
        Some(ServerEntry::LocateAsked { .. }) => refused(entry, CallFault::WrongKind),
        entry => refused(entry, CallFault::NotOpen),
    }
}

#[inline(always)]
fn is_same_version(one: Version, other: Version) -> bool
    ensures { result ≡ is_same_version one other }
{
    one.minor() == other.minor()
}

#[inline(always)]
fn answer_request(request: Aside<Request>, reply: Aside<Reply>, pieces: u32) -> ServerStep
    ensures { result ≡ table.answer (Some (Asked request)) reply pieces }
{
    if !is_same_version(request.head.version, reply.version) {
        return refused(Some(ServerEntry::Asked { request }), CallFault::Unfit);
    }
    becomes(ServerEntry::Answered {
        asked: Question::Request(request),
        reply,
        left: pieces.saturating_sub(1),
    })
}

/// The server answers a call with this entry, which changes where it lies. The refusals are those
/// of `answer`.
#[inline(always)]
pub fn answer_at(entry: &mut ServerEntry, reply: Aside<Reply>, pieces: u32) -> Result<(), CallFault>
    ensures { table.answer (Some entry.old) reply pieces
        ≡ record { entry = Some entry.new; outcome = result } }
{
    let step = answer(Some(mem::replace(entry, DROPPED)), reply, pieces);
    *entry = step.entry.unwrap_or(DROPPED);
    step.outcome
}

#[inline(always)]
fn is_system_exception(body: &ReplyBody) -> bool
    ensures { result ≡ is_system_exception body.now }
{
    matches!(body, ReplyBody::SystemException { .. })
}

#[inline(always)]
fn answer_undecoded(call: UndecodedCall, reply: Aside<Reply>, pieces: u32) -> ServerStep
    ensures { result ≡ table.answer_undecoded call.expects call reply pieces }
{
    let entry = ServerEntry::Undecoded { call };
    match call.expects {
        None => refused(Some(entry), CallFault::NotOpen),
        Some(CallKind::Locate) => refused(Some(entry), CallFault::WrongKind),
        Some(CallKind::Request) => {
            if !is_system_exception(&reply.body) || !is_same_version(call.version, reply.version) {
                return refused(Some(entry), CallFault::Unfit);
            }
            becomes(ServerEntry::Answered {
                asked: Question::Undecoded(call.fault),
                reply,
                left: pieces.saturating_sub(1),
            })
        }
    }
}

/// The server answers a LocateRequest.
///
/// Refused as WrongKind for a Request that expects a reply, as NotOpen where nothing is open, and
/// as Unfit where the LocateRequest couldn't be decoded and its object is yet said to be here.
pub fn answer_locate(entry: Option<ServerEntry>, here: bool) -> ServerStep
    ensures { result ≡ table.answer_locate entry here }
{
    match entry {
        Some(ServerEntry::LocateAsked { request }) => becomes(ServerEntry::LocateAnswered {
            target: Some(request.target),
            here,
        }),
        Some(ServerEntry::Undecoded { call }) => answer_locate_undecoded(call, here),
        Some(ServerEntry::Asked { .. }) => refused(entry, CallFault::WrongKind),
        entry => refused(entry, CallFault::NotOpen),
    }
}

#[inline(always)]
fn answer_locate_undecoded(call: UndecodedCall, here: bool) -> ServerStep
    ensures { result ≡ table.answer_locate_undecoded call.expects call here }
{
    let entry = Some(ServerEntry::Undecoded { call });
    match call.expects {
        None => refused(entry, CallFault::NotOpen),
        Some(CallKind::Request) => refused(entry, CallFault::WrongKind),
        Some(CallKind::Locate) if here => refused(entry, CallFault::Unfit),
        Some(CallKind::Locate) => becomes(ServerEntry::LocateAnswered {
            target: None,
            here: false,
        }),
    }
}

/// The next piece of the reply is sent. Refused as NothingToSend where none is left.
pub fn send(entry: Option<ServerEntry>) -> ServerStep
    ensures { result ≡ table.send entry }
{
    match entry {
        Some(ServerEntry::Answered { asked, reply, left }) if left > 0 => {
            becomes(ServerEntry::Answered {
                asked,
                reply,
                left: left - 1,
            })
        }
        Some(ServerEntry::Cancelled { answered, left }) if left > 0 => {
            becomes(ServerEntry::Cancelled {
                answered,
                left: left - 1,
            })
        }
        entry => refused(entry, CallFault::NothingToSend),
    }
}
