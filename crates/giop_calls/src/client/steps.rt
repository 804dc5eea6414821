//! What each event does to a call at a client (CORBA 3.3 Part 2, 9.4 and 9.6), a function for each.
//! None takes memory. The table is specs/ClientTable.antt, a definition for each: change both.
ghost use Rattle.std.specs.Prelude.{◌≡◌, IfNone, IfSome, Some};
ghost use Rattle.giop_calls.specs.ClientTable as table;
ghost use Rattle.giop_calls.specs.declared.client.call.Call.TheVariants as question;
ghost use Rattle.giop_calls.specs.declared.client.entry.ClientEntry.TheVariants.{Waiting, Gathering, Cancelled};
ghost use Rattle.giop_calls.specs.declared.fault.CallFault.TheVariants.{NotOpen};
ghost use Rattle.giop_calls.specs.declared.client.heard.HeardReply.TheVariants as heard;
ghost use Rattle.giop_calls.specs.Messages.{is_same_version};

use crate::aside::Aside;
use crate::client::call::Call;
use crate::client::entry::ClientEntry;
use crate::client::heard::HeardReply;
use crate::client::late::Late;
use crate::fault::CallFault;
use crate::kind::CallKind;
use giop_msg::{LocateReply, Reply, Request, Version};
use giop_mux::Step;

pub type ClientStep = Step<ClientEntry, (), CallFault>;

/// The entry of a call that was cancelled before anything came of its reply.
pub const DROPPED: ClientEntry = ClientEntry::Cancelled { late: Late::None };

#[inline(always)]
fn becomes(entry: ClientEntry) -> ClientStep
    ensures { result ≡ table.becomes entry }
{
    Step {
        entry: Some(entry),
        outcome: Ok(()),
    }
}

#[inline(always)]
fn refused(entry: Option<ClientEntry>, fault: CallFault) -> ClientStep
    ensures { result ≡ table.refused entry fault }
{
    Step {
        entry,
        outcome: Err(fault),
    }
}

// Whether a call may take the id of this entry: there is none, or its call is over.
#[inline(always)]
fn is_free(entry: &Option<ClientEntry>) -> bool
    ensures { result ≡ table.is_free entry.now }
{
    match entry {
        None => true,
        Some(entry) => entry.is_closed(),
    }
}

// The entry of a call all of whose pieces are sent.
#[inline(always)]
fn sent(call: Call) -> ClientEntry
    ensures { result ≡ table.sent call }
{
    match call {
        Call::Request(request) => sent_request(request),
        call => ClientEntry::Waiting { call },
    }
}

#[inline(always)]
fn sent_request(request: Aside<Request>) -> ClientEntry
    ensures { result ≡ table.sent (question.Request request) }
{
    if request.head.flags == 0 {
        ClientEntry::OnewaySent { request }
    } else {
        ClientEntry::Waiting {
            call: Call::Request(request),
        }
    }
}

// The entry of a call of which so many pieces aren't sent yet.
#[inline(always)]
fn sending(call: Call, left: u32) -> ClientEntry
    ensures { result ≡ table.sending call left }
{
    if left == 0 {
        sent(call)
    } else {
        ClientEntry::Sending { call, left }
    }
}

/// The client calls in so many pieces, of which the first goes out. Refused as IdInUse where the id
/// isn't free.
pub fn begin(entry: Option<ClientEntry>, call: Call, pieces: u32) -> ClientStep
    ensures { result ≡ table.begins entry call pieces }
{
    if is_free(&entry) {
        becomes(sending(call, pieces.saturating_sub(1)))
    } else {
        refused(entry, CallFault::IdInUse)
    }
}

/// The client calls in so many pieces, of which the first goes out, and takes an id that has this
/// entry, which changes where it lies. Refused as IdInUse where the entry's call isn't over.
#[inline(always)]
pub fn begin_at(entry: &mut ClientEntry, call: Call, pieces: u32) -> Result<(), CallFault>
    ensures { table.begins (Some entry.old) call pieces
        ≡ record { entry = Some entry.new; outcome = result } }
{
    if !entry.is_closed() {
        return Err(CallFault::IdInUse);
    }
    *entry = sending(call, pieces.saturating_sub(1));
    Ok(())
}

/// The next piece of the call is sent. Refused as NothingToSend where none is left.
pub fn send(entry: Option<ClientEntry>) -> ClientStep
    ensures { result ≡ table.send entry }
{
    match entry {
        Some(ClientEntry::Sending { call, left }) => {
            becomes(sending(call, left.saturating_sub(1)))
        }
        entry => refused(entry, CallFault::NothingToSend),
    }
}

/// The client cancels. Refused as NotOpen where nothing is sent or awaited.
pub fn cancel(entry: Option<ClientEntry>) -> ClientStep
    ensures { result ≡ table.cancel entry }
{
    match late_at_cancel(&entry) {
        Some(late) => dropped(late),
        None => refused(entry, CallFault::NotOpen),
    }
}

// How much of its reply came of a call that may be cancelled; `None` for any other.
#[inline(always)]
fn late_at_cancel(entry: &Option<ClientEntry>) -> Option<Late>
    ensures some { IfSome result (λ late. table.cancel entry.now
        ≡ table.becomes (Cancelled late)) }
    ensures none { IfNone result (table.cancel entry.now ≡ table.refused entry.now NotOpen) }
{
    match entry {
        Some(ClientEntry::Sending { .. }) => Some(Late::None),
        Some(ClientEntry::Waiting { .. }) => Some(Late::None),
        Some(ClientEntry::Gathering { .. }) => Some(Late::Begun),
        _ => None,
    }
}

#[inline(always)]
fn dropped(late: Late) -> ClientStep
    ensures { result ≡ table.becomes (Cancelled late) }
{
    becomes(ClientEntry::Cancelled { late })
}

/// The first piece of a Reply or a LocateReply comes, and more are to come. Refused as WrongKind
/// where the call waits for another kind or version, and as UnknownReply where it waits for none.
pub fn first(entry: Option<ClientEntry>, kind: CallKind, version: Version) -> ClientStep
    ensures { result ≡ table.first entry kind version }
{
    match entry {
        Some(ClientEntry::Waiting { call }) => begin_reply(call, kind, version),
        Some(ClientEntry::Cancelled { late: Late::None }) => dropped(Late::Begun),
        entry => refused(entry, CallFault::UnknownReply),
    }
}

#[inline(always)]
fn begin_reply(call: Call, kind: CallKind, version: Version) -> ClientStep
    ensures { result ≡ table.first (Some (Waiting call)) kind version }
{
    if call.is_answered_by(kind, version) {
        becomes(ClientEntry::Gathering { call })
    } else {
        refused(Some(ClientEntry::Waiting { call }), CallFault::WrongKind)
    }
}

/// A Reply or a LocateReply comes in one piece. The refusals are those of `first`.
pub fn whole(
    entry: Option<ClientEntry>,
    kind: CallKind,
    version: Version,
    reply: HeardReply,
) -> ClientStep
    ensures { result ≡ table.whole entry kind version reply }
{
    match entry {
        Some(ClientEntry::Waiting { call }) => settle_whole(call, kind, version, reply),
        Some(ClientEntry::Cancelled { late: Late::None }) => dropped(Late::Seen),
        entry => refused(entry, CallFault::UnknownReply),
    }
}

#[inline(always)]
fn settle_whole(call: Call, kind: CallKind, version: Version, reply: HeardReply) -> ClientStep
    ensures { result ≡ table.whole (Some (Waiting call)) kind version reply }
{
    if call.is_answered_by(kind, version) {
        settle(false, call, reply)
    } else {
        refused(Some(ClientEntry::Waiting { call }), CallFault::WrongKind)
    }
}

// The entry of a call whose reply isn't whole: gathered in part, or not begun.
#[inline(always)]
fn expecting(gathered: bool, call: Call) -> ClientEntry
    ensures { result ≡ table.expecting gathered call }
{
    if gathered {
        ClientEntry::Gathering { call }
    } else {
        ClientEntry::Waiting { call }
    }
}

// The last piece of the reply came.
#[inline(always)]
fn settle(gathered: bool, call: Call, reply: HeardReply) -> ClientStep
    ensures { result ≡ table.settles (table.expecting gathered call) call reply }
{
    match reply {
        HeardReply::Reply(reply) => settle_reply(gathered, call, reply),
        HeardReply::Locate(reply) => settle_located(gathered, call, reply),
        HeardReply::Undecoded(fault) => becomes(ClientEntry::Undecoded { call, fault }),
        HeardReply::Unread => refused(Some(expecting(gathered, call)), CallFault::WrongKind),
    }
}

#[inline(always)]
fn settle_reply(gathered: bool, call: Call, reply: Aside<Reply>) -> ClientStep
    ensures { result ≡ table.settles (table.expecting gathered call) call (heard.Reply reply) }
{
    match call {
        Call::Request(request) => becomes(ClientEntry::Done { request, reply }),
        call => refused(Some(expecting(gathered, call)), CallFault::WrongKind),
    }
}

#[inline(always)]
fn settle_located(gathered: bool, call: Call, reply: LocateReply) -> ClientStep
    ensures { result ≡ table.settles (table.expecting gathered call) call (heard.Locate reply) }
{
    match call {
        Call::Locate(request) => becomes(ClientEntry::LocateDone { request, reply }),
        call => refused(Some(expecting(gathered, call)), CallFault::WrongKind),
    }
}

/// A Fragment comes, and more are to come. Refused as OrderDiffers, or as Stray where nothing is
/// gathered; ignored behind a cancel.
pub fn more(entry: Option<ClientEntry>, in_order: bool) -> ClientStep
    ensures { result ≡ table.more entry in_order }
{
    match entry {
        Some(ClientEntry::Gathering { call }) => gather(call, in_order),
        Some(ClientEntry::Cancelled { late }) => dropped(late),
        entry => refused(entry, CallFault::Stray),
    }
}

#[inline(always)]
fn gather(call: Call, in_order: bool) -> ClientStep
    ensures { result ≡ table.more (Some (Gathering call)) in_order }
{
    let entry = ClientEntry::Gathering { call };
    if in_order {
        becomes(entry)
    } else {
        refused(Some(entry), CallFault::OrderDiffers)
    }
}

/// The last Fragment comes: behind a cancel it ends the late reply. The refusals are those of
/// `more`, and WrongKind where the pieces are no reply to the call.
pub fn last(entry: Option<ClientEntry>, in_order: bool, reply: HeardReply) -> ClientStep
    ensures { result ≡ table.last entry in_order reply }
{
    match entry {
        Some(ClientEntry::Gathering { call }) => complete(call, in_order, reply),
        Some(ClientEntry::Cancelled { late: Late::Begun }) => dropped(Late::Seen),
        Some(ClientEntry::Cancelled { late }) => dropped(late),
        entry => refused(entry, CallFault::Stray),
    }
}

#[inline(always)]
fn complete(call: Call, in_order: bool, reply: HeardReply) -> ClientStep
    ensures { result ≡ table.last (Some (Gathering call)) in_order reply }
{
    if in_order {
        settle(true, call, reply)
    } else {
        refused(
            Some(ClientEntry::Gathering { call }),
            CallFault::OrderDiffers,
        )
    }
}
