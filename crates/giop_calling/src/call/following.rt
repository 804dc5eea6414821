//! `call --follow`: a call that is forwarded is made again where the reference says, in a session
//! of its own, and what it came to there is told (CORBA 3.3 Part 2, 9.4.3.1). Its meaning is
//! specs/Call/Following.antt: change both.
ghost use Rattle.std.specs.Prelude.{◌≡◌, ◌++◌, ◌∷◌, [], IfOk, OnOk, option_copied, option_and_then};
ghost use Rattle.std.specs.FinMap as finite;
ghost use Rattle.std.specs.List.{flat_map, list_all};
ghost use Rattle.std.specs.Io.KnownBytes.{Appends};
ghost use Rattle.giop_calling.specs.Call.Streaming.{stream_status};
ghost use Rattle.giop_calling.specs.Call.Following.{CallsBetween, body_place, calls_of, entry_place, followed_text, forward_at, forwards_of, ids_of, is_one_of, latest, latest_at, latest_well};
ghost use Rattle.giop_calling.specs.Call.Printed.{is_well};
ghost use Rattle.giop_commands.specs.Session.Printed.{told};
ghost use Rattle.giop_end.specs.Ends.View.{IsTurned};

use crate::call::given::Calling;
use crate::call::streaming::stream_status;
use crate::call::well::is_well;
use crate::call::{call_all, talk};
use giop_asked_calls::calls::CallLine;
use giop_calls::{ClientEntry, ClientRule};
use giop_commands::session::given::Showing;
use giop_commands::session::table::Tabled;
use giop_commands::session::target::{Endpoint, place_in};
use giop_commands::session::{told, write_fault};
use giop_end::{ClientEnd, SessionFault};
use giop_msg::ReplyBody;
use giop_show::failure::Failure;
use giop_show::status::Status;
use std::alloc::{AllocError, Global};
use std::io::{Read, Write};

/// A call that is forwarded, and where to.
#[derive(Debug, Drop)]
pub struct Forward {
    /// Its id.
    pub id: u32,
    /// The first IIOP profile of the reference.
    pub to: Endpoint,
}

/// Makes calls at a client's end, and waits until they are over, as `call_over` does at a new one.
/// Nothing is told. Returns the fault of a call that is refused at this end; nothing is written
/// then.
pub fn call_at<R: Read, W: Write>(
    alloc: Global,
    end: &mut ClientEnd<'_>,
    calling: Calling<'_>,
    calls: Vec<CallLine>,
    reader: &mut R,
    writer: &mut W,
) -> Result<Option<SessionFault>, Failure>
    requires interface { end.old.interface.now ≡ calling.interface.now }
    requires limits { end.old.limits ≡ calling.limits }
    ensures calls { IfOk result (λ refused. CallsBetween calling.entry calls.items
        (R.remaining reader.old) (W.contents writer.old) end.old refused (R.remaining reader.new)
        (W.contents writer.new) end.new) }
    ensures others { IsTurned end.old end.new }
{
    let refused = call_all(alloc, end, calling, calls)?;
    talk(alloc, end, refused, reader, writer)?;
    Ok(refused)
}

/// The calls of these ids.
pub fn calls_of(mut calls: Vec<CallLine>, ids: &[u32]) -> Vec<CallLine>
    ensures { result.items ≡ calls_of ids.now calls.items }
{
    calls.retain(|call| is_one_of(call.id, ids));
    calls
}

// Whether an id is one of these.
fn is_one_of(id: u32, ids: &[u32]) -> bool
    ensures { result ≡ is_one_of ids.now id }
{
    ids.iter().any(|one| *one == id)
}

/// The calls of some sessions that are forwarded where they were made last, ascending, as far as
/// their references have an IIOP profile. The first session has all of them.
pub fn forwards_of(alloc: Global, ends: &[ClientEnd<'_>]) -> Result<Vec<Forward>, Failure>
    ensures { IfOk result (λ forwards. forwards.items ≡ forwards_of ends.now) }
{
    let ids = ids_of(alloc, ends)?;
    let mut forwards = Vec::new(alloc);
    for id in &ids {
        add_forward(alloc, ends, *id, &mut forwards)?;
    }
    Ok(forwards)
}

// Adds the call of an id, where it is forwarded.
fn add_forward(
    alloc: Global,
    ends: &[ClientEnd<'_>],
    id: u32,
    forwards: &mut Vec<Forward>,
) -> Result<(), Failure>
    ensures { OnOk result
        (forwards.new.items ≡ forwards.old.items ++ forward_at ends.now id) }
{
    match entry_place(alloc, latest(ends, id))? {
        Some(to) => Ok(push_forward(Forward { id, to }, forwards)?),
        None => Ok(()),
    }
}

fn push_forward(forward: Forward, forwards: &mut Vec<Forward>) -> Result<(), AllocError>
    ensures { OnOk result (forwards.new.items ≡ forwards.old.items ++ forward ∷ []) }
{
    forwards.push(forward)?;
    Ok(())
}

// Where the call of an entry is to be made again, if it is forwarded.
fn entry_place(alloc: Global, entry: Option<&ClientEntry>) -> Result<Option<Endpoint>, Failure>
    ensures { IfOk result (λ place. place
        ≡ option_and_then entry_place (option_copied entry.entry)) }
{
    match entry {
        Some(ClientEntry::Done { reply, .. }) => body_place(alloc, &reply.body),
        _ => Ok(None),
    }
}

// Where a Reply forwards its call to.
fn body_place(alloc: Global, body: &ReplyBody) -> Result<Option<Endpoint>, Failure>
    ensures { IfOk result (λ place. place ≡ body_place body.now) }
{
    match body {
        ReplyBody::Forward(ior) => place_in(alloc, ior),
        ReplyBody::ForwardPerm(ior) => place_in(alloc, ior),
        _ => Ok(None),
    }
}

// The ids of the calls of some sessions: those of the first.
fn ids_of(alloc: Global, ends: &[ClientEnd<'_>]) -> Result<Vec<u32>, AllocError>
    ensures { IfOk result (λ ids. ids.items ≡ ids_of ends.now) }
{
    match ends.first() {
        Some(end) => end.ids(alloc),
        None => Ok(Vec::new(alloc)),
    }
}

// What the call of an id came to where it was made last.
fn latest<'a>(ends: &'a [ClientEnd<'_>], id: u32) -> Option<&'a ClientEntry>
    ensures { option_copied result ≡ latest ends.now id }
{
    let mut found = None;
    'ends: for end in ends {
        if let Some(entry) = end.entry(id) {
            found = Some(entry);
        }
    }
    found
}

/// Writes the line of each call of some sessions, by what it came to where it was made last, in
/// ascending order of the ids; then the fault of the last, where one ended it: that of a call which
/// was refused at this end, else the end's own. Returns the status: as `call_over` does, by these
/// lines.
pub fn tell_followed<O: Write>(
    alloc: Global,
    showing: Showing<'_>,
    ends: &[ClientEnd<'_>],
    refused: Option<SessionFault>,
    fault: Option<SessionFault>,
    out: &mut O,
) -> Result<Status, Failure>
    ensures text { OnOk result (Appends (O.contents out.old) (O.contents out.new)
        (followed_text showing.entry.lines showing.entry.interface.now ends.now
        (told refused fault))) }
    ensures status { IfOk result (λ status. status
        ≡ stream_status refused fault (latest_well ends.now)) }
{
    let ids = ids_of(alloc, ends)?;
    write_latest(alloc, showing, ends, ids.as_slice(), out)?;
    write_fault(showing.lines, told(refused, fault), out)?;
    Ok(stream_status(refused, fault, are_well(ends, ids.as_slice())))
}

// Writes the line of each of these ids.
fn write_latest<O: Write>(
    alloc: Global,
    showing: Showing<'_>,
    ends: &[ClientEnd<'_>],
    ids: &[u32],
    out: &mut O,
) -> Result<(), Failure>
    ensures { OnOk result (Appends (O.contents out.old) (O.contents out.new)
        (flat_map (latest_at showing.entry.lines showing.entry.interface.now ends.now) ids.now)) }
{
    for id in ids {
        write_one(alloc, showing, ends, *id, out)?;
    }
    Ok(())
}

// Writes the line of an id, if it has one.
fn write_one<O: Write>(
    alloc: Global,
    showing: Showing<'_>,
    ends: &[ClientEnd<'_>],
    id: u32,
    out: &mut O,
) -> Result<(), Failure>
    ensures { OnOk result (Appends (O.contents out.old) (O.contents out.new)
        (latest_at showing.entry.lines showing.entry.interface.now ends.now id)) }
{
    match latest(ends, id) {
        Some(entry) => {
            let (lines, interface) = (showing.lines, showing.interface);
            let line = ClientRule::entry_text(alloc, lines, interface, id, entry)?;
            writeln!(out, "{line}")?;
        }
        None => {}
    }
    Ok(())
}

// Whether the calls of all ids went well where they were made last.
fn are_well(ends: &[ClientEnd<'_>], ids: &[u32]) -> bool
    ensures { result ≡ list_all (λ id. is_well (latest ends.now id)) ids.now }
{
    ids.iter().all(|id| is_well(latest(ends, *id)))
}
