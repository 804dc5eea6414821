//! `call`: a client's end between a reader and a writer. Its meaning is specs/Call/Calling.antt,
//! and specs/Call/Printed.antt for what is printed: change both.
ghost use Rattle.std.specs.Prelude.{◌≡◌, [], ◌∷◌, IfOk, None, OnOk};
ghost use Rattle.std.specs.Io.KnownBytes.{Appends};
ghost use Rattle.giop_end.specs.Pumping.{between};
ghost use Rattle.giop_end.specs.Ends.View.{IsActedOn, IsTurned};
ghost use Rattle.giop_commands.specs.Session.Acts.{outbox_of};
ghost use Rattle.giop_calls.specs.ClientTable.{is_closed};
ghost use Rattle.giop_calling.specs.Call.Calling.{CallsAll, CallsOne, ConversesAt, IsNew, TalksAt, WaitsFor, asked_of, request_of};
ghost use Rattle.giop_calling.specs.Call.Endings.{CallsEndOver};
ghost use Rattle.giop_commands.specs.Session.Endings.{Ends};
ghost use Rattle.giop_calling.specs.Call.Printed.{call_status, Calls, CallsOver, client_text};
ghost use Rattle.giop_commands.specs.Session.Printed.{told};
ghost use Rattle.giop_commands.specs.Session.Steps.{Upto};
ghost use Rattle.giop_commands.specs.Session.Traffic.{traffic};

pub mod following;
pub mod given;
pub mod locate_following;
pub mod locating;
pub mod streaming;
mod well;

use crate::call::given::Calling;
use crate::call::well::{all_well, are_over};
use giop_asked_calls::calls::CallLine;
use giop_cdr::OctetList;
use giop_commands::session::ending::{Ending, ending_of};
use giop_commands::session::faults::broken::broken_status;
use giop_commands::session::given::{Pipes, Showing};
use giop_commands::session::sending::send_all;
use giop_commands::session::{TURNS, goes_on, told, told_of, write_all_out, write_session};
use giop_end::{ClientEnd, SessionFault};
use giop_msg::{Request, RequestHead, ServiceContexts, Target, Version};
use giop_show::failure::Failure;
use giop_show::status::Status;
use std::alloc::{AllocError, Global};
use std::io::{Read, Write};

/// Calls operations of the object of a key, in a version and a form, by a new client's end with
/// these limits. The first pieces of all calls are put out, then one piece of each in turn. What is
/// put out is written, and replies are read until all calls are over or the input ends. Nothing is
/// read where no call has a reply. Then the table is printed, a line for each call, and
/// the fault that ended the session, where one did.
///
/// A call that is refused at this end, such as one whose id is in use, ends the session: nothing is
/// written to the peer, and the fault is that of the call. A peer that breaks the protocol is sent
/// a MessageError.
///
/// It is `Done` where no call was refused and each got its result, or was sent and has none;
/// `LimitPassed` where a limit kept one from it; else `Refused`. Where reading or writing fails, it
/// is `InputOutput`. Where it is out of memory, it is `Memory`. After either, a part of the text
/// may be written.
#[tactic(auto, using(crate::proofs::OnCall::PrintedLemmas::calls_told))]
pub fn call_session<R: Read, W: Write, O: Write>(
    alloc: Global,
    calling: Calling<'_>,
    calls: Vec<CallLine>,
    pipes: &mut Pipes<R, W, O>,
) -> Status
    ensures { CallsOver calling.entry calls.items
        (traffic R.remaining W.contents O.contents pipes.old pipes.new) result }
{
    match call_over(alloc, calling, calls, pipes) {
        Ok(ending) => ending.status,
        Err(failure) => failure.status(),
    }
}

/// Does what `call_session` does, told in a form, and tells besides which calls are open where the
/// input ended. Where something fails, what failed is returned in place of that; where that is the
/// connection, the table is written before.
pub fn call_over<R: Read, W: Write, O: Write>(
    alloc: Global,
    calling: Calling<'_>,
    calls: Vec<CallLine>,
    pipes: &mut Pipes<R, W, O>,
) -> Result<Ending, Failure>
    ensures { IfOk result (CallsEndOver calling.entry calls.items
        (traffic R.remaining W.contents O.contents pipes.old pipes.new)) }
{
    let mut end = ClientEnd::new(alloc, calling.interface, calling.limits);
    call_with(alloc, &mut end, calling, calls, pipes)
}

// Calls by a new end, and prints its table.
fn call_with<R: Read, W: Write, O: Write>(
    alloc: Global,
    end: &mut ClientEnd<'_>,
    calling: Calling<'_>,
    calls: Vec<CallLine>,
    pipes: &mut Pipes<R, W, O>,
) -> Result<Ending, Failure>
    requires { IsNew calling end.old }
    ensures { IfOk result (CallsEndOver calling.entry calls.items
        (traffic R.remaining W.contents O.contents pipes.old pipes.new)) }
{
    let (lines, interface) = (calling.lines, calling.interface);
    let showing = Showing { lines, interface };
    let refused = call_all(alloc, end, calling, calls)?;
    match talk(alloc, end, refused, &mut pipes.reader, &mut pipes.writer) {
        Ok(()) => tell(alloc, showing, end, refused, &mut pipes.out),
        Err(Failure::Memory) => Err(Failure::Memory),
        Err(failure) => {
            write_session(alloc, showing, end, None, &mut pipes.out)?;
            pipes.out.flush()?;
            Err(failure)
        }
    }
}

// Writes the table of the calls and the fault of the session, and returns what it came to.
fn tell<O: Write>(
    alloc: Global,
    showing: Showing<'_>,
    end: &ClientEnd<'_>,
    refused: Option<SessionFault>,
    out: &mut O,
) -> Result<Ending, Failure>
    ensures text { OnOk result (Appends (O.contents out.old) (O.contents out.new)
        (client_text showing.entry end.now.calls.table (told refused end.now.fault))) }
    ensures ok { IfOk result (λ ending. ending.status
        ≡ call_status refused end.now.fault end.now.calls.table) }
    ensures ends { IfOk result (Ends is_closed (told refused end.now.fault) end.now.calls.table
        end.now.framer) }
{
    let fault = told(refused, end.fault());
    write_session(alloc, showing, end, fault, out)?;
    let status = call_status(alloc, refused, end)?;
    Ok(ending_of(alloc, end, fault, status)?)
}

// Puts out the first piece of each call, then the others in turn. Returns the fault of a refused
// call, at which it stops.
fn call_all(
    alloc: Global,
    end: &mut ClientEnd<'_>,
    calling: Calling<'_>,
    calls: Vec<CallLine>,
) -> Result<Option<SessionFault>, Failure>
    requires interface { end.old.interface.now ≡ calling.interface.now }
    requires limits { end.old.limits ≡ calling.limits }
    ensures calls { IfOk result (λ refused. CallsAll (asked_of calling.entry calls.items)
        end.old.fault (outbox_of end.old) refused (outbox_of end.new)) }
    ensures others { IsActedOn end.old end.new }
{
    if let Some(fault) = call_each(alloc, end, calling, calls)? {
        return Ok(Some(fault));
    }
    send_all(alloc, end)
}

// Puts out the first piece of each call. Returns the fault of a refused one, at which it stops.
fn call_each(
    alloc: Global,
    end: &mut ClientEnd<'_>,
    calling: Calling<'_>,
    calls: Vec<CallLine>,
) -> Result<Option<SessionFault>, Failure>
    requires interface { end.old.interface.now ≡ calling.interface.now }
    requires limits { end.old.limits ≡ calling.limits }
    ensures calls { IfOk result (λ refused. Upto (CallsOne (asked_of calling.entry calls.items)
        end.old.fault) calls.items (outbox_of end.old) refused (outbox_of end.new)) }
    ensures others { IsActedOn end.old end.new }
{
    'calls: for call in calls {
        if let Some(fault) = call_one(alloc, end, calling, call)? {
            return Ok(Some(fault));
        }
    }
    Ok(None)
}

// Puts out the first piece of a call. Returns its fault where it is refused.
fn call_one(
    alloc: Global,
    end: &mut ClientEnd<'_>,
    calling: Calling<'_>,
    call: CallLine,
) -> Result<Option<SessionFault>, Failure>
    requires interface { end.old.interface.now ≡ calling.interface.now }
    requires limits { end.old.limits ≡ calling.limits }
    ensures calls { IfOk result (λ refused. CallsOne (asked_of calling.entry (call ∷ []))
        end.old.fault call (outbox_of end.old) refused (outbox_of end.new)) }
    ensures others { IsActedOn end.old end.new }
{
    let request = request_of(alloc, call, calling.key, calling.version)?;
    told_of(end.call(request, calling.form))
}

// The Request of a call.
fn request_of(
    alloc: Global,
    call: CallLine,
    key: &[u8],
    version: Version,
) -> Result<Request, AllocError>
    ensures { IfOk result (λ request. request ≡ request_of call key.now version) }
{
    Ok(Request {
        head: RequestHead {
            version,
            id: call.id,
            flags: if call.oneway { 0 } else { 3 },
            target: Target::Key(OctetList::from_slice(alloc, key)?),
            operation: call.operation,
            contexts: ServiceContexts::new(alloc),
        },
        body: call.ins,
    })
}

// Converses, unless a call was refused.
fn talk<R: Read, W: Write>(
    alloc: Global,
    end: &mut ClientEnd<'_>,
    refused: Option<SessionFault>,
    reader: &mut R,
    writer: &mut W,
) -> Result<(), Failure>
    ensures talks { OnOk result (TalksAt end.old.interface.now refused (R.remaining reader.old)
        (W.contents writer.old) end.old (R.remaining reader.new) (W.contents writer.new) end.new) }
    ensures others { IsTurned end.old end.new }
{
    match refused {
        Some(_) => Ok(()),
        None => converse(alloc, end, reader, writer),
    }
}

// Takes turns until all calls are over, the input ends or the end fails; none where all calls are
// over at first.
fn converse<R: Read, W: Write>(
    alloc: Global,
    end: &mut ClientEnd<'_>,
    reader: &mut R,
    writer: &mut W,
) -> Result<(), Failure>
    ensures converses { OnOk result (ConversesAt end.old.interface.now (R.remaining reader.old)
        (W.contents writer.old) end.old (R.remaining reader.new) (W.contents writer.new) end.new) }
    ensures others { IsTurned end.old end.new }
{
    let ids = end.ids(alloc)?;
    if are_over(end, ids.as_slice()) {
        return write_all_out(end, writer);
    }
    wait(end, ids.as_slice(), reader, writer)
}

// Takes turns until the calls of all these ids are over, the input ends or the end fails.
fn wait<R: Read, W: Write>(
    end: &mut ClientEnd<'_>,
    ids: &[u32],
    reader: &mut R,
    writer: &mut W,
) -> Result<(), Failure>
    ensures waits { WaitsFor end.old.interface.now ids.now (R.remaining reader.old)
        (W.contents writer.old) end.old result (R.remaining reader.new) (W.contents writer.new)
        end.new }
    ensures others { IsTurned end.old end.new }
{
    'turns: for done in 0..TURNS {
        if !goes_on(end, reader, writer)? {
            return Ok(());
        }
        if are_over(end, ids) {
            return Ok(());
        }
    }
    Err(Failure::TurnsSpent)
}

// The status of the calls: whether one was refused, and what the others came to.
fn call_status(
    alloc: Global,
    refused: Option<SessionFault>,
    end: &ClientEnd<'_>,
) -> Result<Status, Failure>
    ensures { IfOk result (λ status. status
        ≡ call_status refused end.now.fault end.now.calls.table) }
{
    match refused {
        Some(fault) => Ok(broken_status(fault)),
        None => own_status(alloc, end),
    }
}

// The status of the calls where none was refused.
fn own_status(alloc: Global, end: &ClientEnd<'_>) -> Result<Status, Failure>
    ensures { IfOk result (λ status. status ≡ call_status None end.now.fault end.now.calls.table) }
{
    if all_well(alloc, end)? {
        return Ok(Status::Done);
    }
    Ok(match end.fault() {
        Some(fault) => broken_status(fault),
        None => Status::Refused,
    })
}
