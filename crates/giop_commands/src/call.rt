//! `call`: a client's end between a reader and a writer. Its meaning is specs/Calling.antt, and
//! specs/Sessions.antt for what is printed: change both.
ghost use Rattle.std.specs.Prelude.{◌≡◌, [], ◌∷◌, IfOk, None, OnOk, option_copied};
ghost use Rattle.std.specs.FinMap as finite;
ghost use Rattle.std.specs.Io.KnownBytes.{Appends};
ghost use Rattle.std.specs.List.{list_all};
ghost use Rattle.giop_end.specs.Acts.Form.{IsForm};
ghost use Rattle.giop_table.specs.Sending.{entry_of};
ghost use Rattle.giop_end.specs.Pumping.{between};
ghost use Rattle.giop_calls.specs.ClientTable.{is_closed};
ghost use Rattle.giop_commands.specs.Acts.{outbox};
ghost use Rattle.giop_commands.specs.Calling.{CallsAll, CallsOne, Converses, Talks, are_over, asked_of, client_hears, is_over, request_of};
ghost use Rattle.giop_commands.specs.Endings.{CallsEnd, Ends};
ghost use Rattle.giop_commands.specs.Sessions.{Calls, all_well, call_status, is_well, session_text, told, wire};
ghost use Rattle.giop_commands.specs.Steps.{Upto};
ghost use Rattle.giop_commands.specs.Table.{client_entry_in};
ghost use Rattle.giop_commands.specs.Turns.{Waits};

pub mod calls;
pub mod feed;
pub mod following;
pub mod given;
pub mod lines;
pub mod locate_following;
pub mod locating;
pub mod streaming;
pub mod table;
pub mod words;

use crate::call::calls::CallLine;
use crate::call::given::Calling;
use crate::session::broken::broken_status;
use crate::session::ending::{Ending, ending_of};
use crate::session::sending::send_all;
use crate::session::{TURNS, goes_on, told, told_of, write_all_out, write_session};
use giop_calls::ClientEntry;
use giop_cdr::OctetList;
use giop_end::{ClientEnd, Form, SessionFault};
use giop_msg::{Request, RequestHead, ServiceContexts, Target, Version};
use giop_show::failure::Failure;
use giop_show::form::LineForm;
use giop_show::status::Status;
use giop_types::{Interface, NumberForm};
use std::alloc::{AllocError, Global};
use std::io::{Read, Write};

/// Calls operations of the object of a key, in a version and a form, by a new client's end with these
/// limits. The first pieces of all calls are put out, then one piece of each in turn. What
/// is put out is written, and replies are read until all calls are over or the input ends. Nothing
/// is read where no call has a reply. Then the table is written to `out`, a line for each call, and
/// the fault that ended the session, where one did.
///
/// A call that is refused at this end, such as one whose id is in use, ends the session: nothing is
/// written to the peer, and the fault is that of the call. A peer that breaks the protocol is sent
/// a MessageError.
///
/// It is `Done` where no call was refused and each got its result, or was sent and has none;
/// `LimitPassed` where a limit kept one from it; else `Refused`. Where reading or writing fails, it is `InputOutput`. Where
/// it is out of memory, it is `Memory`. After either, a part of the text may be written.
#[tactic(auto, using(crate::proofs::SessionsLemmas::calls_told))]
pub fn call_session<R: Read, W: Write, O: Write>(
    alloc: Global,
    calling: Calling<'_>,
    calls: Vec<CallLine>,
    reader: &mut R,
    writer: &mut W,
    out: &mut O,
) -> Status
    ensures { Calls (asked_of calling.entry calls.items)
        (wire (R.remaining reader.old) (W.contents writer.old))
        (wire (R.remaining reader.new) (W.contents writer.new))
        (O.contents out.old) (O.contents out.new) result }
{
    let lines = LineForm::Text(NumberForm::Plain);
    match call_over(alloc, calling, calls, lines, reader, writer, out) {
        Ok(ending) => ending.status,
        Err(failure) => failure.status(),
    }
}

/// Does what `call_session` does, told in a form, and tells besides
/// which calls are open where the input ended. Where something fails, what failed is returned in place of that;
/// where that is the connection, the table is written before.
pub fn call_over<R: Read, W: Write, O: Write>(
    alloc: Global,
    calling: Calling<'_>,
    calls: Vec<CallLine>,
    lines: LineForm,
    reader: &mut R,
    writer: &mut W,
    out: &mut O,
) -> Result<Ending, Failure>
    ensures { IfOk result (CallsEnd (asked_of calling.entry calls.items) lines
        (wire (R.remaining reader.old) (W.contents writer.old))
        (wire (R.remaining reader.new) (W.contents writer.new))
        (O.contents out.old) (O.contents out.new)) }
{
    let mut end = ClientEnd::new(alloc, calling.interface, calling.limits);
    let (key, version, form) = (calling.key, calling.version, calling.form);
    let refused = call_all(alloc, &mut end, calls, key, version, form)?;
    match talk(alloc, &mut end, refused, reader, writer) {
        Ok(()) => tell(alloc, lines, calling.interface, &end, refused, out),
        Err(Failure::Memory) => Err(Failure::Memory),
        Err(failure) => {
            write_session(alloc, lines, calling.interface, &end, None, out)?;
            out.flush()?;
            Err(failure)
        }
    }
}

// Writes the table of the calls and the fault of the session, and returns what it came to.
fn tell<O: Write>(
    alloc: Global,
    lines: LineForm,
    interface: &Interface,
    end: &ClientEnd<'_>,
    refused: Option<SessionFault>,
    out: &mut O,
) -> Result<Ending, Failure>
    ensures text { OnOk result (Appends (O.contents out.old) (O.contents out.new)
        (session_text lines (client_entry_in lines interface.now) end.now.calls.table
        (told refused end.now.fault))) }
    ensures ok { IfOk result (λ ending. ending.status
        ≡ call_status refused end.now.fault end.now.calls.table) }
    ensures ends { IfOk result (Ends is_closed (told refused end.now.fault) end.now.calls.table
        end.now.framer) }
{
    let fault = told(refused, end.fault());
    write_session(alloc, lines, interface, end, fault, out)?;
    let status = call_status(alloc, refused, end)?;
    Ok(ending_of(alloc, end, fault, status)?)
}

// Puts out the first piece of each call, then the others in turn. Returns the fault of a refused
// call, at which it stops.
fn call_all(
    alloc: Global,
    end: &mut ClientEnd<'_>,
    calls: Vec<CallLine>,
    key: &[u8],
    version: Version,
    form: Form,
) -> Result<Option<SessionFault>, Failure>
    requires { IsForm form }
    ensures calls { IfOk result (λ refused. CallsAll (record {
      interface = end.old.interface.now;
      calls = calls.items;
      key = key.now;
      version = version;
      form = form;
      limits = end.old.limits;
    })
        end.old.fault (outbox end.old.calls end.old.outgoing) refused
        (outbox end.new.calls end.new.outgoing)) }
    ensures others { end.new ≡ record end.old {
      calls = end.new.calls;
      outgoing = end.new.outgoing;
    } }
{
    if let Some(fault) = call_each(alloc, end, calls, key, version, form)? {
        return Ok(Some(fault));
    }
    send_all(alloc, end)
}

// Puts out the first piece of each call. Returns the fault of a refused one, at which it stops.
fn call_each(
    alloc: Global,
    end: &mut ClientEnd<'_>,
    calls: Vec<CallLine>,
    key: &[u8],
    version: Version,
    form: Form,
) -> Result<Option<SessionFault>, Failure>
    requires { IsForm form }
    ensures calls { IfOk result (λ refused. Upto (CallsOne (record {
      interface = end.old.interface.now;
      calls = calls.items;
      key = key.now;
      version = version;
      form = form;
      limits = end.old.limits;
    })
        end.old.fault) calls.items (outbox end.old.calls end.old.outgoing) refused
        (outbox end.new.calls end.new.outgoing)) }
    ensures others { end.new ≡ record end.old {
      calls = end.new.calls;
      outgoing = end.new.outgoing;
    } }
{
    'calls: for call in calls {
        if let Some(fault) = call_one(alloc, end, call, key, version, form)? {
            return Ok(Some(fault));
        }
    }
    Ok(None)
}

// Puts out the first piece of a call. Returns its fault where it is refused.
fn call_one(
    alloc: Global,
    end: &mut ClientEnd<'_>,
    call: CallLine,
    key: &[u8],
    version: Version,
    form: Form,
) -> Result<Option<SessionFault>, Failure>
    requires { IsForm form }
    ensures calls { IfOk result (λ refused. CallsOne (record {
      interface = end.old.interface.now;
      calls = call ∷ [];
      key = key.now;
      version = version;
      form = form;
      limits = end.old.limits;
    })
        end.old.fault call (outbox end.old.calls end.old.outgoing) refused
        (outbox end.new.calls end.new.outgoing)) }
    ensures others { end.new ≡ record end.old {
      calls = end.new.calls;
      outgoing = end.new.outgoing;
    } }
{
    let request = request_of(alloc, call, key, version)?;
    told_of(end.call(request, form))
}

// The Request of a call.
fn request_of(
    alloc: Global,
    call: CallLine,
    key: &[u8],
    version: Version,
) -> Result<Request, AllocError>
    ensures { IfOk result (λ request. request ≡ request_of call key.now version) }
{
    Ok(Request {
        head: RequestHead {
            version,
            id: call.id,
            flags: if call.oneway { 0 } else { 3 },
            target: Target::Key(OctetList::from_slice(alloc, key)?),
            operation: call.operation,
            contexts: ServiceContexts::new(alloc),
        },
        body: call.ins,
    })
}

// Converses, unless a call was refused.
fn talk<R: Read, W: Write>(
    alloc: Global,
    end: &mut ClientEnd<'_>,
    refused: Option<SessionFault>,
    reader: &mut R,
    writer: &mut W,
) -> Result<(), Failure>
    ensures talks { OnOk result (Talks end.old.interface.now refused
        (between (R.remaining reader.old) (W.contents writer.old) end.old.outgoing end.old.framer
        end.old.calls end.old.fault)
        (between (R.remaining reader.new) (W.contents writer.new) end.new.outgoing end.new.framer
        end.new.calls end.new.fault)) }
    ensures others { end.new ≡ record end.old {
      outgoing = end.new.outgoing;
      framer = end.new.framer;
      calls = end.new.calls;
      fault = end.new.fault;
    } }
{
    match refused {
        Some(_) => Ok(()),
        None => converse(alloc, end, reader, writer),
    }
}

// Takes turns until all calls are over, the input ends or the end fails; none where all calls are
// over at first.
fn converse<R: Read, W: Write>(
    alloc: Global,
    end: &mut ClientEnd<'_>,
    reader: &mut R,
    writer: &mut W,
) -> Result<(), Failure>
    ensures converses { OnOk result (Converses end.old.interface.now
        (between (R.remaining reader.old) (W.contents writer.old) end.old.outgoing end.old.framer
        end.old.calls end.old.fault)
        (between (R.remaining reader.new) (W.contents writer.new) end.new.outgoing end.new.framer
        end.new.calls end.new.fault)) }
    ensures others { end.new ≡ record end.old {
      outgoing = end.new.outgoing;
      framer = end.new.framer;
      calls = end.new.calls;
      fault = end.new.fault;
    } }
{
    let ids = end.ids(alloc)?;
    if are_over(end, ids.as_slice()) {
        return write_all_out(end, writer);
    }
    wait(end, ids.as_slice(), reader, writer)
}

// Takes turns until the calls of all these ids are over, the input ends or the end fails.
fn wait<R: Read, W: Write>(
    end: &mut ClientEnd<'_>,
    ids: &[u32],
    reader: &mut R,
    writer: &mut W,
) -> Result<(), Failure>
    ensures waits { Waits (client_hears end.old.interface.now) (are_over ids.now)
        (between (R.remaining reader.old) (W.contents writer.old) end.old.outgoing end.old.framer
        end.old.calls end.old.fault)
        result
        (between (R.remaining reader.new) (W.contents writer.new) end.new.outgoing end.new.framer
        end.new.calls end.new.fault) }
    ensures others { end.new ≡ record end.old {
      outgoing = end.new.outgoing;
      framer = end.new.framer;
      calls = end.new.calls;
      fault = end.new.fault;
    } }
{
    'turns: for done in 0..TURNS {
        if !goes_on(end, reader, writer)? {
            return Ok(());
        }
        if are_over(end, ids) {
            return Ok(());
        }
    }
    Err(Failure::TurnsSpent)
}

// Whether the calls of all ids are over.
fn are_over(end: &ClientEnd<'_>, ids: &[u32]) -> bool
    ensures { result ≡ are_over ids.now end.now.calls }
{
    ids.iter().all(|id| is_over_at(end, *id))
}

// Whether the call of an id is over.
fn is_over_at(end: &ClientEnd<'_>, id: u32) -> bool
    ensures { result ≡ is_over (entry_of (finite.get end.now.calls.table id)) }
{
    is_over(end.entry(id))
}

// Whether the call of an entry is over; it is where there is no entry.
fn is_over(entry: Option<&ClientEntry>) -> bool
    ensures { result ≡ is_over (option_copied entry.entry) }
{
    match entry {
        Some(entry) => entry.is_closed(),
        None => true,
    }
}

// The status of the calls: whether one was refused, and what the others came to.
fn call_status(
    alloc: Global,
    refused: Option<SessionFault>,
    end: &ClientEnd<'_>,
) -> Result<Status, Failure>
    ensures { IfOk result (λ status. status
        ≡ call_status refused end.now.fault end.now.calls.table) }
{
    match refused {
        Some(fault) => Ok(broken_status(fault)),
        None => own_status(alloc, end),
    }
}

// The status of the calls where none was refused.
fn own_status(alloc: Global, end: &ClientEnd<'_>) -> Result<Status, Failure>
    ensures { IfOk result (λ status. status ≡ call_status None end.now.fault end.now.calls.table) }
{
    if all_well(alloc, end)? {
        return Ok(Status::Done);
    }
    Ok(match end.fault() {
        Some(fault) => broken_status(fault),
        None => Status::Refused,
    })
}

// Whether all calls went well.
fn all_well(alloc: Global, end: &ClientEnd<'_>) -> Result<bool, AllocError>
    ensures { IfOk result (λ well. well ≡ all_well end.now.calls.table) }
{
    let ids = end.ids(alloc)?;
    Ok(are_well(end, ids.as_slice()))
}

// Whether the calls of all ids went well.
fn are_well(end: &ClientEnd<'_>, ids: &[u32]) -> bool
    ensures { result
        ≡ list_all (λ id. is_well (entry_of (finite.get end.now.calls.table id))) ids.now }
{
    ids.iter().all(|id| is_well_at(end, *id))
}

// Whether the call of an id went well.
fn is_well_at(end: &ClientEnd<'_>, id: u32) -> bool
    ensures { result ≡ is_well (entry_of (finite.get end.now.calls.table id)) }
{
    is_well(end.entry(id))
}

// Whether the call of an entry went well: it got a result, or is sent and expects no reply. It did
// where there is no entry.
fn is_well(entry: Option<&ClientEntry>) -> bool
    ensures { result ≡ is_well (option_copied entry.entry) }
{
    match entry {
        Some(ClientEntry::Done { reply, .. }) => reply.body.status() == 0,
        Some(ClientEntry::OnewaySent { .. }) | None => true,
        Some(_) => false,
    }
}
