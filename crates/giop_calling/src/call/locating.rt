//! `locate`: a client's end asks where an object is, and waits for the answer (CORBA 3.3 Part 2,
//! 9.4.5, 9.4.6). Its meaning is specs/Call/Locating.antt: change both.
ghost use Rattle.std.specs.Prelude.{◌≡◌, [], IfOk, OnOk, option_copied};
ghost use Rattle.std.specs.Io.KnownBytes.{Appends};
ghost use Rattle.giop_calls.specs.ClientTable.{is_closed};
ghost use Rattle.giop_end.specs.Acts.Form.{IsForm};
ghost use Rattle.giop_end.specs.Ends.View.{IsActedOn};
ghost use Rattle.giop_commands.specs.Session.Acts.{outbox_of};
ghost use Rattle.giop_calling.specs.Call.Calling.{IsNew, asked_of};
ghost use Rattle.giop_commands.specs.Session.Endings.{Ends};
ghost use Rattle.giop_calling.specs.Call.Locating.{is_here, locate_of, locate_status, Locates, LocatesEndOver, LocatesOne};
ghost use Rattle.giop_calling.specs.Call.Printed.{client_text};
ghost use Rattle.giop_commands.specs.Session.Printed.{told};
ghost use Rattle.giop_commands.specs.Session.Traffic.{traffic};

use crate::call::given::Calling;
use crate::call::talk;
use giop_calls::ClientEntry;
use giop_cdr::OctetList;
use giop_commands::session::ending::{Ending, ending_of};
use giop_commands::session::faults::broken::broken_status;
use giop_commands::session::given::{Pipes, Showing};
use giop_commands::session::sending::send_all;
use giop_commands::session::{told, told_of, write_session};
use giop_end::{ClientEnd, SessionFault};
use giop_msg::{LocateRequest, Target, Version};
use giop_show::failure::Failure;
use giop_show::status::Status;
use std::alloc::{AllocError, Global};
use std::io::{Read, Write};

/// The request id of the LocateRequest.
pub const ID: u32 = 1;

/// Asks where the object of `calling` is, by a new client's end: a LocateRequest under the id 1.
/// What is put out is written, and answers are read until that one is there or the input ends. Then
/// its line is printed, and the fault that ended the session, where one did.
///
/// It is `Done` where the answer is OBJECT_HERE; `LimitPassed` where a limit kept it from being;
/// else `Refused`. Where something fails, what failed is returned; where that is the connection,
/// the line is written before.
pub fn locate_over<R: Read, W: Write, O: Write>(
    alloc: Global,
    calling: Calling<'_>,
    pipes: &mut Pipes<R, W, O>,
) -> Result<Ending, Failure>
    ensures { IfOk result (LocatesEndOver calling.entry
        (traffic R.remaining W.contents O.contents pipes.old pipes.new)) }
{
    let mut end = ClientEnd::new(alloc, calling.interface, calling.limits);
    locate_with(alloc, &mut end, calling, pipes)
}

// Asks by a new end, and prints its table.
fn locate_with<R: Read, W: Write, O: Write>(
    alloc: Global,
    end: &mut ClientEnd<'_>,
    calling: Calling<'_>,
    pipes: &mut Pipes<R, W, O>,
) -> Result<Ending, Failure>
    requires { IsNew calling end.old }
    ensures { IfOk result (LocatesEndOver calling.entry
        (traffic R.remaining W.contents O.contents pipes.old pipes.new)) }
{
    let (lines, interface) = (calling.lines, calling.interface);
    let showing = Showing { lines, interface };
    let refused = locate_all(alloc, end, calling)?;
    match talk(alloc, end, refused, &mut pipes.reader, &mut pipes.writer) {
        Ok(()) => tell_located(alloc, showing, end, refused, &mut pipes.out),
        Err(Failure::Memory) => Err(Failure::Memory),
        Err(failure) => {
            write_session(alloc, showing, end, None, &mut pipes.out)?;
            pipes.out.flush()?;
            Err(failure)
        }
    }
}

/// Puts out the LocateRequest. Returns its fault where it is refused.
pub fn locate_all(
    alloc: Global,
    end: &mut ClientEnd<'_>,
    calling: Calling<'_>,
) -> Result<Option<SessionFault>, Failure>
    requires { end.old.limits ≡ calling.limits }
    ensures locates { IfOk result (λ refused. Locates (asked_of calling.entry []) end.old.fault
        (outbox_of end.old) refused (outbox_of end.new)) }
    ensures others { IsActedOn end.old end.new }
{
    if let Some(fault) = locate_one(alloc, end, calling)? {
        return Ok(Some(fault));
    }
    send_all(alloc, end)
}

// Puts out its first piece. Returns its fault where it is refused.
fn locate_one(
    alloc: Global,
    end: &mut ClientEnd<'_>,
    calling: Calling<'_>,
) -> Result<Option<SessionFault>, Failure>
    requires { end.old.limits ≡ calling.limits }
    ensures locates { IfOk result (λ refused. LocatesOne (asked_of calling.entry []) end.old.fault
        (outbox_of end.old) refused (outbox_of end.new)) }
    ensures others { IsActedOn end.old end.new }
{
    let request = request_of(alloc, calling.key, calling.version)?;
    told_of(end.locate(request, calling.form))
}

// The LocateRequest of the object of a key.
fn request_of(alloc: Global, key: &[u8], version: Version) -> Result<LocateRequest, AllocError>
    ensures { IfOk result (λ request. request ≡ locate_of key.now version) }
{
    Ok(LocateRequest {
        version,
        id: ID,
        target: Target::Key(OctetList::from_slice(alloc, key)?),
    })
}

/// Writes the line of the LocateRequest and the fault of the session, and returns what it came to,
/// as `locate_over` does.
pub fn tell_located<O: Write>(
    alloc: Global,
    showing: Showing<'_>,
    end: &ClientEnd<'_>,
    refused: Option<SessionFault>,
    out: &mut O,
) -> Result<Ending, Failure>
    ensures text { OnOk result (Appends (O.contents out.old) (O.contents out.new)
        (client_text showing.entry end.now.calls.table (told refused end.now.fault))) }
    ensures ok { IfOk result (λ ending. ending.status
        ≡ locate_status refused end.now.fault end.now.calls.table) }
    ensures ends { IfOk result (Ends is_closed (told refused end.now.fault) end.now.calls.table
        end.now.framer) }
{
    let fault = told(refused, end.fault());
    write_session(alloc, showing, end, fault, out)?;
    Ok(ending_of(alloc, end, fault, locate_status(refused, end))?)
}

// The status: whether the object is here.
fn locate_status(refused: Option<SessionFault>, end: &ClientEnd<'_>) -> Status
    ensures { result ≡ locate_status refused end.now.fault end.now.calls.table }
{
    match (refused, end.fault()) {
        (Some(why), _) => broken_status(why),
        (None, _) if is_here(end.entry(ID)) => Status::Done,
        (None, Some(why)) => broken_status(why),
        (None, None) => Status::Refused,
    }
}

// Whether an entry has the answer OBJECT_HERE.
fn is_here(entry: Option<&ClientEntry>) -> bool
    ensures { result ≡ is_here (option_copied entry.entry) }
{
    match entry {
        Some(ClientEntry::LocateDone { reply, .. }) => reply.head.status == 1,
        _ => false,
    }
}
