//! `trace`: both directions of one connection, a line for each call when it is over.
ghost use Rattle.std.specs.Prelude.{◌≡◌, ◌↔◌, [], None, IfNone, IfSome, IfOk, OnOk, false, true};
ghost use Rattle.std.specs.Io.KnownBytes.{Appends, IsAtEnd, Keeps};
ghost use Rattle.giop_trace.specs.Observing.{left};
ghost use Rattle.giop_show.specs.Status.{IsJudged};
ghost use Rattle.giop_tracing.specs.Trace.Outcome.{status_of_both};
ghost use Rattle.giop_tracing.specs.Trace.Loops.{BothAreHeard, ClientIsHeard, IsBegun, IsHeardOut, IsNextOfServer, SameForm, ServerEnds, ServerIsHeard, lines_by};
ghost use Rattle.giop_tracing.specs.Trace.Text.{Traces, all_open, flow_line, over_as, still_open};

mod answer_part;
mod answered;
mod asked;
mod asked_part;
pub mod call_line;
mod incoming;
mod json;
mod message_part;
pub mod text;
mod usual_line;

use crate::trace::call_line::{Unanswered, write_call};
use crate::trace::incoming::{Brought, Incoming};
use giop_forms::LineForm;
use giop_show::failure::Failure;
use giop_show::status::Status;
use giop_trace::{Direction, Flow, Observer};
use giop_types::Interface;
use std::alloc::{AllocError, Global};
use std::io;
use std::io::{ErrorKind, Read, Write};

/// Which directions of a connection are heard.
#[derive(Clone, Copy, Debug, PartialEq, Eq)]
pub enum Heard {
    /// What the client sent, alone.
    Client,
    /// What both sent.
    Both,
}

// The observer of a connection, what is left of each direction, and a message of the server that
// waits for its request.
#[derive(Drop)]
struct Tracing {
    form: LineForm,
    observer: Observer,
    client: Incoming,
    server: Incoming,
    held: Option<Brought>,
}

impl Tracing {
    // Gives the memory of a call that is over back to the directions that brought its messages.
    #[inline(always)]
    fn give_back(&mut self, flow: &mut Option<Flow>)
        ensures { self.new ≡ self.old }
    {
        let Some(flow) = flow else {
            return;
        };
        if let Some(message) = flow.asked.take() {
            self.client.reuse(message);
        }
        if let Some(message) = flow.answer.take() {
            self.server.reuse(message);
        }
    }
}

/// Writes a line for each call of a connection when it is over, then one for each that is open, by
/// the octets that two readers give: what the client sent, and what the server sent. Where the
/// client alone is heard, nothing is read from the other reader, and a call is over when its
/// request is whole. The last lines are how many octets of each direction are left, or the fault
/// that ends it. It is `Done` where none are left, `LimitPassed` where a message is larger than the
/// limit, else `Refused`. Each line has this form.
///
/// After each message of the client, those of the server are read up to the first Reply whose
/// request isn't whole yet; that one waits. At the end of the client's, what is left of the
/// server's is read. No more is held than a message and a piece of each, and the calls that are
/// open.
pub fn trace_stream<C: Read, S: Read, W: Write>(
    alloc: Global,
    interface: &Interface,
    limit: u32,
    form: LineForm,
    heard: Heard,
    client: &mut C,
    server: &mut S,
    writer: &mut W,
) -> Result<Status, Failure>
    ensures client { IfOk result (λ status. status ≡ Status.Done
        → IsAtEnd (C.remaining client.new)) }
    ensures server { IfOk result (λ status. status ≡ Status.Done → heard ≡ Heard.Both
        → IsAtEnd (S.remaining server.new)) }
    ensures alone { heard ≡ Heard.Client → S.remaining server.new ≡ S.remaining server.old }
    ensures text { OnOk result (Traces form interface.now limit heard
        (C.remaining client.old) (S.remaining server.old)
        (W.contents writer.old) (W.contents writer.new)) }
    ensures judged { IfOk result IsJudged }
{
    let mut tracing = begun(alloc, limit, form, heard)?;
    match heard {
        Heard::Client => trace_client(alloc, interface, &mut tracing, client, writer),
        Heard::Both => trace_both(alloc, interface, &mut tracing, client, server, writer),
    }
}

// Traces what the client sent, alone, from its beginning.
fn trace_client<C: Read, W: Write>(
    alloc: Global,
    interface: &Interface,
    tracing: &mut Tracing,
    client: &mut C,
    writer: &mut W,
) -> Result<Status, Failure>
    requires { IsBegun Heard.Client tracing.old }
    ensures client { IfOk result (λ status. status ≡ Status.Done
        → IsAtEnd (C.remaining client.new)) }
    ensures text { OnOk result (Traces tracing.old.form interface.now
        tracing.old.client.framer.limit Heard.Client (C.remaining client.old) None
        (W.contents writer.old) (W.contents writer.new)) }
    ensures judged { IfOk result IsJudged }
{
    hear_client(alloc, interface, tracing, client, writer)?;
    write_open(alloc, interface, tracing, writer)?;
    tracing
        .client
        .write_end(tracing.form, Direction::Client, writer)
}

// Traces what both sent, from the beginning.
fn trace_both<C: Read, S: Read, W: Write>(
    alloc: Global,
    interface: &Interface,
    tracing: &mut Tracing,
    client: &mut C,
    server: &mut S,
    writer: &mut W,
) -> Result<Status, Failure>
    requires { IsBegun Heard.Both tracing.old }
    ensures client { IfOk result (λ status. status ≡ Status.Done
        → IsAtEnd (C.remaining client.new)) }
    ensures server { IfOk result (λ status. status ≡ Status.Done
        → IsAtEnd (S.remaining server.new)) }
    ensures text { OnOk result (Traces tracing.old.form interface.now
        tracing.old.client.framer.limit Heard.Both (C.remaining client.old)
        (S.remaining server.old) (W.contents writer.old) (W.contents writer.new)) }
    ensures judged { IfOk result IsJudged }
{
    hear_both(alloc, interface, tracing, client, server, writer)?;
    write_open(alloc, interface, tracing, writer)?;
    let form = tracing.form;
    let client = tracing.client.write_end(form, Direction::Client, writer)?;
    let server = tracing.server.write_end(form, Direction::Server, writer)?;
    Ok(status_of_both(client, server))
}

// Nothing of a connection is read. Messages of both directions may have this size.
fn begun(alloc: Global, limit: u32, form: LineForm, heard: Heard) -> Result<Tracing, AllocError>
    ensures limit { IfOk result (λ tracing. tracing.client.framer.limit ≡ limit) }
    ensures form { IfOk result (λ tracing. tracing.form ≡ form) }
    ensures begun { IfOk result (IsBegun heard) }
{
    Ok(Tracing {
        form,
        observer: Observer::new(alloc, heard == Heard::Client),
        client: Incoming::new(alloc, limit)?,
        server: Incoming::new(alloc, limit)?,
        held: None,
    })
}

// The status of two directions: done exactly where both are; a limit that was passed is told before
// a refusal.
fn status_of_both(client: Status, server: Status) -> Status
    ensures value { result ≡ status_of_both client server }
    ensures done { (result ≡ Status.Done) ↔ ((client ≡ Status.Done) × (server ≡ Status.Done)) }
    ensures judged { IsJudged client → IsJudged server → IsJudged result }
{
    match (client, server) {
        (Status::Done, _) => server,
        (Status::Refused, Status::LimitPassed(_)) => server,
        _ => client,
    }
}

// Hears all messages of the client.
fn hear_client<C: Read, W: Write>(
    alloc: Global,
    interface: &Interface,
    tracing: &mut Tracing,
    client: &mut C,
    writer: &mut W,
) -> Result<(), Failure>
    requires { tracing.old.observer.alone ≡ true }
    ensures end { OnOk result (tracing.new.client.fault ≡ None
        → IsAtEnd (C.remaining client.new)) }
    ensures same { OnOk result (SameForm tracing.old tracing.new) }
    ensures text { OnOk result (ClientIsHeard interface.now tracing.old tracing.new
        (C.remaining client.old) (W.contents writer.old) (W.contents writer.new)) }
{
    'messages: for _ in 0..u64::MAX {
        let Some(message) = tracing.client.next(client, writer)? else {
            return Ok(());
        };
        tell(
            alloc,
            interface,
            tracing,
            Direction::Client,
            message,
            writer,
        )?;
    }
    Err(too_long())
}

// Hears all messages of both.
fn hear_both<C: Read, S: Read, W: Write>(
    alloc: Global,
    interface: &Interface,
    tracing: &mut Tracing,
    client: &mut C,
    server: &mut S,
    writer: &mut W,
) -> Result<(), Failure>
    requires alone { tracing.old.observer.alone ≡ false }
    requires limit { tracing.old.server.framer.limit ≡ tracing.old.client.framer.limit }
    ensures client { OnOk result (tracing.new.client.fault ≡ None
        → IsAtEnd (C.remaining client.new)) }
    ensures server { OnOk result (tracing.new.server.fault ≡ None
        → IsAtEnd (S.remaining server.new)) }
    ensures same { OnOk result (SameForm tracing.old tracing.new) }
    ensures text { OnOk result (BothAreHeard interface.now tracing.old tracing.new
        (C.remaining client.old) (S.remaining server.old)
        (W.contents writer.old) (W.contents writer.new)) }
{
    'messages: for _ in 0..u64::MAX {
        let Some(message) = tracing.client.next(client, writer)? else {
            return hear_server(alloc, interface, tracing, false, server, writer);
        };
        tell(
            alloc,
            interface,
            tracing,
            Direction::Client,
            message,
            writer,
        )?;
        hear_server(alloc, interface, tracing, true, server, writer)?;
    }
    Err(too_long())
}

// Hears the messages of the server: to their end, or up to the first whose request isn't whole yet.
fn hear_server<S: Read, W: Write>(
    alloc: Global,
    interface: &Interface,
    tracing: &mut Tracing,
    waits: bool,
    server: &mut S,
    writer: &mut W,
) -> Result<(), Failure>
    requires { tracing.old.observer.alone ≡ false }
    ensures end { OnOk result (waits ≡ false → tracing.new.server.fault ≡ None
        → IsAtEnd (S.remaining server.new)) }
    ensures client { tracing.new.client ≡ tracing.old.client }
    ensures same { OnOk result (SameForm tracing.old tracing.new) }
    ensures text { OnOk result (ServerIsHeard interface.now waits tracing.old tracing.new
        (S.remaining server.old) (S.remaining server.new)
        (W.contents writer.old) (W.contents writer.new)) }
    ensures last { OnOk result (waits ≡ false
        → ServerEnds tracing.old tracing.new (S.remaining server.old)) }
{
    'messages: for _ in 0..u64::MAX {
        let Some(message) = next_of_server(tracing, server, writer)? else {
            return Ok(());
        };
        if waits && tracing.observer.is_early(&message.message) {
            tracing.held = Some(message);
            return Ok(());
        }
        tell(
            alloc,
            interface,
            tracing,
            Direction::Server,
            message,
            writer,
        )?;
    }
    Err(too_long())
}

// The message of the server that waits, or else the next one.
fn next_of_server<S: Read, W: Write>(
    tracing: &mut Tracing,
    server: &mut S,
    writer: &mut W,
) -> Result<Option<Brought>, Failure>
    ensures end { IfOk result (λ o. IfNone o (tracing.new.server.fault ≡ None
        → IsAtEnd (S.remaining server.new))) }
    ensures client { tracing.new.client ≡ tracing.old.client }
    ensures observer { tracing.new.observer ≡ tracing.old.observer }
    ensures same { OnOk result (SameForm tracing.old tracing.new) }
    ensures held { OnOk result (tracing.new.held ≡ None) }
    ensures text { OnOk result (Keeps (W.contents writer.old) (W.contents writer.new)) }
    ensures found { IfOk result (λ o. IfSome o (λ brought. IsNextOfServer tracing.old tracing.new
        (S.remaining server.old) (S.remaining server.new) brought.message)) }
    ensures none { IfOk result (λ o. IfNone o (tracing.old.held ≡ None)) }
    ensures last { IfOk result (λ o. IfNone o (IsHeardOut tracing.old.server tracing.new.server
        (S.remaining server.old) (S.remaining server.new))) }
{
    match tracing.held.take() {
        Some(message) => Ok(Some(message)),
        None => tracing.server.next(server, writer),
    }
}

// Writes the lines of the calls that are over by a message.
fn tell<W: Write>(
    alloc: Global,
    interface: &Interface,
    tracing: &mut Tracing,
    direction: Direction,
    brought: Brought,
    writer: &mut W,
) -> Result<(), Failure>
    ensures client { tracing.new.client ≡ tracing.old.client }
    ensures server { tracing.new.server ≡ tracing.old.server }
    ensures held { tracing.new.held ≡ tracing.old.held }
    ensures same { OnOk result (SameForm tracing.old tracing.new) }
    ensures calls { OnOk result (tracing.new.observer.calls.entries
        ≡ left tracing.old.observer.alone tracing.old.observer.calls.entries direction
        brought.message) }
    ensures text { OnOk result (Appends (W.contents writer.old) (W.contents writer.new)
        (lines_by tracing.old interface.now direction brought.message)) }
{
    let (form, alone) = (tracing.form, tracing.observer.alone);
    // Told where it lies: to move it takes as long as to hear it.
    match &mut tracing.observer.hear(direction, brought.message) {
        Ok(told) => {
            let open = still_open(alone);
            write_flow(alloc, interface, form, told.id, open, &told.earlier, writer)?;
            let over = over_as(alone, told.id);
            write_flow(alloc, interface, form, told.id, over, &told.over, writer)?;
            tracing.give_back(&mut told.earlier);
            tracing.give_back(&mut told.over);
            Ok(())
        }
        Err(_) => Err(Failure::Memory),
    }
}

// Writes the line of a call, if there is one.
#[inline(always)]
fn write_flow<W: Write>(
    alloc: Global,
    interface: &Interface,
    form: LineForm,
    id: Option<u32>,
    unanswered: Unanswered,
    flow: &Option<Flow>,
    writer: &mut W,
) -> Result<(), Failure>
    ensures { OnOk result (Appends (W.contents writer.old) (W.contents writer.new)
        (flow_line form interface.now id unanswered flow.now)) }
{
    match flow {
        Some(flow) => write_call(alloc, interface, form, id, flow, unanswered, writer),
        None => Ok(()),
    }
}

// Writes the lines of the calls that are open at the end, in ascending order of their ids.
fn write_open<W: Write>(
    alloc: Global,
    interface: &Interface,
    tracing: &Tracing,
    writer: &mut W,
) -> Result<(), Failure>
    ensures { OnOk result (Appends (W.contents writer.old) (W.contents writer.new)
        (all_open tracing.now.form interface.now tracing.now.observer.alone
        tracing.now.observer.calls.entries)) }
{
    let (observer, form) = (&tracing.observer, tracing.form);
    let ids = observer.ids(alloc)?;
    let open = still_open(observer.alone);
    for id in &ids {
        if let Some(flow) = observer.flow(*id) {
            write_call(alloc, interface, form, Some(*id), flow, open, writer)?;
        }
    }
    Ok(())
}

// What is said of a call without an answer that is open at its end.
fn still_open(alone: bool) -> Unanswered
    ensures { result ≡ still_open alone }
{
    if alone {
        Unanswered::Untold
    } else {
        Unanswered::NoAnswer
    }
}

// What is said of a call without an answer that is over, by its id: no reply is expected.
fn over_as(alone: bool, id: Option<u32>) -> Unanswered
    ensures { result ≡ over_as alone id }
{
    match id {
        Some(_) if !alone => Unanswered::Oneway,
        _ => still_open(alone),
    }
}

fn too_long() -> Failure {
    Failure::Input(io::Error::from(ErrorKind::FileTooLarge))
}
