//! What is stored for the id of a call at a client, as C sees it.
ghost use Rattle.std.specs.Prelude.{◌≡◌, Some, option_copied};
ghost use Rattle.std.specs.Option.{option_map};
ghost use Rattle.giop_msg.specs.Messages.Reply.{completion_number};
ghost use Rattle.giop_calls.specs.declared.client.entry.ClientEntry.TheVariants.{Cancelled, Done};
ghost use Rattle.giop_c.specs.Client.Entries.{body_in, body_of, c_client_row, contexts_in, contexts_of, exception_in, exception_of_body, forward_in, forward_of_body, row_of_body};

use giop_calls::{ClientEntry, Late};
use giop_ior::Ior;
use giop_msg::{Completion, Reply, ReplyBody, Request, ServiceContexts};

/// What is stored for the id of a call at a client, as C sees it: `giop_client_entry`.
#[repr(C)]
#[derive(Clone, Copy, Debug, PartialEq, Eq)]
pub struct ClientRow {
    /// The number of octets of the repository id of the Reply's exception; 0 where it has none.
    pub exception: usize,
    /// How many service contexts the Reply has; 0 where none came.
    pub contexts: usize,
    /// The place of the fault of a reply that can't be decoded; else 0.
    pub at: usize,
    /// The number of that fault; else 0.
    pub number: u32,
    /// How many pieces of the call aren't sent yet.
    pub left: u32,
    /// The status of the Reply or the LocateReply, where one came; else 0.
    pub status: u32,
    /// The minor code of an exception of the broker; else 0.
    pub minor: u32,
    /// Whether its operation was completed: 0 yes, 1 no, 2 that isn't known; else 0.
    pub completion: u32,
    /// The addressing disposition that the Reply asks for; else 0.
    pub addressing: i16,
    /// What is stored: 1, 3 or 8 to 13; 0 for nothing.
    pub kind: u8,
    /// 1 where the call is over, and may be taken out; else 0.
    pub over: u8,
    /// What the call came to, 0 to 5.
    pub outcome: u8,
}

// Nothing is stored. Each kind of entry is a row that says what it has, and has these zeros else.
const NOTHING: ClientRow = ClientRow {
    exception: 0,
    contexts: 0,
    at: 0,
    number: 0,
    left: 0,
    status: 0,
    minor: 0,
    completion: 0,
    addressing: 0,
    kind: 0,
    over: 0,
    outcome: 0,
};

impl ClientRow {
    /// What is stored. It takes no memory.
    pub fn of(entry: Option<&ClientEntry>) -> ClientRow
        ensures { result ≡ c_client_row (option_copied entry.entry) }
    {
        match entry {
            Some(entry) => row_in(entry),
            None => NOTHING,
        }
    }
}

// The row of an entry, by one look at its kind.
fn row_in(entry: &ClientEntry) -> ClientRow
    ensures { result ≡ c_client_row (Some entry.now) }
{
    match entry {
        ClientEntry::Sending { left, .. } => ClientRow {
            kind: 9,
            left: *left,
            ..NOTHING
        },
        ClientEntry::Waiting { .. } => ClientRow {
            kind: 10,
            ..NOTHING
        },
        ClientEntry::Gathering { .. } => ClientRow { kind: 1, ..NOTHING },
        ClientEntry::Done { request, reply } => row_of_done(request, reply),
        ClientEntry::LocateDone { reply, .. } => ClientRow {
            kind: 12,
            over: 1,
            outcome: 4,
            status: reply.head.status,
            ..NOTHING
        },
        ClientEntry::Undecoded { fault, .. } => ClientRow {
            kind: 3,
            over: 1,
            outcome: 5,
            number: u32::from(fault.number()),
            at: fault.at,
            ..NOTHING
        },
        ClientEntry::OnewaySent { .. } => ClientRow {
            kind: 13,
            over: 1,
            outcome: 2,
            ..NOTHING
        },
        ClientEntry::Cancelled { late } => row_of_cancelled(*late),
    }
}

// A Request whose Reply came.
fn row_of_done(request: &Request, reply: &Reply) -> ClientRow
    ensures { result ≡ c_client_row (Some (Done request.now reply.now)) }
{
    ClientRow {
        kind: 11,
        over: 1,
        outcome: 3,
        contexts: reply.contexts.len(),
        status: reply.body.status(),
        ..row_of_body(&reply.body)
    }
}

// What a Reply brought, in a row of no kind.
fn row_of_body(body: &ReplyBody) -> ClientRow
    ensures { result ≡ row_of_body body.now }
{
    match body {
        ReplyBody::NoException(_) => NOTHING,
        ReplyBody::UserException { id, .. } => ClientRow {
            exception: id.len(),
            ..NOTHING
        },
        ReplyBody::SystemException {
            id,
            minor,
            completion,
        } => ClientRow {
            exception: id.len(),
            minor: *minor,
            completion: completion_number(*completion),
            ..NOTHING
        },
        ReplyBody::Forward(_) => NOTHING,
        ReplyBody::ForwardPerm(_) => NOTHING,
        ReplyBody::NeedsAddressing(disposition) => ClientRow {
            addressing: *disposition,
            ..NOTHING
        },
    }
}

// A cancelled call is over where its reply came all the same.
fn row_of_cancelled(late: Late) -> ClientRow
    ensures { result ≡ c_client_row (Some (Cancelled late)) }
{
    let row = ClientRow {
        kind: 8,
        outcome: 1,
        ..NOTHING
    };
    match late {
        Late::None => row,
        Late::Begun => row,
        Late::Seen => ClientRow { over: 1, ..row },
    }
}

/// What the Reply under an id brought, where it came and could be decoded.
pub fn body_of(entry: Option<&ClientEntry>) -> Option<&ReplyBody>
    ensures { option_copied result ≡ body_of (option_copied entry.entry) }
{
    body_in(entry?)
}

fn body_in(entry: &ClientEntry) -> Option<&ReplyBody>
    ensures { option_copied result ≡ body_in entry.now }
{
    match entry {
        ClientEntry::Done { reply, .. } => Some(&reply.body),
        _ => None,
    }
}

/// The service contexts of the Reply under an id, where it came and could be decoded.
pub fn contexts_of(entry: Option<&ClientEntry>) -> Option<&ServiceContexts>
    ensures { option_copied result ≡ contexts_of (option_copied entry.entry) }
{
    contexts_in(entry?)
}

fn contexts_in(entry: &ClientEntry) -> Option<&ServiceContexts>
    ensures { option_copied result ≡ contexts_in entry.now }
{
    match entry {
        ClientEntry::Done { reply, .. } => Some(&reply.contexts),
        _ => None,
    }
}

/// The repository id of an exception, the interface's or the broker's.
pub fn exception_in(body: Option<&ReplyBody>) -> Option<&[u8]>
    ensures { option_map (λ octets. octets.now) result ≡ exception_in (option_copied body.entry) }
{
    exception_of_body(body?)
}

fn exception_of_body(body: &ReplyBody) -> Option<&[u8]>
    ensures { option_map (λ octets. octets.now) result ≡ exception_of_body body.now }
{
    match body {
        ReplyBody::UserException { id, .. } => Some(id.as_slice()),
        ReplyBody::SystemException { id, .. } => Some(id.as_slice()),
        _ => None,
    }
}

/// The reference to which a request is forwarded.
pub fn forward_in(body: Option<&ReplyBody>) -> Option<&Ior>
    ensures { option_copied result ≡ forward_in (option_copied body.entry) }
{
    forward_of_body(body?)
}

fn forward_of_body(body: &ReplyBody) -> Option<&Ior>
    ensures { option_copied result ≡ forward_of_body body.now }
{
    match body {
        ReplyBody::Forward(ior) => Some(ior),
        ReplyBody::ForwardPerm(ior) => Some(ior),
        _ => None,
    }
}

fn completion_number(completion: Completion) -> u32
    ensures { result ≡ completion_number completion }
{
    match completion {
        Completion::Yes => 0,
        Completion::No => 1,
        Completion::Maybe => 2,
    }
}
