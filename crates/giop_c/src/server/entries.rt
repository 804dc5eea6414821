//! What is stored for the id of a call at a server, as C sees it.
ghost use Rattle.std.specs.Prelude.{◌≡◌, option_copied, Some};
ghost use Rattle.std.specs.Option.{option_map};
ghost use Rattle.giop_msg.specs.Target.{key_of};
ghost use Rattle.giop_calls.specs.declared.server.entry.ServerEntry.TheVariants.{Answered, Cancelled, Undecoded};
ghost use Rattle.giop_c.specs.Server.Entries.{c_server_row, contexts_in, key_in, key_size, operation_in, request_asked, request_in, request_of, row_of_fault, row_of_part, row_of_question, row_of_request, target_asked, target_in, target_of, version_asked, version_in};

use giop_calls::{Aside, CallKind, Question, ServerEntry, UndecodedCall};
use giop_cdr::CdrFault;
use giop_msg::{Reply, Request, RequestFault, ServiceContexts, Target, Version};

/// What is stored for the id of a call at a server, as C sees it: `giop_server_entry`.
#[repr(C)]
#[derive(Clone, Copy, Debug, PartialEq, Eq)]
pub struct ServerRow {
    /// The number of octets of the operation's name, without its null; 0 where no Request is known.
    pub operation: usize,
    /// The number of octets of the object's key; 0 where the target is no key.
    pub key: usize,
    /// How many service contexts the Request has; 0 where none is known.
    pub contexts: usize,
    /// The place of the fault of a call that can't be decoded; else 0.
    pub at: usize,
    /// The number of that fault, where it is of the head or of the body; else 0.
    pub number: u32,
    /// How many pieces of the reply aren't sent yet.
    pub left: u32,
    /// The status of the Reply or the LocateReply, where one was answered; else 0.
    pub status: u32,
    /// The part of that fault: 1 the head, 2 the operation, 3 the body; else 0.
    pub part: u8,
    /// What is stored, 1 to 8; 0 for nothing.
    pub kind: u8,
    /// What the call waits for: 1 a Reply, 2 a LocateReply, 0 nothing.
    pub awaits: u8,
    /// 1 where the call is over, and may be taken out; else 0.
    pub over: u8,
    /// What the call came to, 0 to 5.
    pub outcome: u8,
    /// The response flags of the Request; 0 where none is known.
    pub flags: u8,
}

// Nothing is stored. Each kind of entry is a row that says what it has, and has these zeros else.
const NOTHING: ServerRow = ServerRow {
    operation: 0,
    key: 0,
    contexts: 0,
    at: 0,
    number: 0,
    left: 0,
    status: 0,
    part: 0,
    kind: 0,
    awaits: 0,
    over: 0,
    outcome: 0,
    flags: 0,
};

impl ServerRow {
    /// What is stored. It takes no memory.
    pub fn of(entry: Option<&ServerEntry>) -> ServerRow
        ensures { result ≡ c_server_row (option_copied entry.entry) }
    {
        match entry {
            Some(entry) => row_in(entry),
            None => NOTHING,
        }
    }
}

// The row of an entry, by one look at its kind.
fn row_in(entry: &ServerEntry) -> ServerRow
    ensures { result ≡ c_server_row (Some entry.now) }
{
    match entry {
        ServerEntry::Gathering { .. } => ServerRow { kind: 1, ..NOTHING },
        ServerEntry::Asked { request } => ServerRow {
            kind: 2,
            awaits: 1,
            ..row_of_request(request)
        },
        ServerEntry::Undecoded { call } => row_of_undecoded(call),
        ServerEntry::LocateAsked { request } => ServerRow {
            kind: 4,
            awaits: 2,
            key: key_of(&request.target).len(),
            ..NOTHING
        },
        ServerEntry::Answered { asked, reply, left } => row_of_answered(asked, reply, *left),
        ServerEntry::LocateAnswered { target, here } => ServerRow {
            kind: 6,
            over: 1,
            outcome: 4,
            status: u32::from(*here),
            key: key_size(target_located(target)),
            ..NOTHING
        },
        ServerEntry::Delivered { request } => ServerRow {
            kind: 7,
            over: 1,
            outcome: 2,
            ..row_of_request(request)
        },
        ServerEntry::Cancelled { answered, left } => row_of_cancelled(*answered, *left),
    }
}

// What a Request says, in a row of no kind.
fn row_of_request(request: &Request) -> ServerRow
    ensures { result ≡ row_of_request request.now }
{
    ServerRow {
        operation: request.head.operation.len(),
        key: key_of(&request.head.target).len(),
        contexts: request.head.contexts.len(),
        flags: request.head.flags,
        ..NOTHING
    }
}

// What is wrong with a call that can't be decoded, in a row of no kind.
fn row_of_fault(fault: RequestFault) -> ServerRow
    ensures { result ≡ row_of_fault fault }
{
    match fault {
        RequestFault::Header(fault) => row_of_part(1, fault),
        RequestFault::Operation => ServerRow { part: 2, ..NOTHING },
        RequestFault::Body(fault) => row_of_part(3, fault),
    }
}

// What is wrong in a part of a call, in a row of no kind.
fn row_of_part(part: u8, fault: CdrFault) -> ServerRow
    ensures { result ≡ row_of_part part fault }
{
    ServerRow {
        part,
        number: u32::from(fault.number()),
        at: fault.at,
        ..NOTHING
    }
}

// What an answered call was, in a row of no kind.
fn row_of_question(asked: &Question) -> ServerRow
    ensures { result ≡ row_of_question asked.now }
{
    match asked {
        Question::Request(request) => row_of_request(request),
        Question::Undecoded(fault) => row_of_fault(*fault),
    }
}

// A call that can't be decoded is over where no reply is expected.
fn row_of_undecoded(call: &UndecodedCall) -> ServerRow
    ensures { result ≡ c_server_row (Some (Undecoded call.now)) }
{
    let row = ServerRow {
        kind: 3,
        ..row_of_fault(call.fault)
    };
    match call.expects {
        None => ServerRow {
            over: 1,
            outcome: 5,
            ..row
        },
        Some(CallKind::Request) => ServerRow { awaits: 1, ..row },
        Some(CallKind::Locate) => ServerRow { awaits: 2, ..row },
    }
}

// An answered call is over where no piece of its reply is left.
fn row_of_answered(asked: &Question, reply: &Reply, left: u32) -> ServerRow
    ensures { result ≡ c_server_row (Some (Answered asked.now reply.now left)) }
{
    let row = ServerRow {
        kind: 5,
        status: reply.body.status(),
        left,
        ..row_of_question(asked)
    };
    if left == 0 {
        return ServerRow {
            over: 1,
            outcome: 3,
            ..row
        };
    }
    row
}

// A cancelled call is over where no piece of its reply is left.
fn row_of_cancelled(answered: bool, left: u32) -> ServerRow
    ensures { result ≡ c_server_row (Some (Cancelled answered left)) }
{
    ServerRow {
        kind: 8,
        left,
        over: u8::from(left == 0),
        outcome: 1,
        ..NOTHING
    }
}

/// The Request under an id, where it has one that could be decoded.
pub fn request_of(entry: Option<&ServerEntry>) -> Option<&Request>
    ensures { option_copied result ≡ request_of (option_copied entry.entry) }
{
    request_in(entry?)
}

fn request_in(entry: &ServerEntry) -> Option<&Request>
    ensures { option_copied result ≡ request_in entry.now }
{
    match entry {
        ServerEntry::Asked { request } => Some(request),
        ServerEntry::Delivered { request } => Some(request),
        ServerEntry::Answered { asked, .. } => request_asked(asked),
        _ => None,
    }
}

fn request_asked(asked: &Question) -> Option<&Request>
    ensures { option_copied result ≡ request_asked asked.now }
{
    match asked {
        Question::Request(request) => Some(request),
        Question::Undecoded(_) => None,
    }
}

/// The operation of a Request.
pub fn operation_in(request: Option<&Request>) -> Option<&[u8]>
    ensures { option_map (λ octets. octets.now) result ≡ operation_in (option_copied request.entry) }
{
    match request {
        Some(request) => Some(request.head.operation.as_slice()),
        None => None,
    }
}

/// The service contexts of a Request.
pub fn contexts_in(request: Option<&Request>) -> Option<&ServiceContexts>
    ensures { option_copied result ≡ contexts_in (option_copied request.entry) }
{
    match request {
        Some(request) => Some(&request.head.contexts),
        None => None,
    }
}

/// The target under an id, that of a Request or of a LocateRequest that could be decoded.
pub fn target_of(entry: Option<&ServerEntry>) -> Option<&Target>
    ensures { option_copied result ≡ target_of (option_copied entry.entry) }
{
    target_in(entry?)
}

fn target_in(entry: &ServerEntry) -> Option<&Target>
    ensures { option_copied result ≡ target_in entry.now }
{
    match entry {
        ServerEntry::Asked { request } => Some(&request.head.target),
        ServerEntry::Delivered { request } => Some(&request.head.target),
        ServerEntry::Answered { asked, .. } => target_asked(asked),
        ServerEntry::LocateAsked { request } => Some(&request.target),
        ServerEntry::LocateAnswered { target, .. } => target_located(target),
        _ => None,
    }
}

fn target_asked(asked: &Question) -> Option<&Target>
    ensures { option_copied result ≡ target_asked asked.now }
{
    match asked {
        Question::Request(request) => Some(&request.head.target),
        Question::Undecoded(_) => None,
    }
}

fn target_located(target: &Option<Aside<Target>>) -> Option<&Target>
    ensures { option_copied result ≡ target.now }
{
    match target {
        Some(target) => Some(target),
        None => None,
    }
}

/// The key of the object that a target is.
pub fn key_in(target: Option<&Target>) -> Option<&[u8]>
    ensures { option_map (λ octets. octets.now) result ≡ key_in (option_copied target.entry) }
{
    match target {
        Some(target) => Some(key_of(target)),
        None => None,
    }
}

// The octets of an object's key; none of another target.
fn key_of(target: &Target) -> &[u8]
    ensures { result.now ≡ key_of target.now }
{
    match target {
        Target::Key(key) => key.as_slice(),
        _ => &[],
    }
}

fn key_size(target: Option<&Target>) -> usize
    ensures { result ≡ key_size (option_copied target.entry) }
{
    match target {
        Some(target) => key_of(target).len(),
        None => 0,
    }
}

/// The version in which a call is answered; 1.2 where none waits for a Reply.
pub fn version_asked(entry: Option<&ServerEntry>) -> Version
    ensures { result ≡ version_asked (option_copied entry.entry) }
{
    match entry {
        Some(entry) => version_in(entry),
        None => Version::V12,
    }
}

fn version_in(entry: &ServerEntry) -> Version
    ensures { result ≡ version_in entry.now }
{
    match entry {
        ServerEntry::Asked { request } => request.head.version,
        ServerEntry::Undecoded { call } => call.version,
        _ => Version::V12,
    }
}
