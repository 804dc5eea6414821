//! What `serve` answers to what is stored for an id. Its meaning is `due_to` and `reply_of` in
//! specs/Answering.antt: change both.
ghost use Rattle.std.specs.Prelude.{◌≡◌, map, option_map, IfOk};
ghost use Rattle.giop_types.specs.Values.Views.{value_view};
ghost use Rattle.giop_commands.specs.Answering.{answer_to, asked_ins, due_to, due_to_undecoded, fault_answer, given_at, given_body, given_to, is_object, not_done, reply_of, result_for};
ghost use Rattle.giop_commands.specs.Objects.{object_of};

use crate::serve::answers::AnswerGiven;
use crate::serve::given::ServedObject;
use crate::serve::in_turn::Passed;
use crate::serve::is_a::is_a_body;
use crate::serve::objects::{object_at, object_for};
use giop_calls::{CallKind, ServerEntry};
use giop_cdr::OctetList;
use giop_msg::{Completion, Reply, ReplyBody, RequestFault, ServiceContexts, Target, Version};
use giop_show::failure::Failure;
use giop_types::{Interface, Offer, Value, ValueList};
use std::alloc::{AllocError, Global};

/// What is answered to a Request.
#[derive(Clone, Copy, Debug, PartialEq, Eq)]
pub enum Answer {
    /// What is given for its operation; no values of it where the caller wants none.
    Given {
        /// Whether the caller wants none.
        quiet: bool,
    },
    /// OBJECT_NOT_EXIST: the object isn't the one that is served.
    NoObject,
    /// BAD_OPERATION: the interface has no such operation.
    BadOperation,
    /// MARSHAL: the head or the values can't be decoded.
    Marshal,
    /// NEEDS_ADDRESSING_MODE: the object is to be addressed by its key.
    Addressing,
}

/// What is due to what is stored for an id.
#[derive(Clone, Copy, Debug, PartialEq, Eq)]
pub enum Due {
    /// Nothing is.
    Nothing,
    /// A LocateReply.
    Locate {
        /// Whether the object is here.
        here: bool,
    },
    /// A Reply.
    Reply {
        /// In the version of its Request.
        version: Version,
        /// What it answers.
        answer: Answer,
    },
}

/// What is due to what is stored for an id, where these objects are served.
pub fn due_to(objects: &[ServedObject<'_>], entry: &ServerEntry) -> Due
    ensures { result ≡ due_to (map object_of objects.now) entry.now }
{
    match entry {
        ServerEntry::Asked { request } => {
            let head = &request.head;
            let answer = answer_to(objects, head.flags, &head.target);
            let version = head.version;
            Due::Reply { version, answer }
        }
        ServerEntry::Undecoded { call } => due_to_undecoded(call.expects, call.version, call.fault),
        ServerEntry::LocateAsked { request } => {
            let here = is_object(objects, &request.target);
            Due::Locate { here }
        }
        _ => Due::Nothing,
    }
}

fn answer_to(objects: &[ServedObject<'_>], flags: u8, target: &Target) -> Answer
    ensures { result ≡ answer_to (map object_of objects.now) flags target.now }
{
    match target {
        Target::Key(key) => {
            if object_at(objects, key.as_slice()).is_some() {
                let quiet = flags == 1;
                Answer::Given { quiet }
            } else {
                Answer::NoObject
            }
        }
        Target::Profile(_) => Answer::Addressing,
        Target::Reference { .. } => Answer::Addressing,
    }
}

fn is_object(objects: &[ServedObject<'_>], target: &Target) -> bool
    ensures { result ≡ is_object (map object_of objects.now) target.now }
{
    object_for(objects, target).is_some()
}

fn due_to_undecoded(expects: Option<CallKind>, version: Version, fault: RequestFault) -> Due
    ensures { result ≡ due_to_undecoded expects version fault }
{
    match expects {
        Some(CallKind::Request) => {
            let answer = fault_answer(fault);
            Due::Reply { version, answer }
        }
        Some(CallKind::Locate) => Due::Locate { here: false },
        None => Due::Nothing,
    }
}

fn fault_answer(fault: RequestFault) -> Answer
    ensures { result ≡ fault_answer fault }
{
    match fault {
        RequestFault::Operation => Answer::BadOperation,
        RequestFault::Header(_) => Answer::Marshal,
        RequestFault::Body(_) => Answer::Marshal,
    }
}

/// The Reply to what is stored for an id, by what objects offer and their answers, of which some are
/// passed.
pub fn reply_to(
    alloc: Global,
    interface: &Interface,
    objects: &[ServedObject<'_>],
    passed: &Passed,
    id: u32,
    entry: &ServerEntry,
    version: Version,
    answer: Answer,
) -> Result<Reply, Failure>
    ensures { IfOk result (λ reply. reply
        ≡ reply_of interface.now (map object_of objects.now) passed.now.names.items id entry.now
        version answer) }
{
    let body = match answer {
        Answer::Given { quiet } => result_for(
            alloc,
            quiet,
            given(alloc, interface, objects, passed, entry)?,
        ),
        Answer::NoObject => not_done(alloc, b"IDL:omg.org/CORBA/OBJECT_NOT_EXIST:1.0")?,
        Answer::BadOperation => not_done(alloc, b"IDL:omg.org/CORBA/BAD_OPERATION:1.0")?,
        Answer::Marshal => not_done(alloc, b"IDL:omg.org/CORBA/MARSHAL:1.0")?,
        Answer::Addressing => ReplyBody::NeedsAddressing(0),
    };
    let contexts = ServiceContexts::new(alloc);
    Ok(Reply {
        version,
        id,
        contexts,
        body,
    })
}

// A system exception of this id, of an operation that wasn't carried out.
fn not_done(alloc: Global, id: &[u8]) -> Result<ReplyBody, AllocError>
    ensures { IfOk result (λ body. body ≡ not_done id.now) }
{
    Ok(ReplyBody::SystemException {
        id: OctetList::from_slice(alloc, id)?,
        minor: 0,
        completion: Completion::No,
    })
}

// A result as the caller wants it: without values, where it wants none.
fn result_for(alloc: Global, quiet: bool, body: ReplyBody) -> ReplyBody
    ensures { result ≡ result_for quiet body }
{
    match body {
        ReplyBody::NoException(_) if quiet => ReplyBody::NoException(ValueList::new(alloc)),
        body => body,
    }
}

// What is given for the operation of a Request; a result without values where nothing is given.
fn given(
    alloc: Global,
    interface: &Interface,
    objects: &[ServedObject<'_>],
    passed: &Passed,
    entry: &ServerEntry,
) -> Result<ReplyBody, AllocError>
    ensures { IfOk result (λ body. body ≡ given_body (asked_ins entry.now)
        (given_to interface.now (map object_of objects.now) passed.now.names.items entry.now)) }
{
    match entry {
        ServerEntry::Asked { request } => {
            let target = &request.head.target;
            let (offer, object) = (target.offer_in(interface), object_for(objects, target));
            let name = request.head.operation.as_slice();
            let given = given_at(alloc, offer, object, passed, name)?;
            given_body(alloc, request.body.as_slice(), given)
        }
        _ => given_body(alloc, &[], None),
    }
}

// What an object gives for an operation by what it offers; nothing where it isn't served.
fn given_at(
    alloc: Global,
    offer: &Offer,
    object: Option<ServedObject<'_>>,
    passed: &Passed,
    name: &[u8],
) -> Result<Option<AnswerGiven>, AllocError>
    ensures { IfOk result (λ given. given
        ≡ given_at offer.now (option_map object_of object.entry) passed.now.names.items name.now) }
{
    match object {
        Some(object) => {
            let passed = passed.of(object.key, name);
            object.answers.given(alloc, offer, passed, name)
        }
        None => Ok(None),
    }
}

/// The body of a Reply by what is given; a result without values where nothing is.
pub fn given_body(
    alloc: Global,
    ins: &[Value],
    given: Option<AnswerGiven>,
) -> Result<ReplyBody, AllocError>
    ensures { IfOk result (λ body. body ≡ given_body (map value_view ins.now) given) }
{
    Ok(match given {
        Some(AnswerGiven::Ok(outs)) => ReplyBody::NoException(outs),
        Some(AnswerGiven::User { id, members }) => ReplyBody::UserException { id, members },
        Some(
            AnswerGiven::System {
                id,
                minor,
                completion,
            },
        ) => ReplyBody::SystemException {
            id,
            minor,
            completion,
        },
        Some(AnswerGiven::IsA(id)) => is_a_body(alloc, id.as_slice(), ins)?,
        Some(AnswerGiven::Forward(ior)) => ReplyBody::Forward(ior),
        Some(AnswerGiven::ForwardPerm(ior)) => ReplyBody::ForwardPerm(ior),
        None => ReplyBody::NoException(ValueList::new(alloc)),
    })
}
