//! What `serve` answers to what stands under an id.
ghost use Rattle.std.specs.Prelude.{◌≡◌, [], codes, IfOk, OnOk};
ghost use Rattle.giop_msg.specs.declared.messages.completion.Completion.TheVariants.{No};
ghost use Rattle.giop_msg.specs.declared.messages.reply_body.ReplyBody.TheVariants.{SystemException};
ghost use Rattle.giopctl.specs.Answering.{answer_to, due_to, due_to_undecoded, fault_answer, is_object};

use crate::answers::{AnswerGiven, Answers};
use crate::failure::Failure;
use giop_calls::{CallKind, ServerEntry};
use giop_cdr::OctetList;
use giop_msg::{Completion, Reply, ReplyBody, RequestFault, ServiceContexts, Target, Version};
use giop_types::{FormFault, Interface, ValueList};
use std::alloc::{AllocError, Global};

/// What is answered to a Request.
#[derive(Clone, Copy, Debug, PartialEq, Eq)]
pub enum Answer {
    /// What is given for its operation; no values of it where the caller wants none.
    Given {
        /// Whether the caller wants none.
        quiet: bool,
    },
    /// OBJECT_NOT_EXIST: the object isn't the one that is served.
    NoObject,
    /// BAD_OPERATION: the interface has no such operation.
    BadOperation,
    /// MARSHAL: the head or the values can't be decoded.
    Marshal,
    /// NEEDS_ADDRESSING_MODE: the object is to be addressed by its key.
    Addressing,
}

/// What is due to what stands under an id.
#[derive(Clone, Copy, Debug, PartialEq, Eq)]
pub enum Due {
    /// Nothing is.
    Nothing,
    /// A LocateReply.
    Locate {
        /// Whether the object is here.
        here: bool,
    },
    /// A Reply.
    Reply {
        /// In the version of its Request.
        version: Version,
        /// What it answers.
        answer: Answer,
    },
}

/// What is due to what stands under an id, where the object of a key is served.
pub fn due_to(key: &[u8], entry: &ServerEntry) -> Due
    ensures { result ≡ due_to key.now entry.now }
{
    match entry {
        ServerEntry::Asked { request } => {
            let head = &request.head;
            let answer = answer_to(key, head.flags, &head.target);
            let version = head.version;
            Due::Reply { version, answer }
        }
        ServerEntry::Undecoded { call } => due_to_undecoded(call.expects, call.version, call.fault),
        ServerEntry::LocateAsked { request } => {
            let here = is_object(key, &request.target);
            Due::Locate { here }
        }
        _ => Due::Nothing,
    }
}

fn answer_to(key: &[u8], flags: u8, target: &Target) -> Answer
    ensures { result ≡ answer_to key.now flags target.now }
{
    match target {
        Target::Key(object_key) => {
            if object_key.as_slice() == key {
                let quiet = flags == 1;
                Answer::Given { quiet }
            } else {
                Answer::NoObject
            }
        }
        Target::Profile(_) => Answer::Addressing,
        Target::Reference { .. } => Answer::Addressing,
    }
}

fn is_object(key: &[u8], target: &Target) -> bool
    ensures { result ≡ is_object key.now target.now }
{
    match target {
        Target::Key(object_key) => object_key.as_slice() == key,
        Target::Profile(_) => false,
        Target::Reference { .. } => false,
    }
}

fn due_to_undecoded(expects: Option<CallKind>, version: Version, fault: RequestFault) -> Due
    ensures { result ≡ due_to_undecoded expects version fault }
{
    match expects {
        Some(CallKind::Request) => {
            let answer = fault_answer(fault);
            Due::Reply { version, answer }
        }
        Some(CallKind::Locate) => Due::Locate { here: false },
        None => Due::Nothing,
    }
}

fn fault_answer(fault: RequestFault) -> Answer
    ensures { result ≡ fault_answer fault }
{
    match fault {
        RequestFault::Operation => Answer::BadOperation,
        RequestFault::Header(_) => Answer::Marshal,
        RequestFault::Body(_) => Answer::Marshal,
    }
}

/// The Reply to what stands under an id, of an interface and its answers.
pub fn reply_to(
    alloc: Global,
    interface: &Interface,
    answers: &Answers,
    id: u32,
    entry: &ServerEntry,
    version: Version,
    answer: Answer,
) -> Result<Reply, Failure>
    ensures id { IfOk result (λ reply. reply.id ≡ id) }
    ensures version { IfOk result (λ reply. reply.version ≡ version) }
    ensures contexts { IfOk result (λ reply. reply.contexts ≡ []) }
{
    let body = match answer {
        Answer::Given { quiet } => given(alloc, interface, answers, entry, quiet)?,
        Answer::NoObject => exception(alloc, b"IDL:omg.org/CORBA/OBJECT_NOT_EXIST:1.0")?,
        Answer::BadOperation => exception(alloc, b"IDL:omg.org/CORBA/BAD_OPERATION:1.0")?,
        Answer::Marshal => exception(alloc, b"IDL:omg.org/CORBA/MARSHAL:1.0")?,
        Answer::Addressing => ReplyBody::NeedsAddressing(0),
    };
    let contexts = ServiceContexts::new(alloc);
    Ok(Reply {
        version,
        id,
        contexts,
        body,
    })
}

// A system exception of this id, of an operation that wasn't carried out.
fn exception(alloc: Global, id: &[u8]) -> Result<ReplyBody, AllocError>
    ensures { IfOk result (λ body. body ≡ SystemException id.now 0 No) }
{
    Ok(ReplyBody::SystemException {
        id: OctetList::from_slice(alloc, id)?,
        minor: 0,
        completion: Completion::No,
    })
}

// What is given for the operation of a Request; a result without values where the caller wants none,
// and for a oneway operation, for which nothing is given.
fn given(
    alloc: Global,
    interface: &Interface,
    answers: &Answers,
    entry: &ServerEntry,
    quiet: bool,
) -> Result<ReplyBody, Failure> {
    let ServerEntry::Asked { request } = entry else {
        return Ok(ReplyBody::NoException(ValueList::new(alloc)));
    };
    match answers.given(alloc, interface, request.head.operation.as_slice()) {
        Ok(Some(AnswerGiven::Ok(outs))) => Ok(ReplyBody::NoException(if quiet {
            ValueList::new(alloc)
        } else {
            outs
        })),
        Ok(Some(AnswerGiven::User { id, members })) => Ok(ReplyBody::UserException { id, members }),
        Err(FormFault::NoMemory) => Err(Failure::Memory),
        _ => Ok(ReplyBody::NoException(ValueList::new(alloc))),
    }
}
