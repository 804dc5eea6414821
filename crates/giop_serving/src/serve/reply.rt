//! The Reply to what is stored for an id. Its meaning is `reply_of` in specs/Serve/Answering.antt:
//! change both.
ghost use Rattle.std.specs.Prelude.{◌≡◌, map, option_map, IfOk};
ghost use Rattle.giop_types.specs.Values.Views.{value_view};
ghost use Rattle.giop_serving.specs.Serve.Answering.{asked_ins, given_at, given_body, given_to, not_done, reply_of, result_for};
ghost use Rattle.giop_serving.specs.Serve.Objects.{object_of};

use crate::serve::answering::Answer;
use crate::serve::answers::AnswerGiven;
use crate::serve::given::{ServedObject, Serving};
use crate::serve::in_turn::Passed;
use crate::serve::is_a::is_a_body;
use crate::serve::objects::object_for;
use giop_calls::ServerEntry;
use giop_cdr::OctetList;
use giop_msg::{Completion, Reply, ReplyBody, ServiceContexts, Version};
use giop_show::failure::Failure;
use giop_types::{Offer, Value, ValueList};
use std::alloc::{AllocError, Global};

/// What waits for a Reply.
#[derive(Clone, Copy)]
pub struct Unanswered<'a> {
    /// Its id.
    pub id: u32,
    /// What is stored for it.
    pub stored: &'a ServerEntry,
    /// The version of its Request.
    pub version: Version,
    /// What it is answered.
    pub answer: Answer,
}

/// The Reply to what is stored for an id, by what objects offer and their answers, of which some
/// are passed.
pub fn reply_to(
    alloc: Global,
    serving: Serving<'_>,
    passed: &Passed,
    to: Unanswered<'_>,
) -> Result<Reply, Failure>
    ensures { IfOk result (λ reply. reply
        ≡ reply_of serving.entry.interface.now (map object_of serving.entry.objects.now)
        passed.now.names.items to.entry.id to.entry.stored.now to.entry.version to.entry.answer) }
{
    let body = match to.answer {
        Answer::Given { quiet } => {
            result_for(alloc, quiet, given(alloc, serving, passed, to.stored)?)
        }
        Answer::NoObject => not_done(alloc, b"IDL:omg.org/CORBA/OBJECT_NOT_EXIST:1.0")?,
        Answer::BadOperation => not_done(alloc, b"IDL:omg.org/CORBA/BAD_OPERATION:1.0")?,
        Answer::Marshal => not_done(alloc, b"IDL:omg.org/CORBA/MARSHAL:1.0")?,
        Answer::Addressing => ReplyBody::NeedsAddressing(0),
    };
    let contexts = ServiceContexts::new(alloc);
    Ok(Reply {
        version: to.version,
        id: to.id,
        contexts,
        body,
    })
}

// A system exception of this id, of an operation that wasn't carried out.
fn not_done(alloc: Global, id: &[u8]) -> Result<ReplyBody, AllocError>
    ensures { IfOk result (λ body. body ≡ not_done id.now) }
{
    Ok(ReplyBody::SystemException {
        id: OctetList::from_slice(alloc, id)?,
        minor: 0,
        completion: Completion::No,
    })
}

// A result as the caller wants it: without values, where it wants none.
fn result_for(alloc: Global, quiet: bool, body: ReplyBody) -> ReplyBody
    ensures { result ≡ result_for quiet body }
{
    match body {
        ReplyBody::NoException(_) if quiet => ReplyBody::NoException(ValueList::new(alloc)),
        body => body,
    }
}

// What is given for the operation of a Request; a result without values where nothing is given.
fn given(
    alloc: Global,
    serving: Serving<'_>,
    passed: &Passed,
    entry: &ServerEntry,
) -> Result<ReplyBody, AllocError>
    ensures { IfOk result (λ body. body ≡ given_body (asked_ins entry.now)
        (given_to serving.entry.interface.now (map object_of serving.entry.objects.now)
        passed.now.names.items entry.now)) }
{
    match entry {
        ServerEntry::Asked { request } => {
            let target = &request.head.target;
            let offer = target.offer_in(serving.interface);
            let object = object_for(serving.objects, target);
            let name = request.head.operation.as_slice();
            let given = given_at(alloc, offer, object, passed, name)?;
            given_body(alloc, request.body.as_slice(), given)
        }
        _ => given_body(alloc, &[], None),
    }
}

// What an object gives for an operation by what it offers; nothing where it isn't served.
fn given_at(
    alloc: Global,
    offer: &Offer,
    object: Option<ServedObject<'_>>,
    passed: &Passed,
    name: &[u8],
) -> Result<Option<AnswerGiven>, AllocError>
    ensures { IfOk result (λ given. given
        ≡ given_at offer.now (option_map object_of object.entry) passed.now.names.items name.now) }
{
    match object {
        Some(object) => {
            let passed = passed.of(object.key, name);
            object.answers.given(alloc, offer, passed, name)
        }
        None => Ok(None),
    }
}

/// The body of a Reply by what is given; a result without values where nothing is.
pub fn given_body(
    alloc: Global,
    ins: &[Value],
    given: Option<AnswerGiven>,
) -> Result<ReplyBody, AllocError>
    ensures { IfOk result (λ body. body ≡ given_body (map value_view ins.now) given) }
{
    Ok(match given {
        Some(AnswerGiven::Ok(outs)) => ReplyBody::NoException(outs),
        Some(AnswerGiven::User { id, members }) => ReplyBody::UserException { id, members },
        Some(
            AnswerGiven::System {
                id,
                minor,
                completion,
            },
        ) => ReplyBody::SystemException {
            id,
            minor,
            completion,
        },
        Some(AnswerGiven::IsA(id)) => is_a_body(alloc, id.as_slice(), ins)?,
        Some(AnswerGiven::Forward(ior)) => ReplyBody::Forward(ior),
        Some(AnswerGiven::ForwardPerm(ior)) => ReplyBody::ForwardPerm(ior),
        None => ReplyBody::NoException(ValueList::new(alloc)),
    })
}
