//! What is due to what is stored for an id. Its meaning is `due_to` in specs/Serve/Answering.antt:
//! change both.
ghost use Rattle.std.specs.Prelude.{◌≡◌, map};
ghost use Rattle.giop_serving.specs.Serve.Answering.{answer_to, due_to, due_to_undecoded, fault_answer, is_object};
ghost use Rattle.giop_serving.specs.Serve.Objects.{object_of};

use crate::serve::given::ServedObject;
use crate::serve::objects::{object_at, object_for};
use giop_calls::{CallKind, ServerEntry};
use giop_msg::{RequestFault, Target, Version};

/// What is answered to a Request.
#[derive(Clone, Copy, Debug, PartialEq, Eq)]
pub enum Answer {
    /// What is given for its operation; no values of it where the caller wants none.
    Given {
        /// Whether the caller wants none.
        quiet: bool,
    },
    /// OBJECT_NOT_EXIST: the object isn't the one that is served.
    NoObject,
    /// BAD_OPERATION: the interface has no such operation.
    BadOperation,
    /// MARSHAL: the head or the values can't be decoded.
    Marshal,
    /// NEEDS_ADDRESSING_MODE: the object is to be addressed by its key.
    Addressing,
}

/// What is due to what is stored for an id.
#[derive(Clone, Copy, Debug, PartialEq, Eq)]
pub enum Due {
    /// Nothing is.
    Nothing,
    /// A LocateReply.
    Locate {
        /// Whether the object is here.
        here: bool,
    },
    /// A Reply.
    Reply {
        /// In the version of its Request.
        version: Version,
        /// What it answers.
        answer: Answer,
    },
}

/// What is due to what is stored for an id, where these objects are served.
pub fn due_to(objects: &[ServedObject<'_>], entry: &ServerEntry) -> Due
    ensures { result ≡ due_to (map object_of objects.now) entry.now }
{
    match entry {
        ServerEntry::Asked { request } => {
            let head = &request.head;
            let answer = answer_to(objects, head.flags, &head.target);
            let version = head.version;
            Due::Reply { version, answer }
        }
        ServerEntry::Undecoded { call } => due_to_undecoded(call.expects, call.version, call.fault),
        ServerEntry::LocateAsked { request } => {
            let here = is_object(objects, &request.target);
            Due::Locate { here }
        }
        _ => Due::Nothing,
    }
}

fn answer_to(objects: &[ServedObject<'_>], flags: u8, target: &Target) -> Answer
    ensures { result ≡ answer_to (map object_of objects.now) flags target.now }
{
    match target {
        Target::Key(key) => {
            if object_at(objects, key.as_slice()).is_some() {
                let quiet = flags == 1;
                Answer::Given { quiet }
            } else {
                Answer::NoObject
            }
        }
        Target::Profile(_) => Answer::Addressing,
        Target::Reference { .. } => Answer::Addressing,
    }
}

fn is_object(objects: &[ServedObject<'_>], target: &Target) -> bool
    ensures { result ≡ is_object (map object_of objects.now) target.now }
{
    object_for(objects, target).is_some()
}

fn due_to_undecoded(expects: Option<CallKind>, version: Version, fault: RequestFault) -> Due
    ensures { result ≡ due_to_undecoded expects version fault }
{
    match expects {
        Some(CallKind::Request) => {
            let answer = fault_answer(fault);
            Due::Reply { version, answer }
        }
        Some(CallKind::Locate) => Due::Locate { here: false },
        None => Due::Nothing,
    }
}

fn fault_answer(fault: RequestFault) -> Answer
    ensures { result ≡ fault_answer fault }
{
    match fault {
        RequestFault::Operation => Answer::BadOperation,
        RequestFault::Header(_) => Answer::Marshal,
        RequestFault::Body(_) => Answer::Marshal,
    }
}
