//! The member `head` of the JSON line of a message: what its head says (CORBA 3.3 Part 2, 9.4.2,
//! 9.4.3, 9.4.5 and 9.4.6), or why it isn't read.
use crate::json::target::TargetAtJson;
use crate::{CdrFaultJson, TextJson};
use giop_cdr::{CdrFault, SliceOctets};
use giop_msg::{LocateReplyHead, LocateRequestAt, ReplyHeadAt, RequestHeadAt};
use std::fmt;

/// The head of a Request, as a member behind others:
/// `,"head":{"flags":FLAGS,TARGET,"operation":OPERATION,"contexts":CONTEXTS,"body":BODY}`, with
/// TARGET as `TargetJson` has it.
#[derive(Clone, Copy)]
pub struct RequestJson<'head, 'joined, 'octets> {
    /// The head, which lies in the joined octets.
    pub head: &'head RequestHeadAt<'joined, SliceOctets<'octets>>,
    /// The number of octets from the place of the body on.
    pub body: usize,
}

impl fmt::Display for RequestJson<'_, '_, '_> {
    ghost use Rattle.std.specs.Prelude.{Some};
    ghost use Rattle.giop_lines.specs.DumpJson.{request_json};

    ghost output = { λ l. Some (request_json l.head.now l.body) };

    #[tactic(auto, unfolding(crate::specs::DumpJson::request_json))]
    fn fmt<W: fmt::Write>(&self, f: &mut fmt::Formatter<W>) -> fmt::Result {
        let RequestJson { head, body } = *self;
        let flags = head.flags;
        let target = TargetAtJson(&head.target);
        let operation = TextJson(head.operation.as_slice());
        let contexts = head.contexts.len();
        let counts = CountsJson { contexts, body };
        write!(
            f,
            ",\"head\":{{\"flags\":{flags},{target},\"operation\":{operation},{counts}}}"
        )
    }
}

// How many service contexts there are, and how many octets the body has.
#[derive(Clone, Copy)]
struct CountsJson {
    contexts: usize,
    body: usize,
}

impl fmt::Display for CountsJson {
    ghost use Rattle.std.specs.Prelude.{Some};
    ghost use Rattle.giop_lines.specs.DumpJson.{counts_json};

    ghost output = { λ c. Some (counts_json c.contexts c.body) };

    #[tactic(auto, unfolding(crate::specs::DumpJson::counts_json))]
    fn fmt<W: fmt::Write>(&self, f: &mut fmt::Formatter<W>) -> fmt::Result {
        let CountsJson { contexts, body } = *self;
        write!(f, "\"contexts\":{contexts},\"body\":{body}")
    }
}

/// The head of a Reply, likewise: `,"head":{"status":STATUS,"contexts":CONTEXTS,"body":BODY}`.
#[derive(Clone, Copy)]
pub struct ReplyJson<'head, 'joined, 'octets> {
    /// The head, which lies in the joined octets.
    pub head: &'head ReplyHeadAt<'joined, SliceOctets<'octets>>,
    /// The number of octets from the place of the body on.
    pub body: usize,
}

impl fmt::Display for ReplyJson<'_, '_, '_> {
    ghost use Rattle.std.specs.Prelude.{Some};
    ghost use Rattle.giop_lines.specs.DumpJson.{reply_json};

    ghost output = { λ l. Some (reply_json l.head.now l.body) };

    #[tactic(auto, unfolding(crate::specs::DumpJson::reply_json))]
    fn fmt<W: fmt::Write>(&self, f: &mut fmt::Formatter<W>) -> fmt::Result {
        let ReplyJson { head, body } = *self;
        let status = head.status;
        let contexts = head.contexts.len();
        let counts = CountsJson { contexts, body };
        write!(f, ",\"head\":{{\"status\":{status},{counts}}}")
    }
}

/// A LocateRequest, likewise: `,"head":{TARGET}`.
#[derive(Clone, Copy)]
pub struct LocateRequestJson<'head, 'joined, 'octets>(
    pub &'head LocateRequestAt<'joined, SliceOctets<'octets>>,
);

impl fmt::Display for LocateRequestJson<'_, '_, '_> {
    ghost use Rattle.std.specs.Prelude.{Some};
    ghost use Rattle.giop_lines.specs.DumpJson.{locate_request_json};

    ghost output = { λ l. Some (locate_request_json l.0.now) };

    #[tactic(auto, unfolding(crate::specs::DumpJson::locate_request_json))]
    fn fmt<W: fmt::Write>(&self, f: &mut fmt::Formatter<W>) -> fmt::Result {
        write!(f, ",\"head\":{{{}}}", TargetAtJson(&self.0.target))
    }
}

/// A LocateReply, likewise: `,"head":{"status":STATUS,"body":BODY}`.
#[derive(Clone, Copy)]
pub struct LocateReplyJson {
    /// Its fields before the body.
    pub head: LocateReplyHead,
    /// The number of octets behind the status.
    pub body: usize,
}

impl fmt::Display for LocateReplyJson {
    ghost use Rattle.std.specs.Prelude.{Some};
    ghost use Rattle.giop_lines.specs.DumpJson.{locate_reply_json};

    ghost output = { λ l. Some (locate_reply_json l.head l.body) };

    #[tactic(auto, unfolding(crate::specs::DumpJson::locate_reply_json))]
    fn fmt<W: fmt::Write>(&self, f: &mut fmt::Formatter<W>) -> fmt::Result {
        let LocateReplyJson { head, body } = *self;
        let status = head.status;
        write!(f, ",\"head\":{{\"status\":{status},\"body\":{body}}}")
    }
}

/// Why the head of a message isn't read, likewise: `,"head":{"fault":FAULT}`, with FAULT as
/// `CdrFaultJson` has it.
#[derive(Clone, Copy)]
pub struct HeadFaultJson(pub CdrFault);

impl fmt::Display for HeadFaultJson {
    ghost use Rattle.std.specs.Prelude.{Some};
    ghost use Rattle.giop_lines.specs.DumpJson.{head_fault_json};

    ghost output = { λ l. Some (head_fault_json l.0) };

    #[tactic(auto, unfolding(crate::specs::DumpJson::head_fault_json))]
    fn fmt<W: fmt::Write>(&self, f: &mut fmt::Formatter<W>) -> fmt::Result {
        write!(f, ",\"head\":{{\"fault\":{}}}", CdrFaultJson(self.0))
    }
}
