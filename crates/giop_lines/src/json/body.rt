//! The members of the JSON line of a message that tell of its body: what the ins of a Request are,
//! why they can't be read, and what becomes of the pieces of one.
use crate::CdrFaultJson;
use giop_frag::GatherFault;
use giop_msg::{Kind, RequestFault};
use std::fmt;

/// The ins of a Request, which are a JSON list, as a member behind others: `,"ins":INS`.
#[derive(Clone, Copy)]
pub struct InsJson<'a>(pub &'a str);

impl fmt::Display for InsJson<'_> {
    ghost use Rattle.std.specs.Prelude.{Some};
    ghost use Rattle.giop_lines.specs.DumpJson.{ins_json};

    ghost output = { λ l. Some (ins_json l.0.now) };

    #[tactic(auto, unfolding(crate::specs::DumpJson::ins_json))]
    fn fmt<W: fmt::Write>(&self, f: &mut fmt::Formatter<W>) -> fmt::Result {
        write!(f, ",\"ins\":{}", self.0)
    }
}

/// Why a Request or a LocateRequest can't be decoded, as members: `"part":"operation"`, or
/// `"part":"PART","fault":FAULT` with the part `header` or `body`.
#[derive(Clone, Copy)]
pub struct RequestFaultJson(pub RequestFault);

impl fmt::Display for RequestFaultJson {
    ghost use Rattle.std.specs.Prelude.{Some};
    ghost use Rattle.giop_lines.specs.JsonLines.{request_fault_json};

    ghost output = { λ t. Some (request_fault_json t.0) };

    fn fmt<W: fmt::Write>(&self, f: &mut fmt::Formatter<W>) -> fmt::Result {
        match self.0 {
            RequestFault::Header(fault) => {
                write!(f, "\"part\":\"header\",\"fault\":{}", CdrFaultJson(fault))
            }
            RequestFault::Operation => f.write_str("\"part\":\"operation\""),
            RequestFault::Body(fault) => {
                write!(f, "\"part\":\"body\",\"fault\":{}", CdrFaultJson(fault))
            }
        }
    }
}

/// Why a Request can't be decoded, as a member behind others: `,"undecoded":{..}`, with the members
/// that `RequestFaultJson` has.
#[derive(Clone, Copy)]
pub struct UndecodedJson(pub RequestFault);

impl fmt::Display for UndecodedJson {
    ghost use Rattle.std.specs.Prelude.{Some};
    ghost use Rattle.giop_lines.specs.DumpJson.{undecoded_json};

    ghost output = { λ l. Some (undecoded_json l.0) };

    #[tactic(auto, unfolding(crate::specs::DumpJson::undecoded_json))]
    fn fmt<W: fmt::Write>(&self, f: &mut fmt::Formatter<W>) -> fmt::Result {
        write!(f, ",\"undecoded\":{{{}}}", RequestFaultJson(self.0))
    }
}

/// A message that was joined of its pieces, as a member behind others, which is left open:
/// `,"joined":{"message":"KIND","size":SIZE`.
#[derive(Clone, Copy)]
pub struct JoinedJson {
    /// The kind of its first piece.
    pub kind: Kind,
    /// The number of its joined octets.
    pub size: usize,
}

impl fmt::Display for JoinedJson {
    ghost use Rattle.std.specs.Prelude.{Some};
    ghost use Rattle.giop_lines.specs.DumpJson.{joined_json};

    ghost output = { λ l. Some (joined_json l.kind l.size) };

    #[tactic(auto, unfolding(crate::specs::DumpJson::joined_json))]
    fn fmt<W: fmt::Write>(&self, f: &mut fmt::Formatter<W>) -> fmt::Result {
        let JoinedJson { kind, size } = *self;
        write!(f, ",\"joined\":{{\"message\":\"{kind}\",\"size\":{size}")
    }
}

/// Why a piece isn't joined, as a member behind others:
/// `,"unjoined":{"number":NUMBER,"name":NAME}`.
#[derive(Clone, Copy)]
pub struct UnjoinedJson(pub GatherFault);

impl fmt::Display for UnjoinedJson {
    ghost use Rattle.std.specs.Prelude.{Some};
    ghost use Rattle.giop_lines.specs.DumpJson.{unjoined_json};

    ghost output = { λ l. Some (unjoined_json l.0) };

    #[tactic(auto, unfolding(crate::specs::DumpJson::unjoined_json))]
    fn fmt<W: fmt::Write>(&self, f: &mut fmt::Formatter<W>) -> fmt::Result {
        let (number, name) = (self.0.number(), self.0);
        write!(
            f,
            ",\"unjoined\":{{\"number\":{number},\"name\":\"{name}\"}}"
        )
    }
}
