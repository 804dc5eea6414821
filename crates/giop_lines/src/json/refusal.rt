//! Why what is to be converted is refused, as a line of JSON. Its text is `refusal_json` in
//! specs/ConvertJson.antt.
use crate::json::{CdrFaultJson, RefusedJson};
use crate::refusal::RefusalLine;
use giop_cdr::EncodeFault;
use giop_ior::{CorbalocFault, IorTextFault};
use std::fmt;

/// A refusal of what is to be converted: `{"refused":{"number":NUMBER,"name":NAME}}`, with
/// `,"at":PLACE` where it has a place.
#[derive(Clone, Copy)]
pub struct RefusalJson(pub RefusalLine);

impl fmt::Display for RefusalJson {
    ghost use Rattle.std.specs.Prelude.{Some};
    ghost use Rattle.giop_lines.specs.ConvertJson.{refusal_json};

    ghost output = { λ l. Some (refusal_json l.0) };

    fn fmt<W: fmt::Write>(&self, f: &mut fmt::Formatter<W>) -> fmt::Result {
        match self.0 {
            RefusalLine::IorText(fault) => write!(f, "{}", IorTextFaultJson(fault)),
            RefusalLine::Corbaloc(fault) => write!(f, "{}", CorbalocFaultJson(fault)),
            RefusalLine::Reference(fault) => write!(f, "{}", EncodeFaultJson(fault)),
            RefusalLine::Form(fault) => write!(f, "{}", RefusedJson(fault)),
            RefusalLine::BadHex => f.write_str("{\"refused\":{\"number\":2,\"name\":\"BadHex\"}}"),
            RefusalLine::Octets(fault) => write!(f, "{{\"refused\":{}}}", CdrFaultJson(fault)),
            RefusalLine::NoIiopProfile => f.write_str("{\"refused\":{\"name\":\"NoIiopProfile\"}}"),
        }
    }
}

// The line of a refused text of a reference.
#[derive(Clone, Copy)]
struct IorTextFaultJson(IorTextFault);

impl fmt::Display for IorTextFaultJson {
    ghost use Rattle.std.specs.Prelude.{Some};
    ghost use Rattle.giop_lines.specs.ConvertJson.{ior_text_fault_json};

    ghost output = { λ l. Some (ior_text_fault_json l.0) };

    #[tactic(auto, unfolding(crate::specs::ConvertJson::ior_text_fault_json))]
    fn fmt<W: fmt::Write>(&self, f: &mut fmt::Formatter<W>) -> fmt::Result {
        let (number, name) = (self.0.number(), self.0);
        write!(
            f,
            "{{\"refused\":{{\"number\":{number},\"name\":\"{name}\"}}}}"
        )
    }
}

// The line of a refused corbaloc.
#[derive(Clone, Copy)]
struct CorbalocFaultJson(CorbalocFault);

impl fmt::Display for CorbalocFaultJson {
    ghost use Rattle.std.specs.Prelude.{Some};
    ghost use Rattle.giop_lines.specs.ConvertJson.{corbaloc_fault_json};

    ghost output = { λ l. Some (corbaloc_fault_json l.0) };

    #[tactic(auto, unfolding(crate::specs::ConvertJson::corbaloc_fault_json))]
    fn fmt<W: fmt::Write>(&self, f: &mut fmt::Formatter<W>) -> fmt::Result {
        let (number, kind, at) = (self.0.number(), self.0.kind, self.0.at);
        write!(
            f,
            "{{\"refused\":{{\"number\":{number},\"name\":\"{kind}\",\"at\":{at}}}}}"
        )
    }
}

// The line of a reference that can't be written.
#[derive(Clone, Copy)]
struct EncodeFaultJson(EncodeFault);

impl fmt::Display for EncodeFaultJson {
    ghost use Rattle.std.specs.Prelude.{Some};
    ghost use Rattle.giop_lines.specs.ConvertJson.{encode_fault_json};

    ghost output = { λ l. Some (encode_fault_json l.0) };

    #[tactic(auto, unfolding(crate::specs::ConvertJson::encode_fault_json))]
    fn fmt<W: fmt::Write>(&self, f: &mut fmt::Formatter<W>) -> fmt::Result {
        let (number, name) = (self.0.number(), self.0);
        write!(
            f,
            "{{\"refused\":{{\"number\":{number},\"name\":\"{name}\"}}}}"
        )
    }
}
