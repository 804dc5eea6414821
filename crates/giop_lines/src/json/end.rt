//! The last JSON line of a file: the octets that are left, or a fault in a header.
use crate::json::WireFaultJson;
use giop_msg::WireFault;
use std::fmt;

/// The number of octets after the last whole message: `{"rest":N}`.
#[derive(Clone, Copy)]
pub struct RestJson(pub usize);

impl fmt::Display for RestJson {
    ghost use Rattle.std.specs.Prelude.{Some};
    ghost use Rattle.giop_lines.specs.DumpJson.{rest_json};

    ghost output = { λ l. Some (rest_json l.0) };

    #[tactic(auto, unfolding(crate::specs::DumpJson::rest_json))]
    fn fmt<W: fmt::Write>(&self, f: &mut fmt::Formatter<W>) -> fmt::Result {
        write!(f, "{{\"rest\":{}}}", self.0)
    }
}

/// A fault in a header: `{"at":OFFSET,"fault":{"number":NUMBER,"name":NAME,"at":PLACE}}`.
#[derive(Clone, Copy)]
pub struct FaultJson {
    /// The offset of the header in the file.
    pub at: usize,
    /// What is wrong, with its place, which counts from the header's first octet.
    pub fault: WireFault,
}

impl fmt::Display for FaultJson {
    ghost use Rattle.std.specs.Prelude.{Some};
    ghost use Rattle.giop_lines.specs.DumpJson.{file_fault_json};

    ghost output = { λ l. Some (file_fault_json l.at l.fault) };

    #[tactic(auto, unfolding(crate::specs::DumpJson::file_fault_json))]
    fn fmt<W: fmt::Write>(&self, f: &mut fmt::Formatter<W>) -> fmt::Result {
        let (at, fault) = (self.at, WireFaultJson(self.fault));
        write!(f, "{{\"at\":{at},\"fault\":{fault}}}")
    }
}
