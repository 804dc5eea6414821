//! The text of a fault of octets, in lines of several commands.
use giop_cdr::CdrFault;
use std::fmt;

/// A fault of octets, and where: `NUMBER NAME at PLACE`.
#[derive(Clone, Copy)]
pub struct CdrFaultText(pub CdrFault);

impl fmt::Display for CdrFaultText {
    ghost use Rattle.std.specs.Prelude.{Some};
    ghost use Rattle.giop_lines.specs.Lines.{cdr_fault_text};

    ghost output = { λ t. Some (cdr_fault_text t.0) };

    fn fmt<W: fmt::Write>(&self, f: &mut fmt::Formatter<W>) -> fmt::Result {
        let fault = self.0;
        write!(f, "{} {} at {}", fault.number(), fault.kind, fault.at)
    }
}
