//! The lines of what can't be read: a fault in a header or in a head, and the octets that are left.
use giop_cdr::CdrFault;
use giop_msg::WireFault;
use std::fmt;

/// A fault in a header, in one line: `OFFSET fault NUMBER NAME at PLACE`.
#[derive(Clone, Copy)]
pub struct FaultLine {
    /// The offset of the header in the file.
    pub at: usize,
    /// What is wrong, with its place, which counts from the header's first octet.
    pub fault: WireFault,
}

impl fmt::Display for FaultLine {
    ghost use Rattle.std.specs.Prelude.{Some};
    ghost use Rattle.giop_lines.specs.Lines.{fault_line};

    ghost output = { λ l. Some (fault_line l.at l.fault) };

    fn fmt<W: fmt::Write>(&self, f: &mut fmt::Formatter<W>) -> fmt::Result {
        let FaultLine { at, fault } = *self;
        write!(f, "{at} fault {} {fault}", fault.number())
    }
}

/// Why the head of a message isn't read, in one line: `  fault NUMBER NAME at PLACE`.
#[derive(Clone, Copy)]
pub struct HeadFaultLine(pub CdrFault);

impl fmt::Display for HeadFaultLine {
    ghost use Rattle.std.specs.Prelude.{Some};
    ghost use Rattle.giop_lines.specs.Lines.{head_fault_line};

    ghost output = { λ l. Some (head_fault_line l.0) };

    fn fmt<W: fmt::Write>(&self, f: &mut fmt::Formatter<W>) -> fmt::Result {
        let fault = self.0;
        write!(
            f,
            "  fault {} {} at {}",
            fault.number(),
            fault.kind,
            fault.at
        )
    }
}

/// The number of octets after the last whole message, in one line: `rest N`.
#[derive(Clone, Copy)]
pub struct RestLine(pub usize);

impl fmt::Display for RestLine {
    ghost use Rattle.std.specs.Prelude.{Some};
    ghost use Rattle.giop_lines.specs.Lines.{rest_line};

    ghost output = { λ l. Some (rest_line l.0) };

    fn fmt<W: fmt::Write>(&self, f: &mut fmt::Formatter<W>) -> fmt::Result {
        write!(f, "rest {}", self.0)
    }
}
