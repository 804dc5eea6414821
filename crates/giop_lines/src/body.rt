//! The lines that `dump` writes of bodies: what the ins of a Request are, why they can't be read,
//! and what becomes of the pieces of one. Their texts are specs/BodyLines.antt.
use crate::CdrFaultText;
use giop_frag::GatherFault;
use giop_msg::{Kind, RequestFault};
use std::fmt;

/// The ins of a Request, as a JSON list, in one line: `  ins INS`.
#[derive(Clone, Copy)]
pub struct InsLine<'a>(pub &'a str);

impl fmt::Display for InsLine<'_> {
    ghost use Rattle.std.specs.Prelude.{Some};
    ghost use Rattle.giop_lines.specs.BodyLines.{ins_line};

    ghost output = { λ l. Some (ins_line l.0.now) };

    fn fmt<W: fmt::Write>(&self, f: &mut fmt::Formatter<W>) -> fmt::Result {
        write!(f, "  ins {}", self.0)
    }
}

/// Why a Request can't be decoded, in one line: `  undecoded operation`, or
/// `  undecoded body NUMBER NAME at PLACE`.
#[derive(Clone, Copy)]
pub struct UndecodedLine(pub RequestFault);

impl fmt::Display for UndecodedLine {
    ghost use Rattle.std.specs.Prelude.{Some};
    ghost use Rattle.giop_lines.specs.BodyLines.{undecoded_line};

    ghost output = { λ l. Some (undecoded_line l.0) };

    fn fmt<W: fmt::Write>(&self, f: &mut fmt::Formatter<W>) -> fmt::Result {
        write!(f, "  undecoded {}", RequestFaultText(self.0))
    }
}

/// A message that was joined of its pieces, in one line: `  joined KIND size SIZE`.
#[derive(Clone, Copy)]
pub struct JoinedLine {
    /// The kind of its first piece.
    pub kind: Kind,
    /// The number of its joined octets.
    pub size: usize,
}

impl fmt::Display for JoinedLine {
    ghost use Rattle.std.specs.Prelude.{Some};
    ghost use Rattle.giop_lines.specs.BodyLines.{joined_line};

    ghost output = { λ l. Some (joined_line l.kind l.size) };

    fn fmt<W: fmt::Write>(&self, f: &mut fmt::Formatter<W>) -> fmt::Result {
        let JoinedLine { kind, size } = *self;
        write!(f, "  joined {kind} size {size}")
    }
}

/// Why a piece isn't joined, in one line: `  unjoined NUMBER NAME`.
#[derive(Clone, Copy)]
pub struct UnjoinedLine(pub GatherFault);

impl fmt::Display for UnjoinedLine {
    ghost use Rattle.std.specs.Prelude.{Some};
    ghost use Rattle.giop_lines.specs.BodyLines.{unjoined_line};

    ghost output = { λ l. Some (unjoined_line l.0) };

    fn fmt<W: fmt::Write>(&self, f: &mut fmt::Formatter<W>) -> fmt::Result {
        write!(f, "  unjoined {} {}", self.0.number(), self.0)
    }
}

/// Why a Request or a LocateRequest can't be decoded: `header FAULT`, `operation` or `body FAULT`.
#[derive(Clone, Copy)]
pub struct RequestFaultText(pub RequestFault);

impl fmt::Display for RequestFaultText {
    ghost use Rattle.std.specs.Prelude.{Some};
    ghost use Rattle.giop_lines.specs.BodyLines.{request_fault_text};

    ghost output = { λ t. Some (request_fault_text t.0) };

    fn fmt<W: fmt::Write>(&self, f: &mut fmt::Formatter<W>) -> fmt::Result {
        match self.0 {
            RequestFault::Header(fault) => write!(f, "header {}", CdrFaultText(fault)),
            RequestFault::Operation => f.write_str("operation"),
            RequestFault::Body(fault) => write!(f, "body {}", CdrFaultText(fault)),
        }
    }
}
