//! The line of what `convert` and `call` refuse. The numbers are those of each fault's own type,
//! and of `refusal_line` in specs/ConvertLines.antt.
use giop_cdr::{CdrFault, EncodeFault};
use giop_ior::{CorbalocFault, IorTextFault};
use giop_json::FormFault;
use std::fmt;

/// A refusal of what is to be converted, or called by, in one line: `fault NUMBER NAME`, with
/// ` at PLACE` where it has a place.
#[derive(Clone, Copy)]
pub enum RefusalLine {
    /// Of the text of a reference.
    IorText(IorTextFault),
    /// Of a corbaloc text.
    Corbaloc(CorbalocFault),
    /// Of a corbaloc whose reference can't be written.
    Reference(EncodeFault),
    /// Of a description, or of a value in JSON.
    Form(FormFault),
    /// Of hexadecimal digits.
    BadHex,
    /// Of octets: a value's, or those of a reference's text.
    Octets(CdrFault),
    /// Of a reference that has no IIOP profile which can be read.
    NoIiopProfile,
}

impl fmt::Display for RefusalLine {
    ghost use Rattle.std.specs.Prelude.{Some};
    ghost use Rattle.giop_lines.specs.ConvertLines.{refusal_line};

    ghost output = { λ l. Some (refusal_line l) };

    fn fmt<W: fmt::Write>(&self, f: &mut fmt::Formatter<W>) -> fmt::Result {
        match self {
            RefusalLine::IorText(fault) => write!(f, "fault {} {fault}", fault.number()),
            RefusalLine::Corbaloc(fault) => write!(f, "fault {} {fault}", fault.number()),
            RefusalLine::Reference(fault) => write!(f, "fault {} {fault}", fault.number()),
            RefusalLine::Form(fault) => write!(f, "fault {} {fault}", fault.number()),
            RefusalLine::BadHex => f.write_str("fault 2 BadHex"),
            RefusalLine::Octets(fault) => {
                write!(f, "fault {} {} at {}", fault.number(), fault.kind, fault.at)
            }
            RefusalLine::NoIiopProfile => f.write_str("no iiop profile"),
        }
    }
}
