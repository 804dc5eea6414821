//! The lines of a LocateRequest and a LocateReply (CORBA 3.3 Part 2, 9.4.5 and 9.4.6).
use crate::message::target::TargetText;
use giop_cdr::SliceOctets;
use giop_msg::{LocateReplyHead, LocateRequestAt};
use std::fmt;

/// A LocateRequest, in one line: its target behind two spaces.
#[derive(Clone, Copy)]
pub struct LocateRequestLine<'head, 'joined, 'octets>(
    pub &'head LocateRequestAt<'joined, SliceOctets<'octets>>,
);

impl fmt::Display for LocateRequestLine<'_, '_, '_> {
    ghost use Rattle.std.specs.Prelude.{Some};
    ghost use Rattle.giop_lines.specs.Lines.{locate_request_line};

    ghost output = { λ l. Some (locate_request_line l.0.now) };

    fn fmt<W: fmt::Write>(&self, f: &mut fmt::Formatter<W>) -> fmt::Result {
        write!(f, "  {}", TargetText(&self.0.target))
    }
}

/// A LocateReply, in one line: `  status STATUS body BODY`.
#[derive(Clone, Copy)]
pub struct LocateReplyLine {
    /// Its fields before the body.
    pub head: LocateReplyHead,
    /// The number of octets behind the status.
    pub body: usize,
}

impl fmt::Display for LocateReplyLine {
    ghost use Rattle.std.specs.Prelude.{Some};
    ghost use Rattle.giop_lines.specs.Lines.{locate_reply_line};

    ghost output = { λ l. Some (locate_reply_line l.head l.body) };

    fn fmt<W: fmt::Write>(&self, f: &mut fmt::Formatter<W>) -> fmt::Result {
        let LocateReplyLine { head, body } = *self;
        write!(f, "  status {} body {body}", head.status)
    }
}
