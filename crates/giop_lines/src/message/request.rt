//! The line of a Request's head (CORBA 3.3 Part 2, 9.4.2).
use crate::EscapedText;
use crate::message::target::TargetText;
use giop_cdr::SliceOctets;
use giop_msg::RequestHeadAt;
use std::fmt;

/// The head of a Request, in one line:
/// `  flags FLAGS TARGET operation OPERATION contexts CONTEXTS body BODY`.
#[derive(Clone, Copy)]
pub struct RequestLine<'head, 'joined, 'octets> {
    /// The head, which lies in the joined octets.
    pub head: &'head RequestHeadAt<'joined, SliceOctets<'octets>>,
    /// The number of octets from the place of the body on.
    pub body: usize,
}

impl fmt::Display for RequestLine<'_, '_, '_> {
    ghost use Rattle.std.specs.Prelude.{Some};
    ghost use Rattle.giop_lines.specs.Lines.{request_line};

    ghost output = { λ l. Some (request_line l.head.now l.body) };

    fn fmt<W: fmt::Write>(&self, f: &mut fmt::Formatter<W>) -> fmt::Result {
        let RequestLine { head, body } = *self;
        let flags = head.flags;
        let target = TargetText(&head.target);
        let operation = EscapedText(head.operation.as_slice());
        let contexts = head.contexts.len();
        write!(
            f,
            "  flags {flags} {target} operation {operation} contexts {contexts} body {body}"
        )
    }
}
