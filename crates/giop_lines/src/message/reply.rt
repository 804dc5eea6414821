//! The line of a Reply's head (CORBA 3.3 Part 2, 9.4.3).
use giop_cdr::SliceOctets;
use giop_msg::ReplyHeadAt;
use std::fmt;

/// The head of a Reply, in one line: `  status STATUS contexts CONTEXTS body BODY`.
#[derive(Clone, Copy)]
pub struct ReplyLine<'head, 'joined, 'octets> {
    /// The head, which lies in the joined octets.
    pub head: &'head ReplyHeadAt<'joined, SliceOctets<'octets>>,
    /// The number of octets from the place of the body on.
    pub body: usize,
}

impl fmt::Display for ReplyLine<'_, '_, '_> {
    ghost use Rattle.std.specs.Prelude.{Some};
    ghost use Rattle.giop_lines.specs.Lines.{reply_line};

    ghost output = { λ l. Some (reply_line l.head.now l.body) };

    fn fmt<W: fmt::Write>(&self, f: &mut fmt::Formatter<W>) -> fmt::Result {
        let ReplyLine { head, body } = *self;
        let status = head.status;
        let contexts = head.contexts.len();
        write!(f, "  status {status} contexts {contexts} body {body}")
    }
}
