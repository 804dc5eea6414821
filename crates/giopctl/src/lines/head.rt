use crate::lines::{EscapedText, HexText};
use giop_cdr::{OctetsAt, SliceOctets};
use giop_msg::{RequestHeadAt, Target};
use std::fmt;

/// The head of a Request, in one line:
/// `  flags FLAGS key KEY operation OPERATION contexts CONTEXTS body BODY`.
#[derive(Clone, Copy)]
pub struct HeadLine<'head, 'joined, 'octets> {
    /// The head, which lies in the joined octets.
    pub head: &'head RequestHeadAt<'joined, SliceOctets<'octets>>,
    /// The number of octets from the place of the body on.
    pub body: usize,
}

impl fmt::Display for HeadLine<'_, '_, '_> {
    ghost use Rattle.std.specs.Prelude.{Some};
    ghost use Rattle.giopctl.specs.Lines.{head_line};

    ghost output = { λ l. Some (head_line l.head.now l.body) };

    fn fmt<W: fmt::Write>(&self, f: &mut fmt::Formatter<W>) -> fmt::Result {
        let HeadLine { head, body } = *self;
        let flags = head.flags;
        let target = TargetText(&head.target);
        let operation = EscapedText(head.operation.as_slice());
        let contexts = head.contexts.len();
        write!(
            f,
            "  flags {flags} {target} operation {operation} contexts {contexts} body {body}"
        )
    }
}

// The target of a Request: `key KEY`.
#[derive(Clone, Copy)]
struct TargetText<'head, 'joined, 'octets>(&'head Target<OctetsAt<'joined, SliceOctets<'octets>>>);

impl fmt::Display for TargetText<'_, '_, '_> {
    ghost use Rattle.std.specs.Prelude.{Some};
    ghost use Rattle.giopctl.specs.Lines.{target_text};

    ghost output = { λ t. Some (target_text t.0.now) };

    fn fmt<W: fmt::Write>(&self, f: &mut fmt::Formatter<W>) -> fmt::Result {
        match self.0 {
            Target::Key(key) => write!(f, "key {}", HexText(key.as_slice())),
        }
    }
}
