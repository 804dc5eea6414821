//! The line of a call in a client's table. Its text is `client_line` in specs/TableLines.antt.
use giop_calls::ClientEntry;
use giop_lines::{CdrFaultText, EscapedText};
use giop_msg::{Completion, ReplyBody};
use std::fmt;

/// What is stored for an id at a client, in one line: `ID ENTRY`, and behind it what was answered,
/// or why the reply can't be decoded.
#[derive(Clone, Copy)]
pub struct ClientEntryLine<'a> {
    /// The id.
    pub id: u32,
    /// Its entry.
    pub entry: &'a ClientEntry,
    /// What a Reply brought: its values as a JSON list, or the text of its reference; else empty.
    pub brought: &'a str,
}

impl fmt::Display for ClientEntryLine<'_> {
    ghost use Rattle.std.specs.Prelude.{Some};
    ghost use Rattle.giop_call_lines.specs.TableLines.{client_line};

    ghost output = { λ l. Some (client_line l.id l.entry.now l.brought.now) };

    fn fmt<W: fmt::Write>(&self, f: &mut fmt::Formatter<W>) -> fmt::Result {
        let ClientEntryLine { id, entry, brought } = *self;
        match entry {
            ClientEntry::Sending { .. } => write!(f, "{id} Sending"),
            ClientEntry::Waiting { .. } => write!(f, "{id} Waiting"),
            ClientEntry::Gathering { .. } => write!(f, "{id} Gathering"),
            ClientEntry::Done { reply, .. } => {
                write!(f, "{id} Done {}", ReplyText(&reply.body, brought))
            }
            ClientEntry::LocateDone { reply, .. } => {
                write!(f, "{id} LocateDone {}", reply.head.status)
            }
            ClientEntry::Undecoded { fault, .. } => {
                write!(f, "{id} Undecoded reply {}", CdrFaultText(*fault))
            }
            ClientEntry::OnewaySent { .. } => write!(f, "{id} OnewaySent"),
            ClientEntry::Cancelled { .. } => write!(f, "{id} Cancelled"),
        }
    }
}

/// What a Reply answers, with the text of its values or of its reference: `0 VALUES`,
/// `1 EXCEPTION MEMBERS`, `2 EXCEPTION MINOR COMPLETION`, `3 REFERENCE`, `4 REFERENCE` or
/// `5 DISPOSITION`.
#[derive(Clone, Copy)]
pub struct ReplyText<'a>(pub &'a ReplyBody, pub &'a str);

impl fmt::Display for ReplyText<'_> {
    ghost use Rattle.std.specs.Prelude.{Some};
    ghost use Rattle.giop_call_lines.specs.TableLines.{reply_text};

    ghost output = { λ t. Some (reply_text t.0.now t.1.now) };

    fn fmt<W: fmt::Write>(&self, f: &mut fmt::Formatter<W>) -> fmt::Result {
        let ReplyText(body, brought) = *self;
        match body {
            ReplyBody::NoException(_) => write!(f, "0 {brought}"),
            ReplyBody::UserException { id, .. } => {
                write!(f, "1 {} {brought}", EscapedText(id.as_slice()))
            }
            ReplyBody::SystemException {
                id,
                minor,
                completion,
            } => {
                let id = EscapedText(id.as_slice());
                write!(f, "2 {id} {} {}", *minor, CompletionText(*completion))
            }
            ReplyBody::Forward(_) => write!(f, "3 {brought}"),
            ReplyBody::ForwardPerm(_) => write!(f, "4 {brought}"),
            ReplyBody::NeedsAddressing(disposition) => write!(f, "5 {}", *disposition),
        }
    }
}

/// The number of a completion.
#[derive(Clone, Copy)]
pub struct CompletionText(pub Completion);

impl fmt::Display for CompletionText {
    ghost use Rattle.std.specs.Prelude.{Some};
    ghost use Rattle.giop_call_lines.specs.TableLines.{completion_text};

    ghost output = { λ t. Some (completion_text t.0) };

    fn fmt<W: fmt::Write>(&self, f: &mut fmt::Formatter<W>) -> fmt::Result {
        f.write_str(match self.0 {
            Completion::Yes => "0",
            Completion::No => "1",
            Completion::Maybe => "2",
        })
    }
}
