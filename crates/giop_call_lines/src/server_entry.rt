//! The line of a call in a server's table. Its text is `server_line` in specs/TableLines.antt.
use giop_calls::ServerEntry;
use giop_lines::{EscapedText, RequestFaultText};
use giop_msg::Request;
use std::fmt;

/// What is stored for an id at a server, in one line: `ID ENTRY`, and behind it what is asked, why
/// it can't be decoded, or what was answered.
#[derive(Clone, Copy)]
pub struct ServerEntryLine<'a> {
    /// The id.
    pub id: u32,
    /// Its entry.
    pub entry: &'a ServerEntry,
    /// The ins of a Request that was decoded, as a JSON list; else empty.
    pub ins: &'a str,
}

impl fmt::Display for ServerEntryLine<'_> {
    ghost use Rattle.std.specs.Prelude.{Some};
    ghost use Rattle.giop_call_lines.specs.TableLines.{server_line};

    ghost output = { λ l. Some (server_line l.id l.entry.now l.ins.now) };

    fn fmt<W: fmt::Write>(&self, f: &mut fmt::Formatter<W>) -> fmt::Result {
        let ServerEntryLine { id, entry, ins } = *self;
        match entry {
            ServerEntry::Gathering { .. } => write!(f, "{id} Gathering"),
            ServerEntry::Asked { request } => write!(f, "{id} Asked {}", AskedText(request, ins)),
            ServerEntry::Undecoded { call } => {
                write!(f, "{id} Undecoded {}", RequestFaultText(call.fault))
            }
            ServerEntry::LocateAsked { .. } => write!(f, "{id} LocateAsked"),
            ServerEntry::Answered { reply, .. } => {
                write!(f, "{id} Answered {}", reply.body.status())
            }
            ServerEntry::LocateAnswered { here, .. } => {
                write!(f, "{id} LocateAnswered {}", HereText(*here))
            }
            ServerEntry::Delivered { request } => {
                write!(f, "{id} Delivered {}", AskedText(request, ins))
            }
            ServerEntry::Cancelled { .. } => write!(f, "{id} Cancelled"),
        }
    }
}

/// A Request and the text of its ins: `OPERATION INS`.
#[derive(Clone, Copy)]
pub struct AskedText<'a>(pub &'a Request, pub &'a str);

impl fmt::Display for AskedText<'_> {
    ghost use Rattle.std.specs.Prelude.{Some};
    ghost use Rattle.giop_call_lines.specs.TableLines.{asked_text};

    ghost output = { λ t. Some (asked_text t.0.now t.1.now) };

    fn fmt<W: fmt::Write>(&self, f: &mut fmt::Formatter<W>) -> fmt::Result {
        let AskedText(request, ins) = *self;
        let operation = EscapedText(request.head.operation.as_slice());
        write!(f, "{operation} {ins}")
    }
}

/// Whether an object is here: `1` or `0`.
#[derive(Clone, Copy)]
pub struct HereText(pub bool);

impl fmt::Display for HereText {
    ghost use Rattle.std.specs.Prelude.{Some};
    ghost use Rattle.giop_call_lines.specs.TableLines.{here_text};

    ghost output = { λ h. Some (here_text h.0) };

    fn fmt<W: fmt::Write>(&self, f: &mut fmt::Formatter<W>) -> fmt::Result {
        f.write_str(if self.0 { "1" } else { "0" })
    }
}
