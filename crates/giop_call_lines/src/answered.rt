//! The lines of calls that a server answered, of a call that wasn't made, and of a connection.
//! Their texts are specs/TableLines.antt.
use crate::client_entry::ReplyText;
use crate::server_entry::AskedText;
use giop_calls::Question;
use giop_lines::RequestFaultText;
use giop_msg::ReplyBody;
use std::fmt;

/// A call that a server answered, in one line: `ID Asked OPERATION INS Answered REPLY`, or
/// `ID Undecoded FAULT Answered REPLY`.
#[derive(Clone, Copy)]
pub struct AnsweredLine<'a> {
    /// The id.
    pub id: u32,
    /// What was asked.
    pub asked: &'a Question,
    /// The ins of a Request that was decoded, as a JSON list; else empty.
    pub ins: &'a str,
    /// What was answered.
    pub body: &'a ReplyBody,
    /// What the Reply brings: its values as a JSON list, or the text of its reference; else empty.
    pub brought: &'a str,
}

impl fmt::Display for AnsweredLine<'_> {
    ghost use Rattle.std.specs.Prelude.{Some};
    ghost use Rattle.giop_call_lines.specs.TableLines.{answered_line};

    ghost output = { λ l. Some (answered_line l.id l.asked.now l.ins.now l.body.now l.brought.now) };

    fn fmt<W: fmt::Write>(&self, f: &mut fmt::Formatter<W>) -> fmt::Result {
        let (id, asked) = (self.id, QuestionText(self.asked, self.ins));
        let reply = ReplyText(self.body, self.brought);
        write!(f, "{id} {asked} Answered {reply}")
    }
}

// What was asked.
#[derive(Clone, Copy)]
struct QuestionText<'a>(&'a Question, &'a str);

impl fmt::Display for QuestionText<'_> {
    ghost use Rattle.std.specs.Prelude.{Some};
    ghost use Rattle.giop_call_lines.specs.TableLines.{question_text};

    ghost output = { λ t. Some (question_text t.0.now t.1.now) };

    fn fmt<W: fmt::Write>(&self, f: &mut fmt::Formatter<W>) -> fmt::Result {
        let QuestionText(asked, ins) = *self;
        match asked {
            Question::Request(request) => write!(f, "Asked {}", AskedText(request, ins)),
            Question::Undecoded(fault) => write!(f, "Undecoded {}", RequestFaultText(*fault)),
        }
    }
}

/// A call that wasn't made, in one line: `ID Unsent`.
#[derive(Clone, Copy)]
pub struct UnsentLine(pub u32);

impl fmt::Display for UnsentLine {
    ghost use Rattle.std.specs.Prelude.{Some};
    ghost use Rattle.giop_call_lines.specs.TableLines.{unsent_line};

    ghost output = { λ l. Some (unsent_line l.0) };

    fn fmt<W: fmt::Write>(&self, f: &mut fmt::Formatter<W>) -> fmt::Result {
        write!(f, "{} Unsent", self.0)
    }
}

/// Which connection of a server it is, in one line: `connection NUMBER`.
#[derive(Clone, Copy)]
pub struct ConnectionLine(pub u32);

impl fmt::Display for ConnectionLine {
    ghost use Rattle.std.specs.Prelude.{Some};
    ghost use Rattle.giop_call_lines.specs.TableLines.{connection_line};

    ghost output = { λ l. Some (connection_line l.0) };

    fn fmt<W: fmt::Write>(&self, f: &mut fmt::Formatter<W>) -> fmt::Result {
        write!(f, "connection {}", self.0)
    }
}
