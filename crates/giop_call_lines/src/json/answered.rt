//! What a server answered, and the line of its connection, as objects of JSON. Their texts are
//! specs/SessionJson.antt.
use crate::json::client_entry::OutcomeJson;
use crate::json::server_entry::AskedJson;
use giop_calls::Question;
use giop_lines::RequestFaultJson;
use giop_msg::ReplyBody;
use std::fmt;

/// A call that a server answered:
/// `{"id":ID,"what":"answered","status":STATUS,"asked":{"what":WHAT},"outcome":{"what":WHAT}}`, and
/// behind each WHAT what was asked or what was answered.
#[derive(Clone, Copy)]
pub struct AnsweredJson<'a> {
    /// The id.
    pub id: u32,
    /// What was asked.
    pub asked: &'a Question,
    /// The ins of a Request that was decoded, as a JSON list; else empty.
    pub ins: &'a str,
    /// What was answered.
    pub body: &'a ReplyBody,
    /// What the Reply brings: its values as a JSON list, or the text of its reference; else empty.
    pub brought: &'a str,
}

impl fmt::Display for AnsweredJson<'_> {
    ghost use Rattle.std.specs.Prelude.{Some};
    ghost use Rattle.giop_call_lines.specs.SessionJson.{answered_json};

    ghost output = { λ l. Some (answered_json l.id l.asked.now l.ins.now l.body.now l.brought.now) };

    #[tactic(auto, unfolding(crate::specs::SessionJson::answered_json))]
    fn fmt<W: fmt::Write>(&self, f: &mut fmt::Formatter<W>) -> fmt::Result {
        let (id, answer) = (self.id, AnswerJson(*self));
        write!(f, "{{\"id\":{id},\"what\":{answer}}}")
    }
}

/// That it was answered, and the members behind that.
#[derive(Clone, Copy)]
pub struct AnswerJson<'a>(pub AnsweredJson<'a>);

impl fmt::Display for AnswerJson<'_> {
    ghost use Rattle.std.specs.Prelude.{Some};
    ghost use Rattle.giop_call_lines.specs.SessionJson.{answer_json};

    ghost output = { λ t. Some (answer_json t.0.asked.now t.0.ins.now t.0.body.now t.0.brought.now) };

    fn fmt<W: fmt::Write>(&self, f: &mut fmt::Formatter<W>) -> fmt::Result {
        write!(
            f,
            "\"answered\",\"status\":{},{}",
            self.0.body.status(),
            ExchangeJson(self.0)
        )
    }
}

// What was asked, and what it came to, as members.
#[derive(Clone, Copy)]
struct ExchangeJson<'a>(AnsweredJson<'a>);

impl fmt::Display for ExchangeJson<'_> {
    ghost use Rattle.std.specs.Prelude.{Some};
    ghost use Rattle.giop_call_lines.specs.SessionJson.{exchange_json};

    ghost output = { λ t. Some (exchange_json t.0.asked.now t.0.ins.now t.0.body.now t.0.brought.now) };

    #[tactic(auto, unfolding(crate::specs::SessionJson::exchange_json))]
    fn fmt<W: fmt::Write>(&self, f: &mut fmt::Formatter<W>) -> fmt::Result {
        let AnsweredJson {
            asked,
            ins,
            body,
            brought,
            ..
        } = self.0;
        let (asked, outcome) = (QuestionJson(asked, ins), OutcomeJson(body, brought));
        write!(
            f,
            "\"asked\":{{\"what\":{asked}}},\"outcome\":{{\"what\":{outcome}}}"
        )
    }
}

// What was asked, and the members behind that.
#[derive(Clone, Copy)]
struct QuestionJson<'a>(&'a Question, &'a str);

impl fmt::Display for QuestionJson<'_> {
    ghost use Rattle.std.specs.Prelude.{Some};
    ghost use Rattle.giop_call_lines.specs.SessionJson.{question_json};

    ghost output = { λ t. Some (question_json t.0.now t.1.now) };

    fn fmt<W: fmt::Write>(&self, f: &mut fmt::Formatter<W>) -> fmt::Result {
        let QuestionJson(asked, ins) = *self;
        match asked {
            Question::Request(request) => write!(f, "\"request\",{}", AskedJson(request, ins)),
            Question::Undecoded(fault) => {
                write!(f, "\"undecoded\",{}", RequestFaultJson(*fault))
            }
        }
    }
}

/// Which connection of a server it is: `{"connection":NUMBER}`.
#[derive(Clone, Copy)]
pub struct ConnectionJson(pub u32);

impl fmt::Display for ConnectionJson {
    ghost use Rattle.std.specs.Prelude.{Some};
    ghost use Rattle.giop_call_lines.specs.SessionJson.{connection_json};

    ghost output = { λ l. Some (connection_json l.0) };

    #[tactic(auto, unfolding(crate::specs::SessionJson::connection_json))]
    fn fmt<W: fmt::Write>(&self, f: &mut fmt::Formatter<W>) -> fmt::Result {
        write!(f, "{{\"connection\":{}}}", self.0)
    }
}
