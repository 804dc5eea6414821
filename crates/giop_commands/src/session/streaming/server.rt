//! The calls of a server that are over, and their lines: of an answered Request what was asked and
//! what was answered, else as in its table. Their text is specs/Session/StreamLines.antt: change
//! both.
ghost use Rattle.std.specs.Prelude.{◌≡◌, IfOk};
ghost use Rattle.std.specs.String.{string_bytes};
ghost use Rattle.giop_commands.specs.Session.StreamLines.{answered_in, question_brought, question_ins};

use crate::session::given::Showing;
use crate::session::streaming::Streamed;
use crate::session::table::Tabled;
use crate::session::table::shown::{AnsweredObject, AnsweredShownLine, question_shown};
use giop_call_lines::{AnsweredJson, AnsweredLine};
use giop_calls::{Question, ServerEntry, ServerRule};
use giop_forms::LineForm;
use giop_json::NumberForm;
use giop_msg::ReplyBody;
use giop_show::bodies::{brought_by, request_ins};
use giop_show::form::line_text;
use giop_types::Interface;
use std::alloc::{AllocError, Global};

impl Streamed for ServerRule {
    ghost use Rattle.giop_commands.specs.Session.StreamLines.{server_told_in};

    ghost told = { server_told_in };

    fn is_over(entry: &ServerEntry) -> bool {
        entry.is_closed()
    }

    fn told_text(
        alloc: Global,
        lines: LineForm,
        interface: &Interface,
        id: u32,
        entry: &ServerEntry,
    ) -> Result<String, AllocError> {
        match entry {
            ServerEntry::Answered { asked, reply, .. } => {
                let showing = Showing { lines, interface };
                answered_text(alloc, showing, id, asked, &reply.body)
            }
            _ => ServerRule::entry_text(alloc, lines, interface, id, entry),
        }
    }
}

// The line of a call that was answered, without its newline.
fn answered_text(
    alloc: Global,
    showing: Showing<'_>,
    id: u32,
    asked: &Question,
    body: &ReplyBody,
) -> Result<String, AllocError>
    ensures { IfOk result (λ text. string_bytes text
        ≡ answered_in showing.entry.lines showing.entry.interface.now id asked.now body.now) }
{
    let (lines, interface) = (showing.lines, showing.interface);
    let ins = question_ins(alloc, lines.numbers(), interface, asked)?;
    let brought = question_brought(alloc, lines.numbers(), interface, asked, body)?;
    let (ins, brought) = (ins.as_str(), brought.as_str());
    let shown = question_shown(alloc, lines, interface, asked)?;
    let line = AnsweredLine {
        id,
        asked,
        ins,
        body,
        brought,
    };
    let object = AnsweredJson {
        id,
        asked,
        ins,
        body,
        brought,
    };
    let text = AnsweredShownLine(line, shown.as_str());
    let json = AnsweredObject(object, shown.as_str());
    line_text(alloc, lines, text, json)
}

// The ins of what was asked, as a JSON list; empty where it couldn't be decoded.
fn question_ins(
    alloc: Global,
    numbers: NumberForm,
    interface: &Interface,
    asked: &Question,
) -> Result<String, AllocError>
    ensures { IfOk result (λ text. string_bytes text ≡ question_ins numbers interface.now asked.now) }
{
    match asked {
        Question::Request(request) => request_ins(alloc, numbers, interface, request),
        Question::Undecoded(_) => Ok(String::new(alloc)),
    }
}

// What a Reply to what was asked brings, as text; empty where it couldn't be decoded.
fn question_brought(
    alloc: Global,
    numbers: NumberForm,
    interface: &Interface,
    asked: &Question,
    body: &ReplyBody,
) -> Result<String, AllocError>
    ensures { IfOk result (λ text. string_bytes text
        ≡ question_brought numbers interface.now asked.now body.now) }
{
    match asked {
        Question::Request(request) => brought_by(alloc, numbers, interface, request, body),
        Question::Undecoded(_) => Ok(String::new(alloc)),
    }
}
