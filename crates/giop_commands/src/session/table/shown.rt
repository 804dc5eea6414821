//! Which object is asked, behind a line of a server, where objects are told apart. Its meaning is
//! specs/Session/Tables/Shown.antt: change both.
ghost use Rattle.std.specs.Prelude.{◌≡◌, IfOk, option_copied};
ghost use Rattle.std.specs.String.{string_bytes};
ghost use Rattle.giop_commands.specs.Session.Tables.Shown.{are_told_apart, entry_shown, located_shown, question_shown, target_shown};

use giop_call_lines::{AnswerJson, AnsweredJson, AnsweredLine, EntryJson, ServerEntryLine};
use giop_calls::{Question, ServerEntry};
use giop_forms::LineForm;
use giop_lines::{OwnTargetText, TargetJson};
use giop_msg::Target;
use giop_types::Interface;
use std::alloc::{AllocError, Global};
use std::fmt;

/// The target of what is stored for an id, as it stands behind its line; empty where it isn't told
/// or isn't known.
pub fn entry_shown(
    alloc: Global,
    lines: LineForm,
    interface: &Interface,
    entry: &ServerEntry,
) -> Result<String, AllocError>
    ensures { IfOk result (λ text. string_bytes text ≡ entry_shown lines interface.now entry.now) }
{
    match entry {
        ServerEntry::Asked { request } => {
            target_shown(alloc, lines, interface, &request.head.target)
        }
        ServerEntry::Delivered { request } => {
            target_shown(alloc, lines, interface, &request.head.target)
        }
        ServerEntry::LocateAsked { request } => {
            target_shown(alloc, lines, interface, &request.target)
        }
        ServerEntry::Answered { asked, .. } => question_shown(alloc, lines, interface, asked),
        ServerEntry::LocateAnswered { target, .. } => match target {
            Some(target) => target_shown(alloc, lines, interface, target),
            None => Ok(String::new(alloc)),
        },
        _ => Ok(String::new(alloc)),
    }
}

/// The target of what was asked, likewise.
pub fn question_shown(
    alloc: Global,
    lines: LineForm,
    interface: &Interface,
    asked: &Question,
) -> Result<String, AllocError>
    ensures { IfOk result (λ text. string_bytes text ≡ question_shown lines interface.now asked.now) }
{
    match asked {
        Question::Request(request) => target_shown(alloc, lines, interface, &request.head.target),
        Question::Undecoded(_) => Ok(String::new(alloc)),
    }
}

// A target behind a line; empty where objects aren't told apart.
fn target_shown(
    alloc: Global,
    lines: LineForm,
    interface: &Interface,
    target: &Target,
) -> Result<String, AllocError>
    ensures { IfOk result (λ text. string_bytes text ≡ target_shown lines interface.now target.now) }
{
    if !are_told_apart(interface) {
        return Ok(String::new(alloc));
    }
    match lines {
        LineForm::Text(_) => format!(in alloc; " {}", OwnTargetText(target)),
        LineForm::Json(_) => format!(in alloc; ",{}", TargetJson(target)),
    }
}

// Whether an object offers something of its own.
fn are_told_apart(interface: &Interface) -> bool
    ensures { result ≡ are_told_apart interface.now }
{
    interface.objects().len() > 0
}

/// The line of what is stored for an id, and what stands behind it.
#[derive(Clone, Copy)]
pub struct EntryShownLine<'a>(pub ServerEntryLine<'a>, pub &'a str);

impl fmt::Display for EntryShownLine<'_> {
    ghost use Rattle.std.specs.Prelude.{Some, ◌++◌};
    ghost use Rattle.giop_call_lines.specs.TableLines.{server_line};

    ghost output = { λ l. Some (server_line l.0.id l.0.entry.now l.0.ins.now ++ l.1.now) };

    fn fmt<W: fmt::Write>(&self, f: &mut fmt::Formatter<W>) -> fmt::Result {
        write!(f, "{}{}", self.0, self.1)
    }
}

/// What is stored for an id, as an object of JSON with these members behind it.
#[derive(Clone, Copy)]
pub struct EntryObject<'a> {
    /// The id.
    pub id: u32,
    /// Its entry.
    pub entry: &'a ServerEntry,
    /// The ins of a Request that was decoded, as a JSON list; else empty.
    pub ins: &'a str,
    /// The members behind it, each with a comma before it.
    pub shown: &'a str,
}

impl fmt::Display for EntryObject<'_> {
    ghost use Rattle.std.specs.Prelude.{Some};
    ghost use Rattle.giop_commands.specs.Session.Tables.Shown.{entry_object};

    ghost output = { λ l. Some (entry_object l.id l.entry.now l.ins.now l.shown.now) };

    #[tactic(auto, unfolding(crate::specs::Session::Tables::Shown::entry_object))]
    fn fmt<W: fmt::Write>(&self, f: &mut fmt::Formatter<W>) -> fmt::Result {
        let (id, entry, shown) = (self.id, EntryJson(self.entry, self.ins), self.shown);
        write!(f, "{{\"id\":{id},\"what\":{entry}{shown}}}")
    }
}

/// The line of a call that was answered, and what stands behind it.
#[derive(Clone, Copy)]
pub struct AnsweredShownLine<'a>(pub AnsweredLine<'a>, pub &'a str);

impl fmt::Display for AnsweredShownLine<'_> {
    ghost use Rattle.std.specs.Prelude.{Some, ◌++◌};
    ghost use Rattle.giop_call_lines.specs.TableLines.{answered_line};

    ghost output = { λ l. Some (answered_line l.0.id l.0.asked.now l.0.ins.now l.0.body.now
        l.0.brought.now ++ l.1.now) };

    fn fmt<W: fmt::Write>(&self, f: &mut fmt::Formatter<W>) -> fmt::Result {
        let (line, shown) = (self.0, self.1);
        write!(f, "{line}{shown}")
    }
}

/// A call that was answered, as an object of JSON with these members behind it.
#[derive(Clone, Copy)]
pub struct AnsweredObject<'a>(pub AnsweredJson<'a>, pub &'a str);

impl fmt::Display for AnsweredObject<'_> {
    ghost use Rattle.std.specs.Prelude.{Some};
    ghost use Rattle.giop_commands.specs.Session.Tables.Shown.{answered_object};

    ghost output = { λ l. Some (answered_object l.0.id l.0.asked.now l.0.ins.now l.0.body.now
        l.0.brought.now l.1.now) };

    #[tactic(auto, unfolding(crate::specs::Session::Tables::Shown::answered_object))]
    fn fmt<W: fmt::Write>(&self, f: &mut fmt::Formatter<W>) -> fmt::Result {
        let (id, answer, shown) = (self.0.id, AnswerJson(self.0), self.1);
        write!(f, "{{\"id\":{id},\"what\":{answer}{shown}}}")
    }
}
