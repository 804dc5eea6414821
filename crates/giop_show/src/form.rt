//! What a command tells, in a form: lines of text, or lines of JSON. What stands in each is
//! specs/Forms.antt: change both.
ghost use Rattle.std.specs.Prelude.{◌≡◌, IfOk, IfSome, OnOk};
ghost use Rattle.std.specs.Io.KnownBytes.{Appends};
ghost use Rattle.std.specs.String.{string_bytes};
ghost use Rattle.giop_show.specs.Forms.{ended, closed_in, ended_in, line_in, part_in, refused_in, told_in};

use crate::failure::Failure;
use crate::status::Status;
use giop_forms::LineForm;
use giop_lines::{RefusalJson, RefusalLine};
use std::alloc::{AllocError, Global};
use std::fmt::Display;
use std::io::Write;

/// Writes a part of what is told: a line of text, or members of the JSON line.
pub fn write_part<T: Display + Drop, J: Display + Drop, W: Write>(
    form: LineForm,
    text: T,
    json: J,
    writer: &mut W,
) -> Result<(), Failure>
    ensures { OnOk result (IfSome (told_in (part_in form) (T.output text) (J.output json))
        (Appends (W.contents writer.old) (W.contents writer.new))) }
{
    match form {
        LineForm::Text(_) => writeln!(writer, "{text}")?,
        LineForm::Json(_) => write!(writer, "{json}")?,
    }
    Ok(())
}

/// Writes a line, of text or of JSON.
pub fn write_line<T: Display + Drop, J: Display + Drop, W: Write>(
    form: LineForm,
    text: T,
    json: J,
    writer: &mut W,
) -> Result<(), Failure>
    ensures { OnOk result (IfSome (told_in (line_in form) (T.output text) (J.output json))
        (λ line. Appends (W.contents writer.old) (W.contents writer.new) (ended line))) }
{
    match form {
        LineForm::Text(_) => writeln!(writer, "{text}")?,
        LineForm::Json(_) => writeln!(writer, "{json}")?,
    }
    Ok(())
}

/// A line, of text or of JSON, without its newline.
pub fn line_text<T: Display + Drop, J: Display + Drop>(
    alloc: Global,
    form: LineForm,
    text: T,
    json: J,
) -> Result<String, AllocError>
    ensures { IfOk result (λ line. IfSome (told_in (line_in form) (T.output text) (J.output json))
        (λ told. string_bytes line ≡ told)) }
{
    match form {
        LineForm::Text(_) => text.to_string(alloc),
        LineForm::Json(_) => json.to_string(alloc),
    }
}

/// Writes what ends an object within a JSON line; nothing in text.
pub fn write_closed<W: Write>(form: LineForm, writer: &mut W) -> Result<(), Failure>
    ensures { OnOk result
        (Appends (W.contents writer.old) (W.contents writer.new) (closed_in form)) }
{
    match form {
        LineForm::Text(_) => {}
        LineForm::Json(_) => write!(writer, "}}")?,
    }
    Ok(())
}

/// Writes what ends a JSON line that was written in parts; nothing in text.
pub fn write_ended<W: Write>(form: LineForm, writer: &mut W) -> Result<(), Failure>
    ensures { OnOk result
        (Appends (W.contents writer.old) (W.contents writer.new) (ended_in form)) }
{
    match form {
        LineForm::Text(_) => {}
        LineForm::Json(_) => writeln!(writer, "}}")?,
    }
    Ok(())
}

/// Writes the line of a refusal, which ends the run.
pub fn refuse_in<W: Write>(
    form: LineForm,
    line: RefusalLine,
    writer: &mut W,
) -> Result<Status, Failure>
    ensures text { OnOk result (Appends (W.contents writer.old) (W.contents writer.new)
        (ended (refused_in form line))) }
    ensures ok { IfOk result (λ status. status ≡ Status.Refused) }
{
    write_line(form, line, RefusalJson(line), writer)?;
    Ok(Status::Refused)
}
