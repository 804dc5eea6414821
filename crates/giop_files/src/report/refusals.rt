//! Refused files of a session: what standard error says of them, and the line of the refusal, which
//! goes to the standard output.
ghost use Rattle.std.specs.Prelude.{◌≡◌, IfOk};
ghost use Rattle.giop_files.specs.InterfaceText.{IsNoInterface};
ghost use Rattle.giop_files.specs.Report.{IsRefused};

use crate::files::OUTPUT_BUFFER;
use crate::files::interface_text::InterfaceText;
use crate::report;
use crate::report::texts;
use giop_forms::LineForm;
use giop_json::{FormFault, interface_from_json};
use giop_lines::RefusalLine;
use giop_show::failure::Failure;
use giop_show::status::{Limit, Status};
use giop_show::{form_refusal, refuse_in};
use giop_where::Place;
use std::io;
use std::io::{BufWriter, Write};

/// Reports that the text of an interface's file is refused, and where it is at fault.
pub(crate) fn refuse_interface(
    rt: &HostRuntime,
    lines: LineForm,
    file: &str,
    text: &InterfaceText,
) -> Status
    ensures { IsNoInterface text.now → IsRefused result }
{
    match interface_from_json(rt.alloc(), text.as_slice()) {
        Ok(_) => Status::Done,
        Err(fault) => {
            texts::interface(rt, rt.alloc(), file, text);
            refuse_line(rt, lines, file, form_refusal(fault))
        }
    }
}

/// Reports that the text of a file of calls or answers is refused, and where it is at fault.
pub fn refuse_form(
    rt: &HostRuntime,
    lines: LineForm,
    file: &str,
    text: &[u8],
    fault: FormFault,
    at: Option<Place>,
) -> Status
    ensures { IsRefused result }
{
    texts::form(rt, rt.alloc(), file, text, fault, at);
    refuse_line(rt, lines, file, form_refusal(fault))
}

/// Reports that an answer of a file passes a limit, and where that answer stands.
pub fn refuse_unsent(
    rt: &HostRuntime,
    lines: LineForm,
    file: &str,
    limit: Limit,
    at: Option<Place>,
) -> Status
    ensures { IsRefused result }
{
    texts::unsent(rt, file, limit, at);
    refuse_line(rt, lines, file, form_refusal(FormFault::Unfit))
}

/// Reports that a call by words is refused, and where it is at fault.
pub fn refuse_words(
    rt: &HostRuntime,
    lines: LineForm,
    name: &str,
    values: &[&str],
    fault: FormFault,
    at: Option<Place>,
) -> Status
    ensures { IsRefused result }
{
    match fault {
        FormFault::BadJson => texts::words(rt, rt.alloc(), values),
        _ => texts::form(rt, rt.alloc(), name, name.as_bytes(), fault, at),
    }
    refuse_line(rt, lines, name, form_refusal(fault))
}

/// Writes the line of a refusal to the standard output.
pub fn refuse(rt: &HostRuntime, lines: LineForm, line: RefusalLine) -> Status
    ensures { IsRefused result }
{
    refuse_line(rt, lines, "-", Ok(line))
}

#[tactic(auto, using(crate::proofs::ReportLemmas::refused_status))]
fn refuse_line(
    rt: &HostRuntime,
    lines: LineForm,
    file: &str,
    line: Result<RefusalLine, Failure>,
) -> Status
    ensures { IsRefused result }
{
    let answered = match line {
        Ok(line) => write_refusal(rt, lines, line),
        Err(failure) => Err(failure),
    };
    report::status_of(rt, file, answered)
}

fn write_refusal(rt: &HostRuntime, lines: LineForm, line: RefusalLine) -> Result<Status, Failure>
    ensures { IfOk result (λ status. status ≡ Status.Refused) }
{
    let mut writer = BufWriter::with_capacity(rt.alloc(), OUTPUT_BUFFER, io::writer(rt))?;
    let status = refuse_in(lines, line, &mut writer)?;
    writer.flush()?;
    Ok(status)
}
