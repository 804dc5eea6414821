//! `dump` over files and the standard output. What it prints is giop_dumping's, over any
//! reader and writer.
ghost use Rattle.std.specs.Prelude.{IfOk};
ghost use Rattle.giop_show.specs.Status.{IsJudged};
ghost use Rattle.giop_files.specs.Report.{IsShown};

use giop_dumping::{dump_stream, dump_text};
use giop_files::files::OUTPUT_BUFFER;
use giop_files::report::texts;
use giop_files::{files, report};
use giop_show::BehindFault;
use giop_show::failure::Failure;
use giop_show::status::Status;
use giop_words::DumpWords;
use std::io;
use std::io::{BufWriter, Read, Write};

/// Reads the file of the interface, if there is one, then shows the messages of the other one piece
/// by piece. Returns the status that the program ends with.
#[tactic(auto, using(giop_files::proofs::ReportLemmas::shown_status))]
pub fn dump(rt: &HostRuntime, words: DumpWords) -> Status
    ensures { IsShown result }
{
    let Some(interface) = words.interface else {
        return report::status_of(rt, words.file, dump_file(rt, None, words));
    };
    let text = match files::read_interface(rt, interface) {
        Ok(text) => text,
        Err(failure) => return report::status_of(rt, interface, Err(failure)),
    };
    let answered = dump_file(rt, Some(text.as_slice()), words);
    if let Ok(Status::Refused) = &answered {
        texts::interface(rt, rt.alloc(), interface, &text);
    }
    report::status_of(rt, words.file, answered)
}

fn dump_file(
    rt: &HostRuntime,
    interface: Option<&[u8]>,
    words: DumpWords,
) -> Result<Status, Failure>
    ensures { IfOk result IsJudged }
{
    if words.file == "-" {
        let behind = BehindFault::Leave;
        return dump_from(rt, interface, words, &mut rt.reader(), behind);
    }
    let (mut file, behind) = files::open_in_pieces(rt, words.file)?;
    dump_from(rt, interface, words, &mut file, behind)
}

fn dump_from<R: Read>(
    rt: &HostRuntime,
    interface: Option<&[u8]>,
    words: DumpWords,
    reader: &mut R,
    behind: BehindFault,
) -> Result<Status, Failure>
    ensures { IfOk result IsJudged }
{
    let mut writer = BufWriter::with_capacity(rt.alloc(), OUTPUT_BUFFER, io::writer(rt))?;
    let (alloc, limit, form) = (rt.alloc(), words.limit, words.form);
    let status = match interface {
        Some(text) => dump_text(
            alloc,
            text,
            limit,
            words.gathered,
            form,
            reader,
            &mut writer,
            behind,
        )?,
        None => dump_stream(alloc, limit, form, reader, &mut writer, behind)?,
    };
    writer.flush()?;
    Ok(status)
}
