//! `check` over files and the standard output. What it prints is commands/check.rt, over any reader
//! and writer.
use crate::cli::CheckWords;
use crate::files::OUTPUT_BUFFER;
use crate::{files, report};
use giop_commands::failure::Failure;
use giop_commands::status::Status;
use giop_commands::{BehindFault, check_text};
use std::io;
use std::io::{BufWriter, Read, Write};

/// Reads the file of the interface, then checks the other one piece by piece.
pub fn check(rt: &HostRuntime, words: CheckWords) -> Status {
    let text = match files::read_interface(rt, words.interface) {
        Ok(text) => text,
        Err(failure) => return report::answer(rt, words.interface, Err(failure)),
    };
    let answered = checked(rt, text.as_slice(), words);
    if let Ok(Status::Refused) = &answered {
        report::interface(rt, rt.alloc(), words.interface, &text);
    }
    report::answer(rt, words.file, answered)
}

fn checked(rt: &HostRuntime, interface: &[u8], words: CheckWords) -> Result<Status, Failure> {
    if words.file == "-" {
        return check_from(rt, interface, words, &mut rt.reader(), BehindFault::Leave);
    }
    let (mut file, behind) = files::opened(rt, words.file)?;
    check_from(rt, interface, words, &mut file, behind)
}

fn check_from<R: Read>(
    rt: &HostRuntime,
    interface: &[u8],
    words: CheckWords,
    reader: &mut R,
    behind: BehindFault,
) -> Result<Status, Failure> {
    let mut writer = BufWriter::with_capacity(rt.alloc(), OUTPUT_BUFFER, io::writer(rt))?;
    let (limits, strict, form) = (words.limits, words.strict, words.form);
    let status = check_text(
        rt.alloc(),
        interface,
        limits,
        strict,
        form,
        reader,
        &mut writer,
        behind,
    )?;
    writer.flush()?;
    Ok(status)
}
