//! `check` over files and the standard output. What it prints is giop_commands' check.rt, over any
//! reader and writer.

use giop_commands::{Checking, check_stream, check_text};
use giop_connections::sending::limits_of;
use giop_files::files::OUTPUT_BUFFER;
use giop_files::files::interfaces::{By, Joined, join_offers, read_each};
use giop_files::report::texts;
use giop_files::{files, report};
use giop_show::BehindFault;
use giop_show::failure::Failure;
use giop_show::status::Status;
use giop_words::CheckWords;
use std::io;
use std::io::{BufWriter, Read, Write};

/// Reads the files of interfaces, then checks the other one piece by piece.
pub(crate) fn check(rt: &HostRuntime, words: &CheckWords<'_>) -> Status {
    let offered = match read_each(rt, words.interfaces.as_slice()) {
        Ok(offered) => offered,
        Err(status) => return status,
    };
    let answered = match join_offers(rt.alloc(), offered.as_slice()) {
        Ok(Joined::Whole(interface)) => check_file(rt, By::Interface(&interface), words),
        Ok(Joined::Refused(one)) => {
            let answered = check_file(rt, By::Text(one.text.as_slice()), words);
            if let Ok(Status::Refused) = &answered {
                texts::interface(rt, rt.alloc(), one.file, &one.text);
            }
            answered
        }
        Err(_) => Err(Failure::Memory),
    };
    report::status_of(rt, words.file, answered)
}

fn check_file(rt: &HostRuntime, by: By<'_>, words: &CheckWords<'_>) -> Result<Status, Failure> {
    if words.file == "-" {
        return check_from(rt, by, words, &mut rt.reader(), BehindFault::Leave);
    }
    let (mut file, behind) = files::open_in_pieces(rt, words.file)?;
    check_from(rt, by, words, &mut file, behind)
}

fn check_from<R: Read>(
    rt: &HostRuntime,
    by: By<'_>,
    words: &CheckWords<'_>,
    reader: &mut R,
    behind: BehindFault,
) -> Result<Status, Failure> {
    let mut writer = BufWriter::with_capacity(rt.alloc(), OUTPUT_BUFFER, io::writer(rt))?;
    let checking = Checking {
        limits: limits_of(words.limits),
        strict: words.strict,
        lines: words.form,
        behind,
    };
    let status = match by {
        By::Interface(all) => check_stream(rt.alloc(), all, checking, reader, &mut writer)?,
        By::Text(text) => check_text(rt.alloc(), text, checking, reader, &mut writer)?,
    };
    writer.flush()?;
    Ok(status)
}
