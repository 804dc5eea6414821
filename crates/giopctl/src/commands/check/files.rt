//! `check` over files and the standard output. What it prints is commands/check.rt, over any reader
//! and writer.
ghost use Rattle.giopctl.specs.Check.{AreLimits};

use crate::cli::CheckWords;
use crate::commands::{BehindFault, check_text};
use crate::failure::Failure;
use crate::files::OUTPUT_BUFFER;
use crate::status::Status;
use crate::{files, report};
use giop_session::Limits;
use std::io;
use std::io::{BufWriter, Read, Write};

/// Reads the file of the interface, then checks the other one piece by piece.
pub fn check(rt: &HostRuntime, words: CheckWords) -> Status {
    let CheckWords {
        interface,
        file,
        limits,
    } = words;
    let text = match files::read(rt, interface) {
        Ok(text) => text,
        Err(failure) => return report::answer(rt, interface, Err(failure)),
    };
    let answered = checked(rt, text.as_slice(), limits, file);
    if let Ok(Status::Refused) = &answered {
        report::interface(rt, rt.alloc(), interface, text.as_slice());
    }
    report::answer(rt, file, answered)
}

fn checked(
    rt: &HostRuntime,
    interface: &[u8],
    limits: Limits,
    file: &str,
) -> Result<Status, Failure>
    requires { AreLimits limits }
{
    if file == "-" {
        return check_from(rt, interface, limits, &mut rt.reader(), BehindFault::Leave);
    }
    let (mut file, behind) = files::opened(rt, file)?;
    check_from(rt, interface, limits, &mut file, behind)
}

fn check_from<R: Read>(
    rt: &HostRuntime,
    interface: &[u8],
    limits: Limits,
    reader: &mut R,
    behind: BehindFault,
) -> Result<Status, Failure>
    requires { AreLimits limits }
{
    let mut writer = BufWriter::with_capacity(rt.alloc(), OUTPUT_BUFFER, io::writer(rt))?;
    let status = check_text(rt.alloc(), interface, limits, reader, &mut writer, behind)?;
    writer.flush()?;
    Ok(status)
}
