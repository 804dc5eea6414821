//! `check` over files and the standard output.

use crate::commands::{BehindFault, check_text};
use crate::failure::Failure;
use crate::files::OUTPUT_BUFFER;
use crate::status::Status;
use crate::{files, report};
use std::io;
use std::io::{BufWriter, Read, Write};

/// Reads the file of the interface, then checks the other one piece by piece.
pub fn check(rt: &HostRuntime, interface: &str, file: &str) -> Status {
    let text = match files::read(rt, interface) {
        Ok(text) => text,
        Err(failure) => return report::answer(rt, interface, Err(failure)),
    };
    let answered = checked(rt, text.as_slice(), file);
    if let Ok(Status::Refused) = &answered {
        report::interface(rt, rt.alloc(), interface, text.as_slice());
    }
    report::answer(rt, file, answered)
}

fn checked(rt: &HostRuntime, interface: &[u8], file: &str) -> Result<Status, Failure> {
    if file == "-" {
        return check_from(rt, interface, &mut rt.reader(), BehindFault::Leave);
    }
    let (mut file, behind) = files::opened(rt, file)?;
    check_from(rt, interface, &mut file, behind)
}

fn check_from<R: Read>(
    rt: &HostRuntime,
    interface: &[u8],
    reader: &mut R,
    behind: BehindFault,
) -> Result<Status, Failure> {
    let mut writer = BufWriter::with_capacity(rt.alloc(), OUTPUT_BUFFER, io::writer(rt))?;
    let status = check_text(rt.alloc(), interface, reader, &mut writer, behind)?;
    writer.flush()?;
    Ok(status)
}
