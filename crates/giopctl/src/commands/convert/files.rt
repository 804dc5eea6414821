//! `convert` over files and the standard output. What it prints is commands/convert/reference.rt
//! and commands/convert/described.rt, over any writer.

use crate::cli::ConvertKind;
use crate::commands::{Way, convert_corbaloc, convert_ior, convert_value};
use crate::failure::Failure;
use crate::files::{OUTPUT_BUFFER, read};
use crate::report;
use crate::status::Status;
use giop_cdr::Order;
use std::io;
use std::io::{BufWriter, Write};

/// Reads the file, then that of the description where the kind has one, and writes what becomes of
/// it.
pub fn convert(rt: &HostRuntime, file: &str, kind: ConvertKind) -> Status {
    let octets = match read(rt, file) {
        Ok(octets) => octets,
        Err(failure) => return report::answer(rt, file, Err(failure)),
    };
    let octets = octets.as_slice();
    let answered = match kind {
        ConvertKind::Ior => written_ior(rt, octets),
        ConvertKind::Corbaloc => written_corbaloc(rt, octets),
        ConvertKind::Value { way, desc, order } => match read(rt, desc) {
            Ok(description) => written_value(rt, octets, description.as_slice(), way, order),
            Err(failure) => return report::answer(rt, desc, Err(failure)),
        },
    };
    report::answer(rt, file, answered)
}

fn written_ior(rt: &HostRuntime, octets: &[u8]) -> Result<Status, Failure> {
    let mut writer = BufWriter::with_capacity(rt.alloc(), OUTPUT_BUFFER, io::writer(rt))?;
    let status = convert_ior(rt.alloc(), octets, &mut writer)?;
    writer.flush()?;
    Ok(status)
}

fn written_corbaloc(rt: &HostRuntime, octets: &[u8]) -> Result<Status, Failure> {
    let mut writer = BufWriter::with_capacity(rt.alloc(), OUTPUT_BUFFER, io::writer(rt))?;
    let status = convert_corbaloc(rt.alloc(), octets, &mut writer)?;
    writer.flush()?;
    Ok(status)
}

fn written_value(
    rt: &HostRuntime,
    octets: &[u8],
    description: &[u8],
    way: Way,
    order: Order,
) -> Result<Status, Failure> {
    let mut writer = BufWriter::with_capacity(rt.alloc(), OUTPUT_BUFFER, io::writer(rt))?;
    let status = convert_value(rt.alloc(), octets, description, way, order, &mut writer)?;
    writer.flush()?;
    Ok(status)
}
