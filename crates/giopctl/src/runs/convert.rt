//! `convert` over files and the standard output. What it prints is commands/convert/reference.rt
//! and commands/convert/described.rt, over any writer.

use crate::cli::ConvertKind;
use crate::files::{OUTPUT_BUFFER, read};
use crate::{places, report};
use giop_cdr::Order;
use giop_commands::convert::unended;
use giop_commands::failure::Failure;
use giop_commands::status::Status;
use giop_commands::{LineForm, Way, convert_corbaloc, convert_ior, convert_value};
use giop_types::{
    CheckedDesc, IorTextFault, desc_from_json, ior_octets_from_text, parse_json, value_from_json,
};
use std::io;
use std::io::{BufWriter, Write};

// How many octets stand before the digits of a reference.
const IOR_PREFIX: usize = 4;

/// Reads the file, then that of the description where the kind has one, and writes what becomes of
/// it. Where a text is refused, it says which file is at fault, and where.
pub fn convert(rt: &HostRuntime, file: &str, kind: ConvertKind) -> Status {
    let octets = match read(rt, file) {
        Ok(octets) => octets,
        Err(failure) => return report::answer(rt, file, Err(failure)),
    };
    let octets = octets.as_slice();
    let answered = match kind {
        ConvertKind::Ior(form) => {
            let answered = written_ior(rt, octets, form);
            if let Ok(Status::Refused) = &answered {
                refused_ior(rt, file, unended(octets));
            }
            answered
        }
        ConvertKind::Corbaloc(form) => {
            let answered = written_corbaloc(rt, octets, form);
            if let Ok(Status::Refused) = &answered {
                report::text(rt, file, "no corbaloc");
            }
            answered
        }
        ConvertKind::Value { way, desc, order } => match read(rt, desc) {
            Ok(text) => {
                let description = text.as_slice();
                let answered = written_value(rt, octets, description, way, order);
                if let Ok(Status::Refused) = &answered {
                    refused_value(rt, file, octets, desc, description, way);
                }
                answered
            }
            Err(failure) => return report::answer(rt, desc, Err(failure)),
        },
    };
    report::answer(rt, file, answered)
}

// Says what is wrong with the text of a reference, and where.
fn refused_ior(rt: &HostRuntime, file: &str, text: &[u8]) {
    match ior_octets_from_text(rt.alloc(), text) {
        Err(IorTextFault::BadHex) if text.len() > IOR_PREFIX => {
            refused_digits(rt, file, &text[IOR_PREFIX..], IOR_PREFIX);
        }
        Err(IorTextFault::BadPrefix) => report::text(rt, file, "no text that begins with IOR:"),
        _ => report::text(rt, file, "the octets of no reference"),
    }
}

// Says where hexadecimal digits, of which the first has this offset, are none, if they are.
fn refused_digits(rt: &HostRuntime, file: &str, digits: &[u8], offset: usize) {
    match hex::decode(rt.alloc(), digits) {
        Ok(_) => report::text(rt, file, "the octets of no value of the description"),
        Err(fault) => report::digits(rt, file, offset, fault),
    }
}

// Says which of the two files of a value is at fault, and where.
fn refused_value(
    rt: &HostRuntime,
    file: &str,
    octets: &[u8],
    desc_file: &str,
    description: &[u8],
    way: Way,
) {
    let alloc = rt.alloc();
    let desc = match desc_from_json(alloc, description) {
        Ok(desc) => desc,
        Err(fault) => return report::description(rt, alloc, desc_file, description, fault),
    };
    match way {
        Way::Encode => refused_json(rt, file, octets, &desc, description),
        Way::Decode(_) => refused_digits(rt, file, unended(octets), 0),
    }
}

// Says where the JSON of a value is at fault.
fn refused_json(rt: &HostRuntime, file: &str, text: &[u8], desc: &CheckedDesc, description: &[u8]) {
    let alloc = rt.alloc();
    let fault = match parse_json(alloc, text) {
        Ok(json) => value_from_json(alloc, desc, &json).err(),
        Err(fault) => Some(fault),
    };
    if let Some(fault) = fault {
        let at = places::of_value(alloc, description, text, fault);
        report::value(rt, alloc, file, text, fault, at);
    }
}

fn written_ior(rt: &HostRuntime, octets: &[u8], form: LineForm) -> Result<Status, Failure> {
    let mut writer = BufWriter::with_capacity(rt.alloc(), OUTPUT_BUFFER, io::writer(rt))?;
    let status = convert_ior(rt.alloc(), octets, form, &mut writer)?;
    writer.flush()?;
    Ok(status)
}

fn written_corbaloc(rt: &HostRuntime, octets: &[u8], form: LineForm) -> Result<Status, Failure> {
    let mut writer = BufWriter::with_capacity(rt.alloc(), OUTPUT_BUFFER, io::writer(rt))?;
    let status = convert_corbaloc(rt.alloc(), octets, form, &mut writer)?;
    writer.flush()?;
    Ok(status)
}

fn written_value(
    rt: &HostRuntime,
    octets: &[u8],
    description: &[u8],
    way: Way,
    order: Order,
) -> Result<Status, Failure> {
    let mut writer = BufWriter::with_capacity(rt.alloc(), OUTPUT_BUFFER, io::writer(rt))?;
    let status = convert_value(rt.alloc(), octets, description, way, order, &mut writer)?;
    writer.flush()?;
    Ok(status)
}
