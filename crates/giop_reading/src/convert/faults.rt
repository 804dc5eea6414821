//! What standard error says where `convert` refuses a file: which one is at fault, and where.

use giop_files::places;
use giop_files::report::texts;
use giop_forms::Way;
use giop_ior_text::{IorTextFault, ior_octets_from_text};
use giop_json::{desc_from_json, parse_json, value_from_json};
use giop_show::unended;
use giop_types::CheckedDesc;

// How many octets stand before the digits of a reference.
const IOR_PREFIX: usize = 4;

/// Prints what is wrong with the text of a reference, and where.
pub(super) fn print_ior_fault(rt: &HostRuntime, file: &str, text: &[u8]) {
    match ior_octets_from_text(rt.alloc(), text) {
        Err(IorTextFault::BadHex) if text.len() > IOR_PREFIX => {
            print_digits_fault(rt, file, &text[IOR_PREFIX..], IOR_PREFIX);
        }
        Err(IorTextFault::BadPrefix) => texts::text(rt, file, "no text that begins with IOR:"),
        _ => texts::text(rt, file, "the octets of no reference"),
    }
}

/// Prints which of the two files of a value is at fault, and where.
pub(super) fn print_value_fault(
    rt: &HostRuntime,
    file: &str,
    octets: &[u8],
    desc_file: &str,
    description: &[u8],
    way: Way,
) {
    let alloc = rt.alloc();
    let desc = match desc_from_json(alloc, description) {
        Ok(desc) => desc,
        Err(fault) => return texts::description(rt, alloc, desc_file, description, fault),
    };
    match way {
        Way::Encode => print_json_fault(rt, file, octets, &desc, description),
        Way::Decode(_) => print_digits_fault(rt, file, unended(octets), 0),
    }
}

// Prints where hexadecimal digits, of which the first has this offset, are none, if they are.
fn print_digits_fault(rt: &HostRuntime, file: &str, digits: &[u8], offset: usize) {
    match hex::decode(rt.alloc(), digits) {
        Ok(_) => texts::text(rt, file, "the octets of no value of the description"),
        Err(fault) => texts::digits(rt, file, offset, fault),
    }
}

// Prints where the JSON of a value is at fault.
fn print_json_fault(
    rt: &HostRuntime,
    file: &str,
    text: &[u8],
    desc: &CheckedDesc,
    description: &[u8],
) {
    let alloc = rt.alloc();
    let fault = match parse_json(alloc, text) {
        Ok(json) => value_from_json(alloc, desc, &json).err(),
        Err(fault) => Some(fault),
    };
    if let Some(fault) = fault {
        let at = places::of_value(alloc, description, text, fault);
        texts::value(rt, alloc, file, text, fault, at);
    }
}
