//! What standard error says of the text of a file that is refused: what is wrong with it, and
//! where.

use crate::files::interface_text::InterfaceText;
use crate::places;
use crate::report::path_shown::PathShown;
use giop_json::{FormFault, interface_from_json};
use giop_show::status::Limit;
use giop_where::{Place, Role};
use hex::FromHexError;
use serde_json::Value as Json;
use std::alloc::Global;
use std::io;

/// Prints what is wrong with the text of an interface, and where, as far as that is known; nothing
/// where it is an interface.
pub fn interface(rt: &impl Eprint, alloc: Global, file: &str, text: &InterfaceText) {
    let Err(fault) = interface_from_json(alloc, text.as_slice()) else {
        return;
    };
    if !text.is_plain() && fault != FormFault::BadJson && fault != FormFault::NoMemory {
        let _ = eprintln!(rt;
            "giopctl: {file}: id, comment, types, raises, or the name of a type, not as it should be"
        );
        return;
    }
    let other = "JSON, but not in the form of an interface";
    print_fault(rt, alloc, file, text.given(), fault, other);
    let at = places::of_interface(alloc, text, fault);
    print_place(rt, file, fault, at);
}

/// Prints what is wrong with the text of a description, and where, as far as that is known.
pub fn description(rt: &impl Eprint, alloc: Global, file: &str, text: &[u8], fault: FormFault) {
    let other = "JSON, but not in the form of a description";
    print_fault(rt, alloc, file, text, fault, other);
    let at = places::of_file(alloc, Role::Description, text, fault);
    print_place(rt, file, fault, at);
}

/// Prints what is wrong with the text of a value, and where.
pub fn value(
    rt: &impl Eprint,
    alloc: Global,
    file: &str,
    text: &[u8],
    fault: FormFault,
    at: Option<Place>,
) {
    let other = "JSON, but not in the form that its description wants";
    print_fault(rt, alloc, file, text, fault, other);
    if fault == FormFault::Unfit {
        let _ = eprintln!(rt; "giopctl: {file}: a value that doesn't fit its description");
    }
    print_place(rt, file, fault, at);
}

/// Prints what is wrong with the text of calls or answers, and where, as far as that is known.
pub(super) fn form(
    rt: &impl Eprint,
    alloc: Global,
    file: &str,
    text: &[u8],
    fault: FormFault,
    at: Option<Place>,
) {
    let other = "JSON, but not in the form that is wanted, or not of the interface";
    print_fault(rt, alloc, file, text, fault, other);
    if fault == FormFault::Unfit {
        let _ = eprintln!(rt;
            "giopctl: {file}: a value, or their number, doesn't fit the interface"
        );
    }
    print_place(rt, file, fault, at);
}

/// Prints the option of the limit that an answer of a file passes, and where that answer stands.
pub(super) fn unsent(rt: &impl Eprint, file: &str, limit: Limit, at: Option<Place>) {
    let _ = match at {
        Some(place) => {
            let path = PathShown(place.path.as_slice());
            eprintln!(rt;
                "giopctl: {file}: at {path}: an answer is larger than its limit; raise it by {limit}"
            )
        }
        None => eprintln!(rt;
            "giopctl: {file}: an answer is larger than its limit; raise it by {limit}"
        ),
    };
}

/// Prints which of some words are no JSON, and where they cease to be.
pub(crate) fn words(rt: &impl Eprint, alloc: Global, words: &[&str]) {
    for word in words {
        let _ = print_json_error(rt, alloc, word, word.as_bytes());
    }
}

/// Prints what is wrong with a text that is no JSON.
pub fn text(rt: &impl Eprint, file: &str, wrong: &str) {
    let _ = eprintln!(rt; "giopctl: {file}: {wrong}");
}

/// Prints why hexadecimal digits are refused, and where: the first of them has this offset.
pub fn digits(rt: &impl Eprint, file: &str, offset: usize, fault: FromHexError) {
    let _ = match fault {
        FromHexError::InvalidHexCharacter { index, .. } => {
            eprintln!(rt;
                "giopctl: {file}: no hexadecimal digit at {}",
                offset.saturating_add(index)
            )
        }
        FromHexError::OddLength => eprintln!(rt;
            "giopctl: {file}: an odd number of hexadecimal digits"
        ),
        _ => Ok(()),
    };
}

// Prints what is wrong with a text; where it is JSON of another form, that is said so.
fn print_fault(
    rt: &impl Eprint,
    alloc: Global,
    file: &str,
    text: &[u8],
    fault: FormFault,
    other: &str,
) {
    let _ = match fault {
        FormFault::BadJson => print_json_error(rt, alloc, file, text),
        FormFault::BadShape => eprintln!(rt; "giopctl: {file}: {other}"),
        FormFault::BadDesc(fault) => {
            eprintln!(rt; "giopctl: {file}: a description of no type: {fault}")
        }
        FormFault::Unfit | FormFault::NoMemory => Ok(()),
    };
}

// Prints where a file is at fault, where that is known; where memory is wanting, no part is.
fn print_place(rt: &impl Eprint, file: &str, fault: FormFault, place: Option<Place>) {
    match place {
        Some(place) if fault != FormFault::NoMemory => {
            let _ = eprintln!(rt; "giopctl: {file}: at {place}");
        }
        _ => {}
    }
}

// Prints where a text ceases to be JSON.
fn print_json_error(rt: &impl Eprint, alloc: Global, file: &str, text: &[u8]) -> io::Result<()> {
    match Json::from_slice(alloc, text) {
        Err(error) => eprintln!(rt; "giopctl: {file}: {error}"),
        Ok(_) => Ok(()),
    }
}
