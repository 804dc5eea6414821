//! Numbers and names of messages, versions and faults.

use anyhow::{Result, bail};
use giop_msg::{Kind, Version, WireFault, WireKind};
use std::alloc::{AllocError, Global};
use std::fmt::Write;

const KINDS: [Kind; 8] = [
    Kind::Request,
    Kind::Reply,
    Kind::CancelRequest,
    Kind::LocateRequest,
    Kind::LocateReply,
    Kind::CloseConnection,
    Kind::MessageError,
    Kind::Fragment,
];

const FAULTS: [WireKind; 9] = [
    WireKind::BadMagic,
    WireKind::BadVersion,
    WireKind::ReservedFlags,
    WireKind::BadKind,
    WireKind::TooLarge,
    WireKind::BadSize,
    WireKind::FragmentSize,
    WireKind::NotFragmentable,
    WireKind::NoMemory,
];

/// All of a kind: `kinds` of messages, `versions`, or `faults` of a stream, which stand at 6.
pub fn names(alloc: Global, of: &str) -> Result<String> {
    Ok(match of {
        "kinds" => kinds(alloc)?,
        "versions" => versions(alloc)?,
        "faults" => faults(alloc)?,
        _ => bail!("no names: {of}"),
    })
}

/// `1.0`, `1.1` or `1.2`.
pub fn version(word: &str) -> Result<Version> {
    Ok(match word {
        "1.0" => Version::V10,
        "1.1" => Version::V11,
        "1.2" => Version::V12,
        _ => bail!("no version: {word}"),
    })
}

/// The message of this name.
pub fn kind(word: &str) -> Result<Kind> {
    Ok(match word {
        "Request" => Kind::Request,
        "Reply" => Kind::Reply,
        "CancelRequest" => Kind::CancelRequest,
        "LocateRequest" => Kind::LocateRequest,
        "LocateReply" => Kind::LocateReply,
        "CloseConnection" => Kind::CloseConnection,
        "MessageError" => Kind::MessageError,
        "Fragment" => Kind::Fragment,
        _ => bail!("no message: {word}"),
    })
}

fn kinds(alloc: Global) -> Result<String, AllocError> {
    let mut text = String::new(alloc);
    for kind in KINDS {
        text.push_str(if text.is_empty() { "" } else { "; " })?;
        write!(text, "{} {kind}", kind.number())?;
        text.push_str(if kind.has_request_id() { " id" } else { "" })?;
        text.push_str(if kind.is_fragmentable() {
            " continued"
        } else {
            ""
        })?;
    }
    Ok(text)
}

fn versions(alloc: Global) -> Result<String, AllocError> {
    let mut text = String::new(alloc);
    for version in [Version::V10, Version::V11, Version::V12] {
        text.push_str(if text.is_empty() { "1." } else { "; 1." })?;
        write!(text, "{}", version.minor())?;
        text.push_str(if version.has_fragments() {
            " fragments"
        } else {
            ""
        })?;
    }
    Ok(text)
}

fn faults(alloc: Global) -> Result<String, AllocError> {
    let mut text = String::new(alloc);
    for kind in FAULTS {
        let fault = WireFault { at: 6, kind };
        text.push_str(if text.is_empty() { "" } else { "; " })?;
        write!(text, "{} {} {kind}, {fault}", fault.number(), kind.number())?;
    }
    Ok(text)
}
