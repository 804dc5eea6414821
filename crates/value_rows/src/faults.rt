//! The number and the name of each fault.

use anyhow::{Result, bail};
use giop_cdr::{CdrFault, CdrKind, EncodeFault};
use giop_ior::{CorbalocFault, CorbalocKind, IorTextFault};
use giop_types::DescFault;
use std::alloc::{AllocError, Global};
use std::fmt::Write;

const CDR: [CdrKind; 9] = [
    CdrKind::Short,
    CdrKind::BadBoolean,
    CdrKind::BadString,
    CdrKind::BadCount,
    CdrKind::BadLabel,
    CdrKind::BadOrder,
    CdrKind::BoundPassed,
    CdrKind::Trailing,
    CdrKind::NoMemory,
];

const CORBALOC: [CorbalocKind; 8] = [
    CorbalocKind::BadPrefix,
    CorbalocKind::BadProtocol,
    CorbalocKind::BadHost,
    CorbalocKind::BadPort,
    CorbalocKind::BadVersion,
    CorbalocKind::BadEscape,
    CorbalocKind::BadChar,
    CorbalocKind::NoMemory,
];

/// Each fault of a kind, with its number and its name; those that have a place stand at 1024.
pub fn faults(alloc: Global, of: &str) -> Result<String> {
    Ok(match of {
        "cdr" => cdr(alloc)?,
        "corbaloc" => corbaloc(alloc)?,
        "description" => description(alloc)?,
        "encode" => encode(alloc)?,
        "reference-text" => reference_text(alloc)?,
        _ => bail!("no faults: {of}"),
    })
}

fn cdr(alloc: Global) -> Result<String, AllocError> {
    let mut text = String::new(alloc);
    for kind in CDR {
        text.push_str(behind(text.as_str()))?;
        let fault = CdrFault { at: 1024, kind };
        write!(text, "{} {} {kind}, {fault}", fault.number(), kind.number())?;
    }
    Ok(text)
}

fn corbaloc(alloc: Global) -> Result<String, AllocError> {
    let mut text = String::new(alloc);
    for kind in CORBALOC {
        text.push_str(behind(text.as_str()))?;
        let fault = CorbalocFault { at: 1024, kind };
        write!(text, "{} {} {kind}, {fault}", fault.number(), kind.number())?;
    }
    Ok(text)
}

fn encode(alloc: Global) -> Result<String, AllocError> {
    let mut text = String::new(alloc);
    for fault in [EncodeFault::Unfit, EncodeFault::NoMemory] {
        text.push_str(behind(text.as_str()))?;
        write!(text, "{} {fault}", fault.number())?;
    }
    Ok(text)
}

fn description(alloc: Global) -> Result<String, AllocError> {
    let mut text = String::new(alloc);
    for fault in [
        DescFault::Empty,
        DescFault::Doubled,
        DescFault::BadDiscriminant,
        DescFault::TooDeep,
    ] {
        text.push_str(behind(text.as_str()))?;
        write!(text, "{} {fault}", fault.number())?;
    }
    Ok(text)
}

fn reference_text(alloc: Global) -> Result<String, AllocError> {
    let short = CdrFault {
        at: 4,
        kind: CdrKind::Short,
    };
    let mut text = String::new(alloc);
    for fault in [
        IorTextFault::BadPrefix,
        IorTextFault::BadHex,
        IorTextFault::Cdr(short),
        IorTextFault::NoMemory,
    ] {
        text.push_str(behind(text.as_str()))?;
        write!(text, "{} {fault}", fault.number())?;
    }
    Ok(text)
}

// What stands between two faults.
fn behind(text: &str) -> &'static str {
    if text.is_empty() { "" } else { "; " }
}
