//! Words of a row that stand for numbers and the like.

use anyhow::{Result, bail};
use giop_calls::CallKind;
use giop_msg::Version;
use std::alloc::{AllocError, Global};

/// The words of a line, up to a comment.
pub fn split(alloc: Global, line: &str) -> Result<Vec<&str>, AllocError> {
    let row = match line.split_once('#') {
        Some((row, _)) => row,
        None => line,
    };
    row.split_whitespace().collect(alloc)
}

/// A number, in decimal digits.
pub fn number(word: &str) -> Result<u32> {
    match word.parse::<u32>() {
        Ok(number) => Ok(number),
        Err(_) => bail!("no number: {word}"),
    }
}

/// The flags of a Request, in decimal digits.
pub fn flags(word: &str) -> Result<u8> {
    match word.parse::<u8>() {
        Ok(flags) => Ok(flags),
        Err(_) => bail!("no flags: {word}"),
    }
}

/// `1.0`, `1.1` or `1.2`.
pub fn version(word: &str) -> Result<Version> {
    Ok(match word {
        "1.0" => Version::V10,
        "1.1" => Version::V11,
        "1.2" => Version::V12,
        _ => bail!("no version: {word}"),
    })
}

/// `request` or `locate`.
pub fn kind(word: &str) -> Result<CallKind> {
    Ok(match word {
        "request" => CallKind::Request,
        "locate" => CallKind::Locate,
        _ => bail!("no kind: {word}"),
    })
}

/// `request` or `locate`.
pub fn kind_word(kind: CallKind) -> &'static str {
    match kind {
        CallKind::Request => "request",
        CallKind::Locate => "locate",
    }
}

/// The first of two words for true, the second for false.
pub fn is_first(word: &str, first: &str, second: &str) -> Result<bool> {
    if word == first {
        return Ok(true);
    }
    if word == second {
        return Ok(false);
    }
    bail!("neither {first} nor {second}: {word}")
}
