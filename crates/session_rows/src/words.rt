//! Words of a row that stand for numbers, octets and the like.

use anyhow::{Context, Result, bail};
use giop_cdr::OctetList;
use giop_msg::Version;
use giop_session::Form;
use giop_session::laws::CheckedForm;
use percent_encoding::percent_decode;
use rows::{number, order};
use std::alloc::{AllocError, Global};

/// `1.0`, `1.1` or `1.2`.
pub fn version(word: &str) -> Result<Version> {
    Ok(match word {
        "1.0" => Version::V10,
        "1.1" => Version::V11,
        "1.2" => Version::V12,
        _ => bail!("no version: {word}"),
    })
}

/// How a message is sent: its byte order, and the most octets of a piece.
pub fn form(order_word: &str, piece: &str) -> Result<CheckedForm> {
    let form = Form {
        order: order(order_word)?,
        piece: number(piece)?,
    };
    Ok(CheckedForm::check(form).context("a piece is a multiple of 8, and 24 at least")?)
}

/// Octets as text, of which `%` and two hexadecimal digits stand for any.
pub fn text(alloc: Global, word: &str) -> Result<OctetList, AllocError> {
    let mut octets = Vec::new(alloc);
    percent_decode(word.as_bytes()).append_to(&mut octets)?;
    Ok(OctetList::from(octets))
}
