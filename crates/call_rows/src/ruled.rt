//! What both rules have, for rows.

use anyhow::{Result, bail};
use giop_calls::{CallFault, CallKind, Outcome};
use giop_msg::{Reply, Version};
use giop_mux::CallRule;
use std::alloc::{AllocError, Global};

/// A rule whose events and entries have words.
pub trait Ruled: CallRule<Answer = (), Fault = CallFault> + Copy + Drop {
    /// The event of these words.
    fn event(alloc: Global, words: &[&str]) -> Result<Self::Event>;

    /// The entry of these words; `absent` is none.
    fn entry(alloc: Global, words: &[&str]) -> Result<Option<Self::Entry>>;

    /// An entry by its words.
    fn write_entry(text: &mut String, entry: &Self::Entry) -> Result<(), AllocError>;

    /// What a call came to.
    fn outcome(entry: &Self::Entry) -> Outcome<&Reply>;
}

/// An entry by its words, or `absent`.
pub fn entry_text<R: Ruled>(alloc: Global, entry: Option<&R::Entry>) -> Result<String> {
    let mut text = String::new(alloc);
    match entry {
        Some(entry) => R::write_entry(&mut text, entry)?,
        None => text.push_str("absent")?,
    }
    Ok(text)
}

/// `1.0`, `1.1` or `1.2`.
pub fn version(word: &str) -> Result<Version> {
    Ok(match word {
        "1.0" => Version::V10,
        "1.1" => Version::V11,
        "1.2" => Version::V12,
        _ => bail!("no version: {word}"),
    })
}

/// `request` or `locate`.
pub fn kind(word: &str) -> Result<CallKind> {
    Ok(match word {
        "request" => CallKind::Request,
        "locate" => CallKind::Locate,
        _ => bail!("no kind: {word}"),
    })
}

/// `request` or `locate`.
pub fn kind_word(kind: CallKind) -> &'static str {
    match kind {
        CallKind::Request => "request",
        CallKind::Locate => "locate",
    }
}
