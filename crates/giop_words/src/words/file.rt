//! The words of files that objects may have of their own: --interface and --answers, as FILE or
//! KEY=FILE. A change here is one in docs/giopctl.md and tests/program too.

ghost use Rattle.std.specs.Prelude.{◌≡◌, ◌+◌, ◌<◌, ◌≤◌, option_map, OnErr, OnOk};
ghost use Rattle.std.specs.Option.{option_map_or};
ghost use Rattle.giop_words.specs.Inputs.{input, inputs_among, is_input, target_input};

use crate::words::row::{Needed, Place, Row, Takes};
use clap::ArgMatches;
use giop_ior::{CorbalocKind, corbaloc_from_text};
use std::alloc::{AllocError, Global};

/// The name of a file, and whose it is.
#[derive(Debug, Drop)]
pub struct FileWord<'a> {
    /// The key of its object; `None` where it is of all objects that have none of their own.
    pub key: Option<Vec<u8>>,
    /// The file's name, or `-` for the standard input.
    pub file: &'a str,
}

impl FileWord<'_> {
    /// The key of its object, where it is of a single one.
    pub fn key(&self) -> Option<&[u8]>
        ensures { option_map (λ octets. octets.now) result
            ≡ option_map (λ octets. octets.items) self.now.key }
    {
        match &self.key {
            Some(key) => Some(key.as_slice()),
            None => None,
        }
    }
}

/// The files of an option, in their order, or what is wrong with one of its words.
pub type Files<'a> = Result<Vec<FileWord<'a>>, &'static str>;

// What stands before a key, so that it is read as that of a corbaloc.
const BEFORE: &[u8] = b"corbaloc::h/";

const BAD_KEY: &str =
    "the KEY of KEY=FILE is as in a corbaloc: other octets are % and two hexadecimal digits";

const TWICE: &str =
    "an object has one file of --interface and one of --answers, and so have all others together";

/// The option of the files of interfaces.
pub(crate) const INTERFACE: Row = Row {
    name: "interface",
    place: Place::Repeated("FILE"),
    needed: Needed::Yes,
    takes: Takes::Text,
    help: "The file of the interface, in JSON; KEY=FILE is that of one object alone",
};

/// The option of the files of answers.
pub(crate) const ANSWERS: Row = Row {
    name: "answers",
    place: Place::Repeated("FILE"),
    needed: Needed::Yes,
    takes: Takes::Text,
    help: "The file of the answers, in JSON; KEY=FILE is that of one object alone",
};

/// The files of an option, in their order, or what is wrong with one of its words. What stands
/// before the first `=` of a word is the key; where nothing does, there is none.
pub(crate) fn file_words<'a>(
    alloc: Global,
    matches: &ArgMatches<'a>,
    name: &str,
) -> Result<Files<'a>, AllocError> {
    let mut words: Vec<FileWord<'a>> = Vec::new(alloc);
    let Some(texts) = matches.get_strs(name) else {
        return Ok(Ok(words));
    };
    for text in texts {
        let word = match file_word(alloc, *text)? {
            Ok(word) => word,
            Err(wrong) => return Ok(Err(wrong)),
        };
        if words.iter().any(|other| other.key == word.key) {
            return Ok(Err(TWICE));
        }
        words.push(word)?;
    }
    Ok(Ok(words))
}

fn file_word<'a>(
    alloc: Global,
    text: &'a str,
) -> Result<Result<FileWord<'a>, &'static str>, AllocError> {
    let (key, file) = match text.split_once('=') {
        Some(("", file)) => (None, file),
        Some((key, file)) => match key_of(alloc, key.as_bytes())? {
            Some(key) => (Some(key), file),
            None => return Ok(Err(BAD_KEY)),
        },
        None => (None, text),
    };
    Ok(Ok(FileWord { key, file }))
}

// The octets of a key, as the text of a corbaloc has them; `None` where it has them in no such way.
fn key_of(alloc: Global, text: &[u8]) -> Result<Option<Vec<u8>>, AllocError> {
    let mut corbaloc = Vec::from_slice(alloc, BEFORE)?;
    corbaloc.extend_from_slice(text)?;
    match corbaloc_from_text(alloc, corbaloc.as_slice()) {
        Ok(corbaloc) => Ok(Some(Vec::from_slice(alloc, corbaloc.key.as_slice())?)),
        Err(fault) if fault.kind == CorbalocKind::NoMemory => Err(AllocError),
        Err(_) => Ok(None),
    }
}

/// Whether a file is the standard input.
pub fn is_input(name: &str) -> bool
    ensures { result ≡ is_input name.now }
{
    name == "-"
}

/// 1 where a file is the standard input, else 0.
pub fn input(name: &str) -> usize
    ensures value { result ≡ input name.now }
    ensures within { result ≤ 1 }
{
    if is_input(name) { 1 } else { 0 }
}

/// 1 where there is such a file and it is the standard input, else 0.
pub fn input_of(name: Option<&str>) -> usize
    ensures value { result ≡ option_map_or (λ name. input name.now) name.entry 0 }
    ensures within { result ≤ 1 }
{
    match name {
        Some(name) => input(name),
        None => 0,
    }
}

/// 1 where the text of a target is in the standard input, else 0.
pub fn target_input(target: &str) -> usize
    ensures value { result ≡ target_input target.now }
    ensures within { result ≤ 1 }
{
    if target == "@-" { 1 } else { 0 }
}

/// How many files of an option are the standard input.
pub fn inputs_among(words: &[FileWord<'_>]) -> usize
    ensures { result ≡ inputs_among words.now }
{
    words.iter().filter(|word| is_input(word.file)).count()
}

/// Refuses more than one file that is the standard input, which is read once: so many are among
/// these and so many among others. It says why.
pub fn once(these: usize, others: usize) -> Result<(), &'static str>
    ensures ok { OnOk result (these + others ≤ 1) }
    ensures err { OnErr result (1 < these + others) }
{
    if these <= 1 && others <= 1 - these {
        Ok(())
    } else {
        Err("- is the standard input, and stands for one file alone")
    }
}
