//! The objects that `serve` serves: that of --key, and those of which a file of interfaces or
//! answers names the key. Each has an interface and answers, its own or those of all others.

use crate::object_operations::{Texts, texts_of};
use giop_at_fault::answers::{WIDE, of_answers};
use giop_connections::sending::{form_of, limits_of};
use giop_end::Limits;
use giop_files::files::interface_text::InterfaceText;
use giop_files::files::interfaces::{NOTHING, Offered, own_of};
use giop_files::files::read_or_report;
use giop_files::report;
use giop_files::report::refusals::{refuse_form, refuse_unsent};
use giop_files::report::texts;
use giop_json::{FormFault, interface_from_json};
use giop_names::interface_id;
use giop_serving::serve::answers::{Answers, answers_from_json};
use giop_serving::serve::given::Sending;
use giop_show::failure::Failure;
use giop_show::status::{Limit, Status};
use giop_types::Interface;
use giop_words::{FileWord, ServeWords};
use std::alloc::{AllocError, Global};

/// A file of answers that was read.
#[derive(Drop)]
pub struct Given<'a> {
    /// The key of the object whose it is; `None` where it is of all that have none of their own.
    pub key: Option<&'a [u8]>,
    /// The file's name.
    pub file: &'a str,
    /// What it holds.
    pub text: Vec<u8>,
}

/// What is served by words, and the files that they name.
#[derive(Clone, Copy)]
pub struct Asked<'b, 'a> {
    /// The words.
    pub words: &'b ServeWords<'a>,
    /// The files of interfaces.
    pub offered: &'b [Offered<'b>],
    /// Those of answers.
    pub given: &'b [Given<'b>],
}

/// An object: its key, and what it answers.
#[derive(Drop)]
pub struct Object {
    /// The key.
    pub key: Vec<u8>,
    /// The answers.
    pub answers: Answers,
}

/// The objects, of which the first is that of --key.
#[derive(Drop)]
pub struct Objects {
    /// What they offer.
    pub interface: Interface,
    /// Each of them.
    pub objects: Vec<Object>,
    /// The type id of the first.
    pub type_id: Vec<u8>,
}

/// The files of answers that words name, in their order, or the status where one can't be read,
/// which is reported.
pub(super) fn read_answers<'a>(
    rt: &HostRuntime,
    words: &'a [FileWord<'a>],
) -> Result<Vec<Given<'a>>, Status> {
    let mut given = Vec::new(rt.alloc());
    for word in words {
        let one = Given {
            key: word.key(),
            file: word.file,
            text: read_or_report(rt, word.file)?,
        };
        if given.push(one).is_err() {
            return Err(report::status_of(rt, word.file, Err(Failure::Memory)));
        }
    }
    Ok(given)
}

/// The objects, of which that of --key has this one, by the interface of all files; or the status
/// where answers are refused, which is reported. Where no file is of a single object, the interface
/// is that of the one object.
pub(super) fn objects_of(
    rt: &HostRuntime,
    asked: Asked<'_, '_>,
    key: &[u8],
    interface: Interface,
) -> Result<Objects, Status> {
    let keys = or_memory(rt, keys_of(rt.alloc(), asked, key))?;
    let type_id = or_memory(rt, type_id_of(rt.alloc(), asked, key, true))?;
    let mut all = interface;
    let mut objects = Vec::new(rt.alloc());
    let alone = !asked.is_apart();
    for (i, key) in keys.into_iter().enumerate() {
        let (own, answers) = object_of(rt, asked, key.as_slice(), i == 0)?;
        all = if alone {
            own
        } else {
            let key = or_memory(rt, key.clone())?;
            or_memory(rt, all.with_object(key, own))?
        };
        if objects.push(Object { key, answers }).is_err() {
            return Err(out_of_memory(rt));
        }
    }
    Ok(Objects {
        interface: all,
        objects,
        type_id,
    })
}

impl<'b, 'a> Asked<'b, 'a> {
    // Whether a file is of a single object.
    fn is_apart(&self) -> bool {
        self.offered.iter().any(|one| one.key.is_some())
            || self.given.iter().any(|one| one.key.is_some())
    }

    // The text of the interface of the object of a key: its own, else that of all others; `None`
    // where there is neither.
    fn text(&self, key: &[u8]) -> Option<&'b InterfaceText> {
        Some(&own_of(self.offered, key)?.text)
    }

    // The file of the answers of the object of a key, likewise.
    fn answers(&self, key: &[u8]) -> Option<&'b Given<'b>> {
        match self.given.iter().find(|one| one.key == Some(key)) {
            Some(own) => Some(own),
            None => self.given.iter().find(|one| one.key.is_none()),
        }
    }
}

// The keys of the objects: this one, and those that files name, each once.
fn keys_of(alloc: Global, asked: Asked<'_, '_>, key: &[u8]) -> Result<Vec<Vec<u8>>, AllocError> {
    let mut keys = Vec::new(alloc);
    keys.push(Vec::from_slice(alloc, key)?)?;
    for one in asked.offered {
        with_key(alloc, &mut keys, one.key)?;
    }
    for one in asked.given {
        with_key(alloc, &mut keys, one.key)?;
    }
    Ok(keys)
}

// Appends a key, where there is one that isn't among these.
fn with_key(alloc: Global, keys: &mut Vec<Vec<u8>>, key: Option<&[u8]>) -> Result<(), AllocError> {
    match key {
        Some(key) if !keys.iter().any(|other| other.as_slice() == key) => {
            keys.push(Vec::from_slice(alloc, key)?)?;
            Ok(())
        }
        _ => Ok(()),
    }
}

// What the object of a key offers and what it answers, or the status where the answers are refused,
// which is reported. The first is that of --key.
fn object_of(
    rt: &HostRuntime,
    asked: Asked<'_, '_>,
    key: &[u8],
    first: bool,
) -> Result<(Interface, Answers), Status> {
    let Some(given) = asked.answers(key) else {
        texts::text(rt, "--answers", "an object has no file of it");
        return Err(Status::Usage);
    };
    let offered = match asked.text(key) {
        Some(text) => text.as_slice(),
        None => NOTHING,
    };
    let type_id = or_memory(rt, type_id_of(rt.alloc(), asked, key, first))?;
    let texts = texts_of(
        rt.alloc(),
        offered,
        type_id.as_slice(),
        given.text.as_slice(),
    );
    let texts = or_memory(rt, texts)?;
    let Ok(interface) = interface_from_json(rt.alloc(), texts.interface.as_slice()) else {
        return Err(out_of_memory(rt));
    };
    let answers = answers_of(rt, asked.words, &interface, &texts, given)?;
    Ok((interface, answers))
}

// The octets of an object's type id: for the first the one of the words, where it is given; else
// its interface's own; none where there is neither.
fn type_id_of(
    alloc: Global,
    asked: Asked<'_, '_>,
    key: &[u8],
    first: bool,
) -> Result<Vec<u8>, AllocError> {
    if let (true, Some(type_id)) = (first, asked.words.type_id) {
        return Vec::from_slice(alloc, type_id.as_bytes());
    }
    let Some(text) = asked.text(key) else {
        return Ok(Vec::new(alloc));
    };
    match interface_id(alloc, text.given()) {
        Ok(Some(id)) => octets_of(alloc, id.as_str()),
        Err(FormFault::NoMemory) => Err(AllocError),
        _ => Ok(Vec::new(alloc)),
    }
}

// The octets that a text stands for; none where it stands for no string's.
fn octets_of(alloc: Global, text: &str) -> Result<Vec<u8>, AllocError> {
    let mut octets = Vec::with_capacity(alloc, text.len())?;
    for sign in text.chars() {
        match u8::try_from(u32::from(sign)) {
            Ok(octet) if octet > 0 => octets.push(octet)?,
            _ => return Ok(Vec::new(alloc)),
        }
    }
    Ok(octets)
}

// The answers of these texts, of which that of the file is given too; or the status where they are
// refused, which is reported.
fn answers_of(
    rt: &HostRuntime,
    words: &ServeWords<'_>,
    interface: &Interface,
    texts: &Texts,
    given: &Given<'_>,
) -> Result<Answers, Status> {
    let (alloc, lines, file) = (rt.alloc(), words.lines, given.file);
    let (answers, text) = (texts.answers.as_slice(), given.text.as_slice());
    let sending = sending_within(words, limits_of(words.limits));
    let fault = match answers_from_json(alloc, interface, sending, answers) {
        Ok(answers) => return Ok(answers),
        Err(fault) => fault,
    };
    let wide = sending_within(words, WIDE);
    if fault == FormFault::Unfit && answers_from_json(alloc, interface, wide, answers).is_ok() {
        let at = of_answers(alloc, texts.interface.as_slice(), text, sending, fault);
        let limit = limit_passed(alloc, words, interface, answers);
        return Err(refuse_unsent(rt, lines, file, limit, at));
    }
    let at = of_answers(alloc, texts.interface.as_slice(), text, wide, fault);
    Err(refuse_form(rt, lines, file, text, fault, at))
}

// How answers are sent within limits.
fn sending_within(words: &ServeWords<'_>, limits: Limits) -> Sending {
    Sending {
        form: form_of(words.sending),
        limits,
    }
}

// The limit that answers pass, of which the text is given: that of a message where a greater one
// lets them out, else that of octets that are gathered.
fn limit_passed(
    alloc: Global,
    words: &ServeWords<'_>,
    interface: &Interface,
    answers: &[u8],
) -> Limit {
    let mut limits = limits_of(words.limits);
    limits.message = u32::MAX;
    match answers_from_json(alloc, interface, sending_within(words, limits), answers) {
        Ok(_) => Limit::Message,
        Err(_) => Limit::Gathered,
    }
}

// What was made, or the status where it is out of memory, which is reported.
fn or_memory<T>(rt: &HostRuntime, made: Result<T, AllocError>) -> Result<T, Status> {
    match made {
        Ok(made) => Ok(made),
        Err(_) => Err(out_of_memory(rt)),
    }
}

// That it is out of memory.
fn out_of_memory(rt: &HostRuntime) -> Status {
    report::status_of(rt, "--answers", Err(Failure::Memory))
}
