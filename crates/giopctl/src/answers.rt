//! The answers that a file gives, in JSON.
ghost use Rattle.std.specs.Prelude.{◌≡◌, ◌⊎◌, None, IsErrAnd};
ghost use Rattle.giop_types.specs.declared.json.form_fault.FormFault.TheVariants.{BadJson, NoMemory};
ghost use Rattle.giop_types.specs.JsonForms.DescFromJson.{json_in};

use crate::json::{is_object_of, octets_of, values_of};
use giop_cdr::OctetList;
use giop_types::{FormFault, Interface, Operation, ValueList, parse_json};
use serde_json::Value as Json;
use std::alloc::{AllocError, Global};

/// What an operation is answered.
#[derive(Debug, Drop)]
pub enum AnswerGiven {
    /// Its result, and the inout and out parameters, in their order.
    Ok(ValueList),
    /// An exception of the interface.
    User {
        /// The repository id of the exception.
        id: OctetList,
        /// The members of the exception, in their order.
        members: ValueList,
    },
}

/// What the operations of an interface are answered, each but the oneway ones.
#[derive(Debug, Drop)]
pub struct Answers {
    json: Json,
}

impl Answers {
    /// What an operation of this name is answered, by the interface for which the answers were
    /// read. `None` where nothing is given, as for a oneway operation.
    pub fn given(
        &self,
        alloc: Global,
        interface: &Interface,
        name: &[u8],
    ) -> Result<Option<AnswerGiven>, FormFault> {
        let Some(operation) = interface.operation(name) else {
            return Ok(None);
        };
        let key = text_of(alloc, name)?;
        match self.json.get(key.as_str()) {
            Some(json) => given_of(alloc, interface, operation, json),
            None => Ok(None),
        }
    }
}

/// The answers that a JSON text gives: an object with a member for each operation of the interface
/// that isn't oneway, and no other, which is `{"ok":[VALUE,..]}` with the operation's outs, or
/// `{"user":ID,"members":[VALUE,..]}` with an exception of the interface and its members.
///
/// Refused as BadJson where the text is none; else as BadShape where it, or a part of it, has another
/// form, or an exception isn't in the interface; else as Unfit where a value doesn't fit, or there
/// are more or fewer values than outs or members; and as NoMemory where memory is wanting, in place
/// of any.
pub fn answers_from_json(
    alloc: Global,
    interface: &Interface,
    text: &[u8],
) -> Result<Answers, FormFault>
    ensures json { json_in text.now ≡ None
        → IsErrAnd result (λ e. (e ≡ BadJson) ⊎ (e ≡ NoMemory)) }
{
    let json = parse_json(alloc, text)?;
    let mut fit = true;
    let mut answered: usize = 0;
    for (name, operation) in interface.operations().iter() {
        if operation.oneway {
            continue;
        }
        let key = text_of(alloc, name.as_slice())?;
        let Some(given) = json.get(key.as_str()) else {
            return Err(FormFault::BadShape);
        };
        if given_of(alloc, interface, operation, given)?.is_none() {
            fit = false;
        }
        answered = answered.saturating_add(1);
    }
    if !is_object_of(answered, &json) {
        return Err(FormFault::BadShape);
    }
    if fit {
        Ok(Answers { json })
    } else {
        Err(FormFault::Unfit)
    }
}

// What an operation is answered; `None` where the form is right, and a value doesn't fit.
fn given_of(
    alloc: Global,
    interface: &Interface,
    operation: &Operation,
    json: &Json,
) -> Result<Option<AnswerGiven>, FormFault> {
    if let Some(outs) = json.get("ok") {
        if !is_object_of(1, json) {
            return Err(FormFault::BadShape);
        }
        let outs = values_of(alloc, operation.outs.as_slice(), outs)?;
        return Ok(outs.map(AnswerGiven::Ok));
    }
    match json.get("user") {
        Some(id) => exception_of(alloc, interface, id, json),
        None => Err(FormFault::BadShape),
    }
}

// The same of an exception.
fn exception_of(
    alloc: Global,
    interface: &Interface,
    id: &Json,
    json: &Json,
) -> Result<Option<AnswerGiven>, FormFault> {
    let id = octets_of(alloc, id)?;
    let Some(parameters) = interface.exception(id.as_slice()) else {
        return Err(FormFault::BadShape);
    };
    let Some(members) = json.get("members") else {
        return Err(FormFault::BadShape);
    };
    if !is_object_of(2, json) {
        return Err(FormFault::BadShape);
    }
    match values_of(alloc, parameters.as_slice(), members)? {
        Some(members) => Ok(Some(AnswerGiven::User { id, members })),
        None => Ok(None),
    }
}

// The text of octets: the octet n is the character U+00n.
fn text_of(alloc: Global, octets: &[u8]) -> Result<String, AllocError> {
    let mut text = String::with_capacity(alloc, octets.len())?;
    for octet in octets {
        text.push(char::from(*octet))?;
    }
    Ok(text)
}
