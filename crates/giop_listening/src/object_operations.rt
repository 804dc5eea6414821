//! What every object answers by itself (CORBA 3.3 Part 1, 8.3.3, 8.3.4): `_is_a`, by the id of its
//! type, and `_non_existent`, by false. They are added to the files of an interface and of answers
//! that haven't them.

use giop_json::{FormFault, parse_json};
use serde_json::{Map, Value as Json, json};
use std::alloc::{AllocError, Global};

// The operations.
const IS_A: &str = "_is_a";

const NON_EXISTENT: &str = "_non_existent";

/// The texts of an interface, in the plain form, and of the answers to it.
#[derive(Drop)]
pub struct Texts {
    /// That of the interface.
    pub interface: Vec<u8>,
    /// That of the answers.
    pub answers: Vec<u8>,
}

/// These texts of an object whose type has this id: with what every object answers by itself, where
/// the id isn't empty.
pub(super) fn texts_of(
    alloc: Global,
    interface: &[u8],
    type_id: &[u8],
    answers: &[u8],
) -> Result<Texts, AllocError> {
    if type_id.is_empty() {
        return Ok(Texts {
            interface: Vec::from_slice(alloc, interface)?,
            answers: Vec::from_slice(alloc, answers)?,
        });
    }
    let with_answers = with_answers(alloc, interface, type_id, answers);
    let with_operations = with_operations(alloc, interface);
    Ok(Texts {
        interface: or_given(alloc, with_operations, interface)?,
        answers: or_given(alloc, with_answers, answers)?,
    })
}

// A text with more in it; as it was given, where it is refused.
fn or_given(
    alloc: Global,
    text: Result<String, FormFault>,
    given: &[u8],
) -> Result<Vec<u8>, AllocError> {
    match text {
        Ok(text) => Ok(text.into_bytes()),
        Err(FormFault::NoMemory) => Err(AllocError),
        Err(_) => Vec::from_slice(alloc, given),
    }
}

// The text of an interface in the plain form, to which the operations are added that it hasn't.
fn with_operations(alloc: Global, interface: &[u8]) -> Result<String, FormFault> {
    let mut file = parse_json(alloc, interface)?;
    if let Some(operations) = operations_of(&mut file) {
        put_is_a(alloc, operations)?;
        put_non_existent(alloc, operations)?;
    }
    Ok(file.to_string(alloc)?)
}

fn put_is_a(alloc: Global, operations: &mut Map<String, Json>) -> Result<(), AllocError> {
    let outs = json!(in alloc; [["is", "boolean"]])?;
    let is_a = json!(in alloc; {"ins": [["id", "string"]], "outs": outs})?;
    put_wanting(alloc, operations, IS_A, is_a)
}

fn put_non_existent(alloc: Global, operations: &mut Map<String, Json>) -> Result<(), AllocError> {
    let non_existent = json!(in alloc; {"outs": [["is", "boolean"]]})?;
    put_wanting(alloc, operations, NON_EXISTENT, non_existent)
}

// The operations of an interface's file.
fn operations_of(file: &mut Json) -> Option<&mut Map<String, Json>> {
    file.get_mut("operations")?.as_object_mut()
}

// The text of answers, to which those to the operations are added that it doesn't answer, by the
// interface as it was given. The object's type has this id.
fn with_answers(
    alloc: Global,
    interface: &[u8],
    type_id: &[u8],
    answers: &[u8],
) -> Result<String, FormFault> {
    let given = parse_json(alloc, interface)?;
    let mut file = parse_json(alloc, answers)?;
    let default = file.get("*").is_some();
    if let Some(members) = file.as_object_mut() {
        if is_unanswered(&given, default, IS_A) {
            let id = text_of(alloc, type_id)?;
            put_wanting(alloc, members, IS_A, json!(in alloc; {"is_a": id})?)?;
        }
        if is_unanswered(&given, default, NON_EXISTENT) {
            let here = json!(in alloc; {"ok": [false]})?;
            put_wanting(alloc, members, NON_EXISTENT, here)?;
        }
    }
    Ok(file.to_string(alloc)?)
}

// Whether no answer of a file stands for one of the operations where it isn't named: the interface
// hasn't it, or has it with the result that it is to have, and there is no default.
fn is_unanswered(interface: &Json, default: bool, name: &str) -> bool {
    match interface.get("operations").and_then(|all| all.get(name)) {
        Some(operation) => !default && is_boolean(operation),
        None => true,
    }
}

// Whether the result of an operation is one boolean.
fn is_boolean(operation: &Json) -> bool {
    let Some(outs) = operation.get("outs").and_then(Json::as_array) else {
        return false;
    };
    let desc = match outs.as_slice() {
        [out] => out.get(1).and_then(Json::as_str),
        _ => None,
    };
    desc == Some("boolean")
}

// Puts a member there, where none of its name is.
fn put_wanting(
    alloc: Global,
    members: &mut Map<String, Json>,
    name: &str,
    member: Json,
) -> Result<(), AllocError> {
    if members.get(name).is_none() {
        members.insert(String::from_str(alloc, name)?, member)?;
    }
    Ok(())
}

// The text that stands for octets: the octet n is the character U+00n.
fn text_of(alloc: Global, octets: &[u8]) -> Result<Json, AllocError> {
    let mut text = String::with_capacity(alloc, octets.len())?;
    for octet in octets {
        text.push(char::from(*octet))?;
    }
    Ok(Json::String(text))
}
