//! What is wanted of a part, and what stands there, in words for people.
use crate::part::Part;
use crate::role::Role;
use serde_json::Value as Json;
use std::alloc::{AllocError, Global};

// The most characters that are shown of a part.
const SHOWN: usize = 60;

// `fault_code` of a description that is nested too deep.
const TOO_DEEP: u8 = 14;

// What is wanted of an answer.
const ANSWER: &str =
    "an object of ok, user and members, system, forward or forward_perm, with a value for each,";

/// What is wanted of a part that is refused with a fault of this number, and what stands there.
pub fn words_of(alloc: Global, part: Part<'_>, number: u8) -> Result<String, AllocError> {
    let shown = shown_of(alloc, part.json)?;
    match part.role {
        _ if number == TOO_DEEP => {
            format!(in alloc; "a description nested more than 32 deep, {shown}")
        }
        Role::Unknown => format!(in alloc; "a key or an item too many, {shown}"),
        Role::Description if number > 10 => format!(in alloc; "a description of no type, {shown}"),
        Role::Description => format!(in alloc; "no description, {shown}"),
        Role::Value => {
            let wanted = value_wanted(alloc, part.beside)?;
            format!(in alloc; "{wanted} is wanted, not {shown}")
        }
        Role::Labels | Role::Label => {
            let disc = shown_of(alloc, part.beside)?;
            format!(in alloc; "{} on {disc} is wanted, not {shown}", wanted(part.role))
        }
        role => format!(in alloc; "{} is wanted, not {shown}", wanted(role)),
    }
}

// The text of a JSON value, or its beginning where it is long.
fn shown_of(alloc: Global, json: &Json) -> Result<String, AllocError> {
    let text = json.to_string(alloc)?;
    let mut shown = String::new(alloc);
    for (i, c) in text.as_str().chars().enumerate() {
        if i == SHOWN {
            shown.push_str(" ..")?;
            return Ok(shown);
        }
        shown.push(c)?;
    }
    Ok(shown)
}

// What is wanted of a part, by its role.
fn wanted(role: Role) -> &'static str {
    match role {
        Role::Interface => "an object of operations, and of exceptions where it has any,",
        Role::Operations => "an object of operations by their names, without U+0000,",
        Role::Operation => "an object of ins, outs and oneway, with no outs where it is oneway,",
        Role::Parameters => "a list of [NAME,DESCRIPTION], no name twice or with U+0000,",
        Role::Parameter | Role::Member => "[NAME,DESCRIPTION]",
        Role::Oneway => "true or false",
        Role::Exceptions => "an object of exceptions by their ids, without U+0000,",
        Role::Names => "a list of one name or more, none twice,",
        Role::Name => "a text of characters up to U+00FF",
        Role::Bound | Role::Length => "a whole number from 1 to 4294967295",
        Role::Members => "a list of one [NAME,DESCRIPTION] or more, no name twice,",
        Role::Cases => "a list of one [[LABEL,..],NAME,DESCRIPTION] or more, no label twice,",
        Role::Case => "[[LABEL,..],NAME,DESCRIPTION]",
        Role::Labels => "a list of one label or more of a union",
        Role::Label => "a label of a union",
        Role::Arguments => "a list of a value for each parameter",
        Role::Calls => "a list of calls",
        Role::Call => "an object of id, operation and ins, with a value for each of the ins,",
        Role::Offered => "the name of an operation of the interface",
        Role::Answers => {
            "an answer for each operation that isn't oneway, or * for those left out, and no other,"
        }
        Role::Answer => ANSWER,
        Role::Raised => "the id of an exception of the interface",
        Role::Completion => "a whole number from 0 to 2",
        Role::Forward => "the text of a reference, IOR: and hexadecimal digits, or a corbaloc,",
        _ => "another form",
    }
}

// What is wanted of a value, by the JSON of its description.
fn value_wanted(alloc: Global, desc: &Json) -> Result<String, AllocError> {
    match desc.as_str() {
        Some(name) => String::from_str(alloc, leaf_wanted(name)),
        None => composed_wanted(alloc, desc),
    }
}

// What is wanted of a value whose description is this name.
fn leaf_wanted(name: &str) -> &'static str {
    match name {
        "boolean" => "true or false",
        "octet" => "a whole number from 0 to 255",
        "char" => "a text of one character up to U+00FF",
        "short" => "a whole number from -32768 to 32767",
        "ushort" => "a whole number from 0 to 65535",
        "long" => "a whole number from -2147483648 to 2147483647",
        "ulong" => "a whole number from 0 to 4294967295",
        "longlong" => "a whole number from -9223372036854775808 to 9223372036854775807",
        "ulonglong" => "a whole number from 0 to 18446744073709551615",
        "string" => "a text of characters from U+0001 to U+00FF",
        "octets" => "a text of pairs of hexadecimal digits",
        "reference" => "the text of a reference, IOR: and hexadecimal digits,",
        _ => "a value",
    }
}

// What is wanted of a value whose description is an object.
fn composed_wanted(alloc: Global, desc: &Json) -> Result<String, AllocError> {
    if let Some(bound) = desc.get("string") {
        let bound = shown_of(alloc, bound)?;
        return format!(in alloc; "a text of at most {bound} characters from U+0001 to U+00FF");
    }
    if let Some(bound) = desc.get("octets") {
        let bound = shown_of(alloc, bound)?;
        return format!(in alloc; "pairs of hexadecimal digits of at most {bound} octets");
    }
    if let Some(names) = desc.get("enum") {
        let names = shown_of(alloc, names)?;
        return format!(in alloc; "one of the names {names}");
    }
    match (desc.get("length"), desc.get("bound")) {
        (Some(length), _) => {
            let length = shown_of(alloc, length)?;
            format!(in alloc; "a list of {length} items")
        }
        (None, Some(bound)) => {
            let bound = shown_of(alloc, bound)?;
            format!(in alloc; "a list of at most {bound} items")
        }
        (None, None) => String::from_str(alloc, whole_wanted(desc)),
    }
}

// What is wanted of a value that has values within it.
fn whole_wanted(desc: &Json) -> &'static str {
    match (desc.get("struct"), desc.get("union")) {
        (Some(_), _) => "an object of the members of its struct, and no others,",
        (None, Some(_)) => "an object of disc and value, with the value that disc selects,",
        (None, None) => "a list",
    }
}
