//! Descriptions read from JSON.
use crate::checked_desc::CheckedDesc;
use crate::desc::{CaseDesc, Desc, NamedDesc};
use crate::form_fault::FormFault;
use crate::json::from_json::is_object_of;
use crate::json::parse::parse;
use crate::json::read_leaves::{label_of, octets_of};
use crate::json::reference::reference_desc;
use giop_cdr::OctetList;
use serde_json::Value as Json;
use std::alloc::Global;

/// No JSON value that is read nests deeper, and each of its levels takes eight steps at most.
pub const STEPS: u32 = 1024;

/// The description that a JSON text is. Refused as BadJson where the text is none, or nests arrays
/// and objects more than 127 deep; else as BadShape where it has another form; else as BadDesc with
/// the fault that `CheckedDesc::check` finds; and as NoMemory where memory is wanting, in place of
/// any.
pub fn desc_from_json(alloc: Global, text: &[u8]) -> Result<CheckedDesc, FormFault> {
    let json = parse(alloc, text)?;
    let desc = desc_of(alloc, &json, STEPS)?;
    checked(desc)
}

/// A description that was checked.
pub fn checked(desc: Desc) -> Result<CheckedDesc, FormFault> {
    match CheckedDesc::check(desc) {
        Ok(checked) => Ok(checked),
        Err(fault) => Err(FormFault::BadDesc(fault)),
    }
}

/// A description, of which so many steps may be taken.
#[cycle(desc_of)]
pub fn desc_of(alloc: Global, json: &Json, steps: u32) -> Result<Desc, FormFault> {
    if steps == 0 {
        return Err(FormFault::BadShape);
    }
    match json {
        Json::String(name) => named_desc(alloc, name.as_str()),
        Json::Object(_) => composed_desc(alloc, json, steps - 1),
        _ => Err(FormFault::BadShape),
    }
}

// A description that is told by its name alone.
fn named_desc(alloc: Global, name: &str) -> Result<Desc, FormFault> {
    match name {
        "boolean" => Ok(Desc::Boolean),
        "octet" => Ok(Desc::Octet),
        "char" => Ok(Desc::Char),
        "short" => Ok(Desc::Short),
        "ushort" => Ok(Desc::UShort),
        "long" => Ok(Desc::Long),
        "ulong" => Ok(Desc::ULong),
        "longlong" => Ok(Desc::LongLong),
        "ulonglong" => Ok(Desc::ULongLong),
        "string" => Ok(Desc::Text(0)),
        "octets" => Ok(Desc::Octets(0)),
        "reference" => Ok(reference_desc(alloc)?),
        _ => Err(FormFault::BadShape),
    }
}

// A description that is told by an object.
#[cycle(desc_of)]
fn composed_desc(alloc: Global, json: &Json, steps: u32) -> Result<Desc, FormFault> {
    if steps == 0 {
        return Err(FormFault::BadShape);
    }
    let steps = steps - 1;
    if let Some(bound) = json.get("string") {
        return Ok(Desc::Text(only(json, bound_of(bound)?)?));
    }
    if let Some(bound) = json.get("octets") {
        return Ok(Desc::Octets(only(json, bound_of(bound)?)?));
    }
    if let Some(names) = json.get("enum") {
        return Ok(Desc::Labels(only(json, names_of(alloc, names)?)?));
    }
    if let Some(members) = json.get("struct") {
        return Ok(Desc::Members(only(json, members_of(alloc, members, steps)?)?));
    }
    if let Some(item) = json.get("sequence") {
        return sequence_of(alloc, json, item, steps);
    }
    if let Some(item) = json.get("array") {
        return array_of(alloc, json, item, steps);
    }
    match json.get("union") {
        Some(disc) => union_of(alloc, json, disc, steps),
        None => Err(FormFault::BadShape),
    }
}

// What the only member of an object is.
fn only<T: Drop>(json: &Json, part: T) -> Result<T, FormFault> {
    if is_object_of(1, json) {
        Ok(part)
    } else {
        Err(FormFault::BadShape)
    }
}

// An unsigned long.
fn ulong_of(json: &Json) -> Result<u32, FormFault> {
    match json.as_u64() {
        Some(number) => match u32::try_from(number) {
            Ok(number) => Ok(number),
            Err(_) => Err(FormFault::BadShape),
        },
        None => Err(FormFault::BadShape),
    }
}

// A bound, which is 1 or more.
fn bound_of(json: &Json) -> Result<u32, FormFault> {
    match ulong_of(json)? {
        0 => Err(FormFault::BadShape),
        bound => Ok(bound),
    }
}

// The items of a list.
fn list_of(json: &Json) -> Result<&[Json], FormFault> {
    match json.as_array() {
        Some(list) => Ok(list.as_slice()),
        None => Err(FormFault::BadShape),
    }
}

// The names of an enum.
fn names_of(alloc: Global, json: &Json) -> Result<Vec<OctetList>, FormFault> {
    let list = list_of(json)?;
    let mut names = Vec::with_capacity(alloc, list.len())?;
    for name in list {
        let octets = octets_of(alloc, name)?;
        names.push(octets)?;
    }
    Ok(names)
}

/// Members: names with their descriptions.
#[cycle(desc_of)]
pub fn members_of(alloc: Global, json: &Json, steps: u32) -> Result<Vec<NamedDesc>, FormFault> {
    if steps == 0 {
        return Err(FormFault::BadShape);
    }
    let list = list_of(json)?;
    let mut members = Vec::with_capacity(alloc, list.len())?;
    for pair in list {
        let member = member_of(alloc, pair, steps - 1)?;
        members.push(member)?;
    }
    Ok(members)
}

// A name with its description.
#[cycle(desc_of)]
fn member_of(alloc: Global, json: &Json, steps: u32) -> Result<NamedDesc, FormFault> {
    if steps == 0 {
        return Err(FormFault::BadShape);
    }
    match list_of(json)? {
        [name, desc] => Ok(NamedDesc {
            name: octets_of(alloc, name)?,
            desc: desc_of(alloc, desc, steps - 1)?,
        }),
        _ => Err(FormFault::BadShape),
    }
}

// A sequence, with its bound where it has one.
#[cycle(desc_of)]
fn sequence_of(alloc: Global, json: &Json, item: &Json, steps: u32) -> Result<Desc, FormFault> {
    if steps == 0 {
        return Err(FormFault::BadShape);
    }
    let bound = match json.get("bound") {
        Some(bound) if is_object_of(2, json) => bound_of(bound)?,
        None if is_object_of(1, json) => 0,
        _ => return Err(FormFault::BadShape),
    };
    let item = desc_of(alloc, item, steps - 1)?;
    Ok(Desc::Items(Box::new(alloc, item)?, bound))
}

// An array, with its length.
#[cycle(desc_of)]
fn array_of(alloc: Global, json: &Json, item: &Json, steps: u32) -> Result<Desc, FormFault> {
    if steps == 0 {
        return Err(FormFault::BadShape);
    }
    let length = match json.get("length") {
        Some(length) if is_object_of(2, json) => ulong_of(length)?,
        _ => return Err(FormFault::BadShape),
    };
    let item = desc_of(alloc, item, steps - 1)?;
    Ok(Desc::Row(Box::new(alloc, item)?, length))
}

// A union, with its member by default where it has one.
#[cycle(desc_of)]
fn union_of(alloc: Global, json: &Json, disc: &Json, steps: u32) -> Result<Desc, FormFault> {
    if steps == 0 {
        return Err(FormFault::BadShape);
    }
    let steps = steps - 1;
    let disc = desc_of(alloc, disc, steps)?;
    let cases = match json.get("cases") {
        Some(cases) => cases_of(alloc, &disc, cases, steps)?,
        None => return Err(FormFault::BadShape),
    };
    let fallback = match json.get("default") {
        Some(member) if is_object_of(3, json) => {
            Some(Box::new(alloc, member_of(alloc, member, steps)?)?)
        }
        None if is_object_of(2, json) => None,
        _ => return Err(FormFault::BadShape),
    };
    Ok(Desc::Choice {
        disc: Box::new(alloc, disc)?,
        cases,
        fallback,
    })
}

// The cases of a union.
#[cycle(desc_of)]
fn cases_of(
    alloc: Global,
    disc: &Desc,
    json: &Json,
    steps: u32,
) -> Result<Vec<CaseDesc>, FormFault> {
    if steps == 0 {
        return Err(FormFault::BadShape);
    }
    let list = list_of(json)?;
    let mut cases = Vec::with_capacity(alloc, list.len())?;
    for form in list {
        let case = case_of(alloc, disc, form, steps - 1)?;
        cases.push(case)?;
    }
    Ok(cases)
}

// A case: its labels, its name and its description.
#[cycle(desc_of)]
fn case_of(alloc: Global, disc: &Desc, json: &Json, steps: u32) -> Result<CaseDesc, FormFault> {
    if steps == 0 {
        return Err(FormFault::BadShape);
    }
    match list_of(json)? {
        [labels, name, desc] => Ok(CaseDesc {
            labels: labels_of(alloc, disc, labels)?,
            name: octets_of(alloc, name)?,
            desc: desc_of(alloc, desc, steps - 1)?,
        }),
        _ => Err(FormFault::BadShape),
    }
}

// The labels of a case.
fn labels_of(alloc: Global, disc: &Desc, json: &Json) -> Result<Vec<i128>, FormFault> {
    let list = list_of(json)?;
    let mut labels = Vec::with_capacity(alloc, list.len())?;
    for label in list {
        let number = label_of(alloc, disc, label)?;
        labels.push(number)?;
    }
    Ok(labels)
}
