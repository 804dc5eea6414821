//! Reading a value from JSON by its description. The form is specs/FromJson.antt, and
//! to_json.rt writes what is read here, so change them together.
ghost use Rattle.std.specs.Prelude.{◌≡◌, true, map, option_and_then, option_map, IfOk, IfErr};
ghost use Rattle.giop_json.specs.declared.form_fault.FormFault.TheVariants.{NoMemory};
ghost use Rattle.giop_types.specs.Descriptions.CheckedShape.{checked_shape};
ghost use Rattle.giop_json.specs.FromJson.{Shows, ShowsCase, Reads, shown, members_shown, fields_shown, branches_shown, fallback_shown, items_shown, is_object_of, union_parts, from_data};
ghost use Rattle.giop_json.specs.JsonText.{text_of};
ghost use Rattle.giop_types.specs.Coding.Outcome.{one_or_none};
ghost use Rattle.giop_types.specs.Descriptions.Shape.{is_leaf};
ghost use Rattle.giop_types.specs.Values.Tree.{choice_of};
ghost use Rattle.giop_types.specs.Values.Views.{desc_view, named_view, case_view, fallback_view, value_view, trees_of, fields_of, branches_of};
ghost use Rattle.serde_json.specs.Find.{get, as_array};
ghost use Rattle.serde_json.specs.View.{view, items_view};

use crate::form_fault::FormFault;
use crate::ordinals::{are_many, named_values};
use crate::read_leaves::{
    char_of, hex_of, label_of, number_of, octets_of, ordinal_of, ordinal_value,
};
use crate::reference::{is_reference, reference_of};
use crate::texts::text_of;
use giop_types::parts::has_label;
use giop_types::{CaseDesc, CheckedDesc, Desc, NamedDesc, Value, fits};
use serde_json::Value as Json;
use std::alloc::{AllocError, Global};

/// The value of this description that a JSON value is. Refused as BadShape where the JSON value, or
/// a part of it, is of another form than the description's; else as Unfit where a range, a bound, a
/// name or a length is broken. Out of memory, NoMemory may be returned in place of either.
pub fn value_from_json(alloc: Global, desc: &CheckedDesc, json: &Json) -> Result<Value, FormFault>
    ensures { Reads value_view result (from_data (checked_shape desc.now) (view json.now)) }
{
    let value = show(alloc, desc.desc(), json)?;
    if fits(desc, &value) {
        Ok(value)
    } else {
        Err(FormFault::Unfit)
    }
}

/// The value that a JSON value shows, whether it fits or not.
#[cycle(show)]
#[tactic(auto, unfolding(crate::specs::FromJson::shown))]
pub fn show(alloc: Global, desc: &Desc, json: &Json) -> Result<Value, FormFault>
    ensures { Shows value_view result (shown (desc_view desc.now) (view json.now)) }
{
    match desc {
        Desc::Members(members) => {
            if is_reference(members) {
                reference_of(alloc, desc, json)
            } else {
                Ok(Value::Members(show_members(alloc, members, json)?))
            }
        }
        Desc::Choice {
            disc,
            cases,
            fallback,
        } => {
            let (label, member) = union_parts(json)?;
            let label = label_of(alloc, disc, label)?;
            match show_case(alloc, cases, &label, member)? {
                Some(value) => chosen(alloc, &label, Some(value)),
                None => chosen(alloc, &label, show_fallback(alloc, fallback, member)?),
            }
        }
        Desc::Items(item, _) => Ok(Value::Items(show_items(alloc, item, json)?)),
        Desc::Row(item, _) => Ok(Value::Row(show_items(alloc, item, json)?)),
        _ => show_leaf(alloc, desc, json),
    }
}

// A value that holds no other value.
#[tactic(auto, unfolding(crate::specs::FromJson::shown))]
fn show_leaf(alloc: Global, desc: &Desc, json: &Json) -> Result<Value, FormFault>
    requires { is_leaf (desc_view desc.now) ≡ true }
    ensures { Shows value_view result (shown (desc_view desc.now) (view json.now)) }
{
    match desc {
        Desc::Boolean => match json.as_bool() {
            Some(boolean) => Ok(Value::Boolean(boolean)),
            None => Err(FormFault::BadShape),
        },
        Desc::Char => Ok(Value::Char(char_of(alloc, json)?)),
        Desc::Text(_) => Ok(Value::Text(octets_of(alloc, json)?)),
        Desc::Octets(_) => Ok(Value::Octets(hex_of(alloc, json)?)),
        Desc::Labels(names) => Ok(ordinal_value(ordinal_of(alloc, names, json)?)),
        _ => number_of(desc, json),
    }
}

/// Whether this is an object of so many members.
pub fn is_object_of(count: usize, json: &Json) -> bool
    ensures { result ≡ is_object_of count (view json.now) }
{
    match json.as_object() {
        Some(object) => object.len() == count,
        None => false,
    }
}

// The values of the members of a struct, which is an object of these members and no others.
#[cycle(show)]
fn show_members(alloc: Global, members: &[NamedDesc], json: &Json) -> Result<Vec<Value>, FormFault>
    ensures { Shows (λ values. map value_view values.items) result
        (members_shown (fields_of (map named_view members.now)) (view json.now)) }
{
    if is_object_of(members.len(), json) {
        show_fields(alloc, members, json)
    } else {
        Err(FormFault::BadShape)
    }
}

// The values of the members of a struct, one after the other, from an object that has as many.
#[cycle(show)]
fn show_fields(alloc: Global, members: &[NamedDesc], json: &Json) -> Result<Vec<Value>, FormFault>
    ensures { Shows (λ values. map value_view values.items) result
        (fields_shown (fields_of (map named_view members.now)) (view json.now)) }
{
    let mut values = Vec::with_capacity(alloc, members.len())?;
    for member in members {
        let value = show_member(alloc, member, json)?;
        values.push(value)?;
    }
    Ok(values)
}

// The value of a member, which is under its name in the object.
#[cycle(show)]
fn show_member(alloc: Global, member: &NamedDesc, json: &Json) -> Result<Value, FormFault>
    ensures { Shows value_view result
        (option_and_then (shown (desc_view member.now.desc))
        (get (text_of member.now.name) (view json.now))) }
{
    match member_under(alloc, member.name.as_slice(), json)? {
        Some(json) => show(alloc, &member.desc, json),
        None => Err(FormFault::BadShape),
    }
}

// What an object has under a name. A name of octets below 128 is its own text, and needs no memory.
fn member_under<'a>(
    alloc: Global,
    name: &[u8],
    json: &'a Json,
) -> Result<Option<&'a Json>, AllocError>
    ensures { IfOk result (λ found. option_map (λ v. view v.now) found
        ≡ get (text_of name.now) (view json.now)) }
{
    if name.is_ascii() {
        if let Ok(name) = str::from_utf8(name) {
            return Ok(json.get(name));
        }
    }
    let name = text_of(alloc, name)?;
    Ok(json.get(name.as_str()))
}

// The values of a sequence or an array, which is a list.
#[cycle(show)]
fn show_items(alloc: Global, item: &Desc, json: &Json) -> Result<Vec<Value>, FormFault>
    ensures { Shows (λ values. map value_view values.items) result
        (option_and_then (items_shown (shown (desc_view item.now))) (as_array (view json.now))) }
{
    let Some(list) = json.as_array() else {
        return Err(FormFault::BadShape);
    };
    match item {
        Desc::Labels(names) if are_many(names, list) => named_values(alloc, names, list),
        _ => show_each(alloc, item, list),
    }
}

// The values of a list, one after the other.
#[cycle(show)]
fn show_each(alloc: Global, item: &Desc, list: &[Json]) -> Result<Vec<Value>, FormFault>
    ensures { Shows (λ values. map value_view values.items) result
        (items_shown (shown (desc_view item.now)) (items_view list.now)) }
{
    let mut values = Vec::with_capacity(alloc, list.len())?;
    for json in list {
        let value = show(alloc, item, json)?;
        values.push(value)?;
    }
    Ok(values)
}

// The discriminant and the member of a union.
fn union_parts(json: &Json) -> Result<(&Json, &Json), FormFault>
    ensures { Shows (λ parts. (view parts.0.now, view parts.1.now)) result
        (union_parts (view json.now)) }
{
    if !is_object_of(2, json) {
        return Err(FormFault::BadShape);
    }
    match (json.get("disc"), json.get("value")) {
        (Some(label), Some(member)) => Ok((label, member)),
        _ => Err(FormFault::BadShape),
    }
}

// A union's value: its discriminant, and its member where it has one.
#[tactic(auto, using(giop_types::proofs::Values::ViewLemmas::chosen_view, giop_types::proofs::Values::ViewLemmas::bare_view))]
fn chosen(alloc: Global, label: &i128, member: Option<Value>) -> Result<Value, FormFault>
    ensures ok { IfOk result
        (λ value. value_view value ≡ choice_of label.now (trees_of (one_or_none member))) }
    ensures err { IfErr result (λ e. e ≡ NoMemory) }
{
    let Some(member) = member else {
        return Ok(Value::Choice {
            disc: *label,
            member: None,
        });
    };
    match Box::new(alloc, member) {
        Ok(member) => Ok(Value::Choice {
            disc: *label,
            member: Some(member),
        }),
        Err(_) => Err(FormFault::NoMemory),
    }
}

// The value of the member that the label selects by a case, where one does.
#[cycle(show)]
fn show_case(
    alloc: Global,
    cases: &[CaseDesc],
    label: &i128,
    json: &Json,
) -> Result<Option<Value>, FormFault>
    ensures { (other : _) → ShowsCase result
        (branches_shown (branches_of (map case_view cases.now)) other label.now (view json.now))
        (other (view json.now)) }
{
    for case in cases {
        if has_label(&case.labels, label) {
            let value = show(alloc, &case.desc, json)?;
            return Ok(Some(value));
        }
    }
    Ok(None)
}

// The value of the member by default. It is None where the union has no default and the JSON value
// is null.
#[cycle(show)]
fn show_fallback(
    alloc: Global,
    fallback: &Option<Box<NamedDesc>>,
    json: &Json,
) -> Result<Option<Value>, FormFault>
    ensures { Shows one_or_none result
        (fallback_shown (fallback_view fallback.now) (view json.now)) }
{
    match fallback {
        Some(member) => Ok(Some(show(alloc, &member.desc, json)?)),
        None => match json.as_null() {
            Some(_) => Ok(None),
            None => Err(FormFault::BadShape),
        },
    }
}
