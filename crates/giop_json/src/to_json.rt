//! Writing a value as JSON by its description. The form is specs/ToJson.antt, and
//! from_json.rt reads it again, so change them together.
ghost use Rattle.std.specs.Prelude.{◌≡◌, ◌⊎◌, map, option_map, true, false, Ok, IfOk, IfErr, IsErrOf, OnOk, string_bytes};
ghost use Rattle.serde_json.specs.Data.{array, object, no_members, put as with_member};
ghost use Rattle.serde_json.specs.View.{view, items_of, members_view};
ghost use Rattle.giop_json.specs.declared.form_fault.FormFault.TheVariants.{Unfit, NoMemory};
ghost use Rattle.giop_json.specs.declared.number_form.NumberForm.TheVariants.{Plain};
ghost use Rattle.giop_types.specs.Descriptions.CheckedShape.{checked_shape};
ghost use Rattle.giop_types.specs.Descriptions.Shape.{is_leaf};
ghost use Rattle.giop_types.specs.Values.Fits.{fits};
ghost use Rattle.giop_json.specs.FromJson.{from_data};
ghost use Rattle.giop_json.specs.ToJson.{to_data, fields_data, choice_data, selected, selected_data};
ghost use Rattle.giop_types.specs.Values.Views.{desc_view, named_view, case_view, fallback_view, value_view, member_view, fields_of, branches_of};

use crate::form_fault::FormFault;
use crate::leaves::{label_json, name_json, text_json, whole_json};
use crate::number_form::NumberForm;
use crate::reference::{is_reference, reference_json};
use crate::texts::text_of;
use giop_types::parts::has_label;
use giop_types::{CaseDesc, CheckedDesc, Desc, NamedDesc, Value, fits};
use serde_json::{Map, Value as Json};
use std::alloc::{AllocError, Global};

/// A value of this description as JSON, its whole numbers as JSON numbers. `value_from_json` reads
/// it as the value. Refused as Unfit where the value isn't of the description, and as NoMemory when
/// out of memory.
pub fn value_to_json(alloc: Global, desc: &CheckedDesc, value: &Value) -> Result<Json, FormFault>
    ensures value { IfOk result (λ json.
        view json ≡ to_data Plain (checked_shape desc.now) (value_view value.now)) }
    ensures back { IfOk result (λ json.
        from_data (checked_shape desc.now) (view json) ≡ Ok (value_view value.now)) }
    ensures only { fits (checked_shape desc.now) (value_view value.now) ≡ false
        → IsErrOf result Unfit }
    ensures err { IfErr result
        (λ e. ((e ≡ Unfit) × (fits (checked_shape desc.now) (value_view value.now) ≡ false))
        ⊎ (e ≡ NoMemory)) }
{
    value_to_json_in(alloc, NumberForm::Plain, desc, value)
}

/// A value of this description as JSON, its whole numbers in a form. `value_from_json` reads it as
/// the value. Refused as `value_to_json` refuses.
pub fn value_to_json_in(
    alloc: Global,
    numbers: NumberForm,
    desc: &CheckedDesc,
    value: &Value,
) -> Result<Json, FormFault>
    ensures value { IfOk result (λ json.
        view json ≡ to_data numbers (checked_shape desc.now) (value_view value.now)) }
    ensures back { IfOk result (λ json.
        from_data (checked_shape desc.now) (view json) ≡ Ok (value_view value.now)) }
    ensures only { fits (checked_shape desc.now) (value_view value.now) ≡ false
        → IsErrOf result Unfit }
    ensures err { IfErr result
        (λ e. ((e ≡ Unfit) × (fits (checked_shape desc.now) (value_view value.now) ≡ false))
        ⊎ (e ≡ NoMemory)) }
{
    if !fits(desc, value) {
        return Err(FormFault::Unfit);
    }
    Ok(to_json(alloc, numbers, value, desc.desc())?)
}

/// Writes a value as JSON. It is null where the value is of another kind than its description.
#[cycle(to_json)]
#[tactic(auto, unfolding(crate::specs::ToJson::to_data))]
pub fn to_json(
    alloc: Global,
    numbers: NumberForm,
    value: &Value,
    desc: &Desc,
) -> Result<Json, AllocError>
    ensures { IfOk result
        (λ json. view json ≡ to_data numbers (desc_view desc.now) (value_view value.now)) }
{
    match desc {
        Desc::Members(members) => match value {
            Value::Members(values) => {
                if is_reference(members) {
                    reference_json(alloc, value, desc)
                } else {
                    members_json(alloc, numbers, values, members)
                }
            }
            _ => Ok(Json::Null),
        },
        Desc::Choice {
            disc,
            cases,
            fallback,
        } => match value {
            Value::Choice {
                disc: label,
                member,
            } => choice_json(
                alloc,
                label_json(alloc, numbers, disc, label)?,
                member_json(alloc, numbers, member, selected(cases, fallback, label))?,
            ),
            _ => Ok(Json::Null),
        },
        Desc::Items(item, _) => match value {
            Value::Items(values) => items_json(alloc, numbers, values, item),
            _ => Ok(Json::Null),
        },
        Desc::Row(item, _) => match value {
            Value::Row(values) => items_json(alloc, numbers, values, item),
            _ => Ok(Json::Null),
        },
        _ => leaf_json(alloc, numbers, value, desc),
    }
}

// A value that holds no other value.
#[tactic(auto, unfolding(crate::specs::ToJson::to_data))]
fn leaf_json(
    alloc: Global,
    numbers: NumberForm,
    value: &Value,
    desc: &Desc,
) -> Result<Json, AllocError>
    requires { is_leaf (desc_view desc.now) ≡ true }
    ensures { IfOk result
        (λ json. view json ≡ to_data numbers (desc_view desc.now) (value_view value.now)) }
{
    match (desc, value) {
        (Desc::Boolean, Value::Boolean(boolean)) => Ok(Json::from(*boolean)),
        (Desc::Octet, Value::Octet(number)) => Ok(Json::from(*number)),
        (Desc::Char, Value::Char(octet)) => text_json(alloc, &[*octet]),
        (Desc::Short, Value::Short(number)) => Ok(Json::from(*number)),
        (Desc::UShort, Value::UShort(number)) => Ok(Json::from(*number)),
        (Desc::Long, Value::Long(number)) => Ok(Json::from(*number)),
        (Desc::ULong, Value::ULong(number)) => Ok(Json::from(*number)),
        (Desc::LongLong, Value::LongLong(number)) => {
            whole_json(alloc, numbers, &i128::from(*number))
        }
        (Desc::ULongLong, Value::ULongLong(number)) => {
            whole_json(alloc, numbers, &i128::from(*number))
        }
        (Desc::Text(_), Value::Text(text)) => text_json(alloc, text.as_slice()),
        (Desc::Octets(_), Value::Octets(octets)) => {
            Ok(Json::String(hex::encode(alloc, octets.as_slice())?))
        }
        (Desc::Labels(names), Value::Label(ordinal)) => name_json(alloc, names, *ordinal as usize),
        _ => Ok(Json::Null),
    }
}

// The members of a struct as an object, by their names.
#[cycle(to_json)]
fn members_json(
    alloc: Global,
    numbers: NumberForm,
    values: &[Value],
    members: &[NamedDesc],
) -> Result<Json, AllocError>
    ensures { IfOk result (λ json. view json
        ≡ object (fields_data numbers (fields_of (map named_view members.now))
        (map value_view values.now) no_members)) }
{
    let mut object = Map::new(alloc);
    for i in 0..members.len().min(values.len()) {
        let member = &members[i];
        let name = text_of(alloc, member.name.as_slice())?;
        let value = to_json(alloc, numbers, &values[i], &member.desc)?;
        put(&mut object, name, value)?;
    }
    Ok(Json::Object(object))
}

// Adds a member to an object. The name is moved, where `serde_json::put` would copy it.
fn put(object: &mut Map<String, Json>, name: String, value: Json) -> Result<(), AllocError>
    ensures { OnOk result (members_view object.new.entries
        ≡ with_member (string_bytes name) (view value) (members_view object.old.entries)) }
{
    drop(object.insert(name, value)?);
    Ok(())
}

// Values as a list.
#[cycle(to_json)]
fn items_json(
    alloc: Global,
    numbers: NumberForm,
    values: &[Value],
    item: &Desc,
) -> Result<Json, AllocError>
    ensures { IfOk result (λ json. view json ≡ array
        (items_of (map (to_data numbers (desc_view item.now)) (map value_view values.now)))) }
{
    let mut list = Vec::with_capacity(alloc, values.len())?;
    for value in values {
        let json = to_json(alloc, numbers, value, item)?;
        list.push(json)?;
    }
    Ok(Json::Array(list))
}

// The description of the member of a union that a label selects, where it selects one.
fn selected<'a>(
    cases: &'a [CaseDesc],
    fallback: &'a Option<Box<NamedDesc>>,
    label: &i128,
) -> Option<&'a Desc>
    ensures { option_map (λ desc. desc_view desc.now) result
        ≡ selected (branches_of (map case_view cases.now)) (fallback_view fallback.now) label.now }
{
    for case in cases {
        if has_label(&case.labels, label) {
            return Some(&case.desc);
        }
    }
    match fallback {
        Some(named) => Some(&named.desc),
        None => None,
    }
}

// A union: its discriminant and its member.
fn choice_json(alloc: Global, label: Json, member: Json) -> Result<Json, AllocError>
    ensures { IfOk result (λ json. view json ≡ choice_data (view label) (view member)) }
{
    let mut object = Map::new(alloc);
    serde_json::put(&mut object, alloc, "disc", label)?;
    serde_json::put(&mut object, alloc, "value", member)?;
    Ok(Json::Object(object))
}

// The member of a union, where it has one and its description is there; else null.
#[cycle(to_json)]
fn member_json(
    alloc: Global,
    numbers: NumberForm,
    member: &Option<Box<Value>>,
    desc: Option<&Desc>,
) -> Result<Json, AllocError>
    ensures { IfOk result (λ json. view json ≡ selected_data numbers
        (option_map (λ d. desc_view d.now) desc.entry) (member_view member.now)) }
{
    match (member, desc) {
        (Some(value), Some(desc)) => to_json(alloc, numbers, value, desc),
        _ => Ok(Json::Null),
    }
}
