//! Parts of the JSON of calls and answers.
ghost use Rattle.std.specs.Prelude.{◌≡◌, option_map};
ghost use Rattle.serde_json.specs.View.{view};
ghost use Rattle.giop_types.specs.Descriptions.CheckedShape.{checked_shape};
ghost use Rattle.giop_types.specs.JsonForms.FromJson.{Shows, is_object_of};
ghost use Rattle.giop_types.specs.Values.Views.{value_view};
ghost use Rattle.giopctl.specs.CallForms.{number_in, octets_in, value_in};

use giop_cdr::OctetList;
use giop_types::{CheckedDesc, Desc, FormFault, Parameter, Value, ValueList, value_from_json};
use serde_json::Value as Json;
use std::alloc::Global;

/// Whether this is an object of so many members.
pub fn is_object_of(count: usize, json: &Json) -> bool
    ensures { result ≡ is_object_of count (view json.now) }
{
    match json.as_object() {
        Some(object) => object.len() == count,
        None => false,
    }
}

/// The octets that a text stands for, as a value of type string is one: no null is among them.
pub fn octets_of(alloc: Global, json: &Json) -> Result<OctetList, FormFault>
    ensures { Shows (λ octets. octets) result (octets_in (view json.now)) }
{
    let Ok(text) = CheckedDesc::check(Desc::Text(0)) else {
        return Err(FormFault::BadShape);
    };
    match fitting(alloc, &text, json)? {
        Some(Value::Text(octets)) => Ok(octets),
        _ => Err(FormFault::BadShape),
    }
}

/// The number of an unsigned long; `None` where it is a whole number that is none.
pub fn ulong_of(alloc: Global, json: &Json) -> Result<Option<u32>, FormFault>
    ensures { Shows (λ number. number) result (number_in (view json.now)) }
{
    let Ok(ulong) = CheckedDesc::check(Desc::ULong) else {
        return Err(FormFault::BadShape);
    };
    match fitting(alloc, &ulong, json)? {
        Some(Value::ULong(number)) => Ok(Some(number)),
        _ => Ok(None),
    }
}

/// The values of a list, each by the description of its parameter; `None` where their forms are
/// right and one of them doesn't fit, or where they are more or fewer than the parameters. `BadShape`
/// where one is of another form.
pub fn values_of(
    alloc: Global,
    parameters: &[Parameter],
    json: &Json,
) -> Result<Option<ValueList>, FormFault> {
    let Some(list) = json.as_array() else {
        return Err(FormFault::BadShape);
    };
    let mut values = ValueList::new(alloc);
    let mut fit = list.len() == parameters.len();
    for i in 0..list.len().min(parameters.len()) {
        match fitting(alloc, &parameters[i].desc, &list[i])? {
            Some(value) => values.push(value)?,
            None => fit = false,
        }
    }
    Ok(if fit { Some(values) } else { None })
}

// The value of a description; `None` where the form is right and the value doesn't fit.
fn fitting(alloc: Global, desc: &CheckedDesc, json: &Json) -> Result<Option<Value>, FormFault>
    ensures { Shows (λ value. option_map value_view value) result
        (value_in (checked_shape desc.now) (view json.now)) }
{
    match value_from_json(alloc, desc, json) {
        Ok(value) => Ok(Some(value)),
        Err(FormFault::Unfit) => Ok(None),
        Err(FormFault::NoMemory) => Err(FormFault::NoMemory),
        Err(_) => Err(FormFault::BadShape),
    }
}
