//! Parts of the JSON of calls and answers (docs/FORMATS.md, "Calls and answers"). Their forms are
//! specs/Session/Forms.antt: change both.
ghost use Rattle.std.specs.Prelude.{◌≡◌, ◌++◌, ◌∷◌, [], option_map, IfOk};
ghost use Rattle.serde_json.specs.View.{view, items_view};
ghost use Rattle.giop_types.specs.Descriptions.CheckedShape.{checked_shape};
ghost use Rattle.giop_json.specs.FromJson.{Shows, is_object_of};
ghost use Rattle.giop_types.specs.Values.Views.{value_view};
ghost use Rattle.giop_commands.specs.Session.Forms.{each_value, made_of, number_in, octets_in, value_in, values_in};

use giop_cdr::OctetList;
use giop_json::{FormFault, value_from_json};
use giop_types::{CheckedDesc, Desc, Parameter, Value, ValueList};
use serde_json::Value as Json;
use std::alloc::{AllocError, Global};

/// Whether a JSON value is an object of so many members.
pub fn is_object_of(count: usize, json: &Json) -> bool
    ensures { result ≡ is_object_of count (view json.now) }
{
    match json.as_object() {
        Some(object) => object.len() == count,
        None => false,
    }
}

/// The octets that a text stands for, as a value of type string is one: no null is among them.
pub fn octets_of(alloc: Global, json: &Json) -> Result<OctetList, FormFault>
    ensures { Shows (λ octets. octets) result (octets_in (view json.now)) }
{
    let Ok(text) = CheckedDesc::check(Desc::Text(0)) else {
        return Err(FormFault::BadShape);
    };
    match fitting(alloc, &text, json)? {
        Some(Value::Text(octets)) => Ok(octets),
        _ => Err(FormFault::BadShape),
    }
}

/// The number of an unsigned long; `None` where it is a whole number that is no unsigned long.
pub fn ulong_of(alloc: Global, json: &Json) -> Result<Option<u32>, FormFault>
    ensures { Shows (λ number. number) result (number_in (view json.now)) }
{
    let Ok(ulong) = CheckedDesc::check(Desc::ULong) else {
        return Err(FormFault::BadShape);
    };
    match fitting(alloc, &ulong, json)? {
        Some(Value::ULong(number)) => Ok(Some(number)),
        _ => Ok(None),
    }
}

/// The values of a list, each by the description of its parameter; `None` where their forms are
/// right and one of them doesn't fit, or where they are more or fewer than the parameters.
/// `BadShape` where one is of another form.
pub fn values_of(
    alloc: Global,
    parameters: &[Parameter],
    json: &Json,
) -> Result<Option<ValueList>, FormFault>
    ensures { Shows (λ values. values) result (values_in parameters.now (view json.now)) }
{
    match json.as_array() {
        Some(list) => values_by(alloc, parameters, list.as_slice()),
        None => Err(FormFault::BadShape),
    }
}

// The values of a list, one after the other; `None` where their forms are right and one of them
// doesn't fit, or where they are more or fewer than the parameters.
fn values_by(
    alloc: Global,
    parameters: &[Parameter],
    list: &[Json],
) -> Result<Option<ValueList>, FormFault>
    ensures { Shows (λ values. values) result (each_value parameters.now (items_view list.now)) }
{
    let mut values = Some(Vec::new(alloc));
    for i in 0..list.len().min(parameters.len()) {
        let value = fitting(alloc, &parameters[i].desc, &list[i])?;
        values = with_item(values, value)?;
    }
    if list.len() != parameters.len() {
        return Ok(None);
    }
    match values {
        Some(values) => Ok(Some(ValueList::from(values))),
        None => Ok(None),
    }
}

/// Items and one more behind them; `None` where one of them doesn't fit.
pub fn with_item<T: Drop>(
    items: Option<Vec<T>>,
    item: Option<T>,
) -> Result<Option<Vec<T>>, AllocError>
    ensures { IfOk result (λ more. option_map (λ v. v.items) more
        ≡ made_of (λ xs x. xs ++ x ∷ []) (option_map (λ v. v.items) items) item) }
{
    match (items, item) {
        (Some(mut items), Some(item)) => {
            items.push(item)?;
            Ok(Some(items))
        }
        _ => Ok(None),
    }
}

// The value of a description; `None` where the form is right and the value doesn't fit.
fn fitting(alloc: Global, desc: &CheckedDesc, json: &Json) -> Result<Option<Value>, FormFault>
    ensures { Shows (λ value. option_map value_view value) result
        (value_in (checked_shape desc.now) (view json.now)) }
{
    match value_from_json(alloc, desc, json) {
        Ok(value) => Ok(Some(value)),
        Err(FormFault::Unfit) => Ok(None),
        Err(FormFault::NoMemory) => Err(FormFault::NoMemory),
        Err(_) => Err(FormFault::BadShape),
    }
}
