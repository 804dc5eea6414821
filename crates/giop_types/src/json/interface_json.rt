//! Interfaces read from JSON.
ghost use Rattle.std.specs.Prelude.{◌≡◌, IfOk, IfErr, length, true};
ghost use Rattle.giop_types.specs.JsonForms.DescFromJson.{json_in};
ghost use Rattle.giop_types.specs.JsonForms.InterfaceFaults.{IsOfForm, IsOfPart, MakesOf};

use crate::description::desc::NamedDesc;
use crate::description::name_check::has_doubled_member;
use crate::json::desc_json::{LEVELS, checked, members_of};
use crate::json::form_fault::FormFault;
use crate::json::interface::{Interface, Operation};
use crate::json::parameters::{Parameter, Parameters};
use crate::json::parse::parse;
use crate::json::texts::octets_in;
use giop_cdr::OctetList;
use serde_json::{Map, Value as Json};
use std::alloc::Global;
use std::collections::BTreeMap;

// An operation whose descriptions are still to be checked.
#[derive(Drop)]
struct OperationForm {
    name: OctetList,
    oneway: bool,
    ins: Vec<NamedDesc>,
    outs: Vec<NamedDesc>,
    ghost silent: { oneway ≡ true → length outs.items ≡ 0 },
}

// An exception whose descriptions are still to be checked.
#[derive(Drop)]
struct ExceptionForm {
    id: OctetList,
    members: Vec<NamedDesc>,
}

/// The interface that a JSON text is. Refused as BadJson where the text is none, or nests arrays
/// and objects more than 127 deep; else as BadShape where it, or a part of it, has another form, a
/// oneway operation has outs, a name or an id has a null, or two parameters of one list have the
/// same name; else as BadDesc with the fault of the first description that has one; and as NoMemory
/// where memory is wanting, in place of any.
pub fn interface_from_json(alloc: Global, text: &[u8]) -> Result<Interface, FormFault>
    ensures { MakesOf (json_in text.now) result }
{
    let json = parse(alloc, text)?;
    let operations = operation_forms(alloc, &json)?;
    let exceptions = exception_forms(alloc, &json)?;
    Ok(Interface::new(
        checked_operations(alloc, operations)?,
        checked_exceptions(alloc, exceptions)?,
    ))
}

// The members of an object.
fn object_of(json: &Json) -> Result<&Map<String, Json>, FormFault>
    ensures err { IfErr result IsOfForm }
{
    match json.as_object() {
        Some(object) => Ok(object),
        None => Err(FormFault::BadShape),
    }
}

// The octets of a name or an id, which has no null.
fn name_of(alloc: Global, text: &str) -> Result<OctetList, FormFault>
    ensures err { IfErr result IsOfForm }
{
    match octets_in(alloc, text)? {
        Some(name) if !name.as_slice().contains(&0) => Ok(name),
        _ => Err(FormFault::BadShape),
    }
}

// The operations of an interface.
fn operation_forms(alloc: Global, json: &Json) -> Result<Vec<OperationForm>, FormFault>
    ensures err { IfErr result IsOfForm }
{
    let Some(operations) = json.get("operations") else {
        return Err(FormFault::BadShape);
    };
    let operations = object_of(operations)?;
    let mut forms = Vec::with_capacity(alloc, operations.len())?;
    for (name, form) in operations.iter() {
        let operation = operation_form(alloc, name.as_str(), form)?;
        forms.push(operation)?;
    }
    Ok(forms)
}

// An operation.
fn operation_form(alloc: Global, name: &str, json: &Json) -> Result<OperationForm, FormFault>
    ensures err { IfErr result IsOfForm }
{
    let name = name_of(alloc, name)?;
    let ins = parameter_forms(alloc, json.get("ins"))?;
    let outs = parameter_forms(alloc, json.get("outs"))?;
    let oneway = oneway_of(json.get("oneway"))?;
    if object_of(json)?.len() != known_keys(json) || (oneway && !outs.is_empty()) {
        return Err(FormFault::BadShape);
    }
    Ok(OperationForm {
        name,
        oneway,
        ins,
        outs,
    })
}

// How many of the keys of an operation are there.
fn known_keys(json: &Json) -> usize {
    usize::from(json.get("ins").is_some())
        + usize::from(json.get("outs").is_some())
        + usize::from(json.get("oneway").is_some())
}

// Whether an operation is oneway, which it isn't where nothing is said.
fn oneway_of(json: Option<&Json>) -> Result<bool, FormFault>
    ensures err { IfErr result IsOfForm }
{
    match json {
        Some(json) => match json.as_bool() {
            Some(oneway) => Ok(oneway),
            None => Err(FormFault::BadShape),
        },
        None => Ok(false),
    }
}

// Parameters, none of which is there where nothing is said.
fn parameter_forms(alloc: Global, json: Option<&Json>) -> Result<Vec<NamedDesc>, FormFault>
    ensures err { IfErr result IsOfForm }
{
    let Some(json) = json else {
        return Ok(Vec::new(alloc));
    };
    let parameters = members_of(alloc, json, LEVELS)?;
    if has_doubled_member(&parameters) || has_null(&parameters) {
        return Err(FormFault::BadShape);
    }
    Ok(parameters)
}

// Whether a name has a null.
fn has_null(parameters: &[NamedDesc]) -> bool {
    for parameter in parameters {
        if parameter.name.as_slice().contains(&0) {
            return true;
        }
    }
    false
}

// The exceptions of an interface, none of which is there where nothing is said.
fn exception_forms(alloc: Global, json: &Json) -> Result<Vec<ExceptionForm>, FormFault>
    ensures err { IfErr result IsOfForm }
{
    let Some(exceptions) = json.get("exceptions") else {
        return match object_of(json)?.len() {
            1 => Ok(Vec::new(alloc)),
            _ => Err(FormFault::BadShape),
        };
    };
    if object_of(json)?.len() != 2 {
        return Err(FormFault::BadShape);
    }
    let exceptions = object_of(exceptions)?;
    let mut forms = Vec::with_capacity(alloc, exceptions.len())?;
    for (id, form) in exceptions.iter() {
        let exception = ExceptionForm {
            id: name_of(alloc, id.as_str())?,
            members: parameter_forms(alloc, Some(form))?,
        };
        forms.push(exception)?;
    }
    Ok(forms)
}

// The operations by their names, their descriptions checked.
fn checked_operations(
    alloc: Global,
    forms: Vec<OperationForm>,
) -> Result<BTreeMap<Vec<u8>, Operation>, FormFault>
    ensures err { IfErr result IsOfPart }
{
    let mut operations = BTreeMap::new(alloc);
    for form in forms {
        let operation = Operation {
            oneway: form.oneway,
            ins: checked_parameters(alloc, form.ins)?,
            outs: checked_parameters(alloc, form.outs)?,
        };
        drop(operations.insert(form.name.into_vec(), operation)?);
    }
    Ok(operations)
}

// The exceptions by their ids, their descriptions checked.
fn checked_exceptions(
    alloc: Global,
    forms: Vec<ExceptionForm>,
) -> Result<BTreeMap<Vec<u8>, Parameters>, FormFault>
    ensures err { IfErr result IsOfPart }
{
    let mut exceptions = BTreeMap::new(alloc);
    for form in forms {
        let members = checked_parameters(alloc, form.members)?;
        drop(exceptions.insert(form.id.into_vec(), members)?);
    }
    Ok(exceptions)
}

// Parameters, their descriptions checked.
fn checked_parameters(alloc: Global, forms: Vec<NamedDesc>) -> Result<Parameters, FormFault>
    ensures ok { IfOk result (λ parameters. length parameters.list.items ≡ length forms.items) }
    ensures err { IfErr result IsOfPart }
{
    let mut list = Vec::with_capacity(alloc, forms.len())?;
    for form in forms {
        let desc = checked(form.desc)?;
        list.push(Parameter {
            name: form.name,
            desc,
        })?;
    }
    match Parameters::new(list) {
        Some(parameters) => Ok(parameters),
        None => Err(FormFault::BadShape),
    }
}
