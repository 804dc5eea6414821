//! Reading an interface from JSON: first its form, then its descriptions. Both are
//! specs/InterfaceFromJson.antt.
ghost use Rattle.std.specs.Prelude.{◌≡◌, [], map, option_map, IfOk, length};
ghost use Rattle.std.specs.List.{list_any};
ghost use Rattle.serde_json.specs.Find.{as_object};
ghost use Rattle.serde_json.specs.View.{view, members_view};
ghost use Rattle.giop_cdr.specs.Reading.Values.{has_null};
ghost use Rattle.giop_json.specs.DescFromJson.{json_in, judged};
ghost use Rattle.giop_json.specs.FromJson.{Shows, Reads};
ghost use Rattle.giop_json.specs.InterfaceForms.{parameters_form_view, operation_form_view, operation_entry, exception_entry};
ghost use Rattle.giop_json.specs.InterfaceFromJson.{name_in, parameters_in, parameters_told, one_if, oneway_told, known_keys, signature_in, table_in, operations_in, exceptions_beside, parameters_fault, signature_fault, judged_table, parameters_view, operation_view, operations_view, exceptions_view, interface_view, interface_told};
ghost use Rattle.giop_types.specs.Values.Views.{named_view};

use crate::desc_json::{LEVELS, checked, members_of};
use crate::form_fault::FormFault;
use crate::from_json::is_object_of;
use crate::interface_form::{OperationForm, ParametersForm};
use crate::parse::parse;
use crate::texts::octets_in;
use giop_cdr::OctetList;
use giop_types::parts::has_doubled_member;
use giop_types::{Interface, NamedDesc, Offer, Operation, Parameter, Parameters};
use serde_json::{Map, Value as Json};
use std::alloc::Global;
use std::collections::BTreeMap;

/// The interface that a JSON text is. No name and no id in it has a null.
///
/// Refused as BadJson where the text is none, or nests arrays and objects more than 127 deep. Else
/// it is BadShape where the text, or a part of it, has another form, a oneway operation has outs, a
/// name or an id has a null, or two parameters of one list have the same name. Else it is BadDesc
/// with the fault of the first description that has one: those of operations before those of
/// exceptions, each in the order of the names, ins before outs. Out of memory, NoMemory may be
/// returned in place of any.
pub fn interface_from_json(alloc: Global, text: &[u8]) -> Result<Interface, FormFault>
    ensures told { Reads interface_view result (interface_told (json_in text.now)) }
    ensures alone { IfOk result (λ interface. interface.objects.entries ≡ []) }
{
    let json = parse(alloc, text)?;
    let operations = operation_forms(alloc, &json)?;
    let exceptions = exception_forms(alloc, &json)?;
    Ok(Interface::new(
        alloc,
        Offer::new(
            checked_operations(alloc, operations)?,
            checked_exceptions(alloc, exceptions)?,
        ),
    ))
}

// The members of an object.
fn object_of(json: &Json) -> Result<&Map<String, Json>, FormFault>
    ensures { Shows (λ object. members_view object.now.entries) result (as_object (view json.now)) }
{
    match json.as_object() {
        Some(object) => Ok(object),
        None => Err(FormFault::BadShape),
    }
}

// The octets of a name or an id, which has no null.
fn name_of(alloc: Global, text: &str) -> Result<OctetList, FormFault>
    ensures { Shows (λ name. name) result (name_in text.now) }
{
    let Some(name) = octets_in(alloc, text)? else {
        return Err(FormFault::BadShape);
    };
    if has_null(name.as_slice()) {
        return Err(FormFault::BadShape);
    }
    Ok(name)
}

// Whether octets have a null.
fn has_null(octets: &[u8]) -> bool
    ensures { result ≡ has_null octets.now }
{
    octets.contains(&0)
}

// The operations of an interface.
fn operation_forms(alloc: Global, json: &Json) -> Result<Vec<(OctetList, OperationForm)>, FormFault>
    ensures { Shows (λ forms. map operation_entry forms.items) result
        (operations_in (view json.now)) }
{
    match json.get("operations") {
        Some(operations) => operations_of(alloc, operations),
        None => Err(FormFault::BadShape),
    }
}

// Operations by their names.
fn operations_of(alloc: Global, json: &Json) -> Result<Vec<(OctetList, OperationForm)>, FormFault>
    ensures { Shows (λ forms. map operation_entry forms.items) result
        (table_in signature_in (view json.now)) }
{
    let operations = object_of(json)?;
    let mut forms = Vec::with_capacity(alloc, operations.len())?;
    for (key, form) in operations.iter() {
        let name = name_of(alloc, key.as_str())?;
        let operation = operation_form(alloc, form)?;
        forms.push((name, operation))?;
    }
    Ok(forms)
}

// An operation.
fn operation_form(alloc: Global, json: &Json) -> Result<OperationForm, FormFault>
    ensures { Shows operation_form_view result (signature_in (view json.now)) }
{
    if !is_object_of(known_keys(json), json) {
        return Err(FormFault::BadShape);
    }
    let ins = parameter_forms(alloc, json.get("ins"))?;
    let outs = parameter_forms(alloc, json.get("outs"))?;
    let oneway = oneway_of(json.get("oneway"))?;
    if oneway && !outs.list.is_empty() {
        return Err(FormFault::BadShape);
    }
    Ok(OperationForm { oneway, ins, outs })
}

// How many of the keys of an operation are there.
fn known_keys(json: &Json) -> usize
    ensures { result ≡ known_keys (view json.now) }
{
    one_if(json.get("ins")) + one_if(json.get("outs")) + one_if(json.get("oneway"))
}

// One, where there is a value.
fn one_if(json: Option<&Json>) -> usize
    ensures { result ≡ one_if (option_map (λ j. view j.now) json.entry) }
{
    match json {
        Some(_) => 1,
        None => 0,
    }
}

// Whether an operation is oneway. It isn't where the key is missing.
fn oneway_of(json: Option<&Json>) -> Result<bool, FormFault>
    ensures { Shows (λ b. b) result (oneway_told (option_map (λ j. view j.now) json.entry)) }
{
    match json {
        Some(json) => match json.as_bool() {
            Some(oneway) => Ok(oneway),
            None => Err(FormFault::BadShape),
        },
        None => Ok(false),
    }
}

// Parameters; there are none where the key is missing.
fn parameter_forms(alloc: Global, json: Option<&Json>) -> Result<ParametersForm, FormFault>
    ensures { Shows parameters_form_view result
        (parameters_told (option_map (λ j. view j.now) json.entry)) }
{
    match json {
        Some(json) => parameters_of(alloc, json),
        None => Ok(ParametersForm {
            list: Vec::new(alloc),
        }),
    }
}

// Parameters, no two of the same name, and no name with a null.
fn parameters_of(alloc: Global, json: &Json) -> Result<ParametersForm, FormFault>
    ensures { Shows parameters_form_view result (parameters_in (view json.now)) }
{
    let list = members_of(alloc, json, LEVELS)?;
    if has_doubled_member(alloc, &list) || has_null_name(&list) {
        return Err(FormFault::BadShape);
    }
    Ok(ParametersForm { list })
}

// Whether a name has a null.
fn has_null_name(parameters: &[NamedDesc]) -> bool
    ensures { result ≡ list_any (λ m. has_null m.name) (map named_view parameters.now) }
{
    for parameter in parameters {
        if has_null(parameter.name.as_slice()) {
            return true;
        }
    }
    false
}

// The exceptions of an interface; there are none where the key is missing.
fn exception_forms(
    alloc: Global,
    json: &Json,
) -> Result<Vec<(OctetList, ParametersForm)>, FormFault>
    ensures { Shows (λ forms. map exception_entry forms.items) result
        (exceptions_beside (view json.now)) }
{
    match json.get("exceptions") {
        Some(exceptions) if is_object_of(2, json) => exceptions_of(alloc, exceptions),
        None if is_object_of(1, json) => Ok(Vec::new(alloc)),
        _ => Err(FormFault::BadShape),
    }
}

// Exceptions by their ids.
fn exceptions_of(alloc: Global, json: &Json) -> Result<Vec<(OctetList, ParametersForm)>, FormFault>
    ensures { Shows (λ forms. map exception_entry forms.items) result
        (table_in parameters_in (view json.now)) }
{
    let exceptions = object_of(json)?;
    let mut forms = Vec::with_capacity(alloc, exceptions.len())?;
    for (key, form) in exceptions.iter() {
        let id = name_of(alloc, key.as_str())?;
        let members = parameters_of(alloc, form)?;
        forms.push((id, members))?;
    }
    Ok(forms)
}

// Checks the descriptions of the operations, one after the other.
fn checked_operations(
    alloc: Global,
    forms: Vec<(OctetList, OperationForm)>,
) -> Result<BTreeMap<Vec<u8>, Operation>, FormFault>
    ensures { Reads operations_view result
        (judged_table signature_fault (map operation_entry forms.items)) }
{
    let mut operations = BTreeMap::new(alloc);
    for (name, form) in forms {
        let operation = checked_operation(alloc, form)?;
        drop(operations.insert(name.into_vec(), operation)?);
    }
    Ok(operations)
}

// Checks the descriptions of an operation, ins before outs.
fn checked_operation(alloc: Global, form: OperationForm) -> Result<Operation, FormFault>
    ensures { Reads operation_view result
        (judged (operation_form_view form) (signature_fault (operation_form_view form))) }
{
    Ok(Operation {
        oneway: form.oneway,
        ins: checked_parameters(alloc, form.ins)?,
        outs: checked_parameters(alloc, form.outs)?,
    })
}

// Checks the descriptions of the exceptions, one after the other.
fn checked_exceptions(
    alloc: Global,
    forms: Vec<(OctetList, ParametersForm)>,
) -> Result<BTreeMap<Vec<u8>, Parameters>, FormFault>
    ensures { Reads exceptions_view result
        (judged_table parameters_fault (map exception_entry forms.items)) }
{
    let mut exceptions = BTreeMap::new(alloc);
    for (id, form) in forms {
        let members = checked_parameters(alloc, form)?;
        drop(exceptions.insert(id.into_vec(), members)?);
    }
    Ok(exceptions)
}

// Checks the descriptions of parameters, in their order.
fn checked_parameters(alloc: Global, form: ParametersForm) -> Result<Parameters, FormFault>
    ensures told { Reads parameters_view result
        (judged (parameters_form_view form) (parameters_fault (parameters_form_view form))) }
    ensures count { IfOk result
        (λ parameters. length parameters.list.items ≡ length form.list.items) }
{
    let mut list = Vec::with_capacity(alloc, form.list.len())?;
    for named in form.list {
        let desc = checked(named.desc)?;
        list.push(Parameter {
            name: named.name,
            desc,
        })?;
    }
    match Parameters::new(list) {
        Some(parameters) => Ok(parameters),
        None => Err(FormFault::BadShape),
    }
}
