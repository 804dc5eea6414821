//! The calls that a file asks for, in JSON (docs/FORMATS.md, "Calls and answers"). Their form is
//! `calls_in` in specs/Forms.antt: change both.
ghost use Rattle.std.specs.Prelude.{◌≡◌, ◌⊎◌, option_map, IfOk, IfErr};
ghost use Rattle.serde_json.specs.View.{view, items_view};
ghost use Rattle.giop_json.specs.declared.form_fault.FormFault.TheVariants.{NoMemory};
ghost use Rattle.giop_json.specs.FromJson.{Shows};
ghost use Rattle.giop_asked_calls.specs.Forms.{call_in, call_list, call_named, call_of, calls_in, each_call, one_call_in};

use giop_cdr::OctetList;
use giop_commands::session::json::{is_object_of, octets_of, ulong_of, values_of, with_item};
use giop_json::{FormFault, parse_json};
use giop_types::{Interface, Operation, ValueList};
use serde_json::Value as Json;
use std::alloc::Global;

/// A call of an operation of an interface.
#[derive(Debug, Drop)]
pub struct CallLine {
    /// The request id.
    pub id: u32,
    /// The operation's name, in octets.
    pub operation: OctetList,
    /// Whether no reply is sent.
    pub oneway: bool,
    /// The in and inout parameters, in their order.
    pub ins: ValueList,
}

/// The calls that a JSON text lists, each `{"id":ID,"operation":NAME,"ins":[VALUE,..]}`.
///
/// Refused as the first of these that holds; in place of any it may be NoMemory, where it is out of
/// memory:
///
/// - BadJson, where the text is no JSON.
/// - BadShape, where it, or a part of it, has another form, or an operation isn't in the interface.
/// - Unfit, where an id is no unsigned long, a value doesn't fit, or there are more or fewer values
///   than ins.
pub fn calls_from_json(
    alloc: Global,
    interface: &Interface,
    text: &[u8],
) -> Result<Vec<CallLine>, FormFault>
    ensures ok { IfOk result
        (λ calls. calls_in interface.now text.now ≡ Ok calls.items) }
    ensures err { IfErr result
        (λ e. (e ≡ NoMemory) ⊎ (calls_in interface.now text.now ≡ Err e)) }
{
    let json = parse_json(alloc, text)?;
    match call_list(alloc, interface, &json)? {
        Some(calls) => Ok(calls),
        None => Err(FormFault::Unfit),
    }
}

/// The call that a JSON text is, `{"id":ID,"operation":NAME,"ins":[VALUE,..]}`.
///
/// Refused as a list of it alone is by `calls_from_json`.
pub fn call_from_json(
    alloc: Global,
    interface: &Interface,
    text: &[u8],
) -> Result<CallLine, FormFault>
    ensures ok { IfOk result (λ call. one_call_in interface.now text.now ≡ Ok call) }
    ensures err { IfErr result
        (λ e. (e ≡ NoMemory) ⊎ (one_call_in interface.now text.now ≡ Err e)) }
{
    let json = parse_json(alloc, text)?;
    match call_of(alloc, interface, &json)? {
        Some(call) => Ok(call),
        None => Err(FormFault::Unfit),
    }
}

// The calls of a list; `None` where their forms are right, and one of them doesn't fit.
fn call_list(
    alloc: Global,
    interface: &Interface,
    json: &Json,
) -> Result<Option<Vec<CallLine>>, FormFault>
    ensures { Shows (λ calls. option_map (λ v. v.items) calls) result
        (call_list interface.now (view json.now)) }
{
    match json.as_array() {
        Some(list) => calls_by(alloc, interface, list.as_slice()),
        None => Err(FormFault::BadShape),
    }
}

// The calls of a list, one after the other; `None` where their forms are right, and one of them
// doesn't fit.
fn calls_by(
    alloc: Global,
    interface: &Interface,
    list: &[Json],
) -> Result<Option<Vec<CallLine>>, FormFault>
    ensures { Shows (λ calls. option_map (λ v. v.items) calls) result
        (each_call interface.now (items_view list.now)) }
{
    let mut calls = Some(Vec::with_capacity(alloc, list.len())?);
    for json in list {
        let call = call_of(alloc, interface, json)?;
        calls = with_item(calls, call)?;
    }
    Ok(calls)
}

// A call; `None` where its form is right, and its id or a value doesn't fit.
fn call_of(alloc: Global, interface: &Interface, json: &Json) -> Result<Option<CallLine>, FormFault>
    ensures { Shows (λ call. call) result (call_in interface.now (view json.now)) }
{
    if !is_object_of(3, json) {
        return Err(FormFault::BadShape);
    }
    match (json.get("id"), json.get("operation"), json.get("ins")) {
        (Some(id), Some(name), Some(ins)) => call_named(alloc, interface, id, name, ins),
        _ => Err(FormFault::BadShape),
    }
}

/// A call, by the members of its object; `None` where its form is right, and its id or a value
/// doesn't fit.
pub fn call_named(
    alloc: Global,
    interface: &Interface,
    id: &Json,
    name: &Json,
    ins: &Json,
) -> Result<Option<CallLine>, FormFault>
    ensures { Shows (λ call. call) result
        (call_named interface.now (view id.now) (view name.now) (view ins.now)) }
{
    let name = octets_of(alloc, name)?;
    match interface.operation(name.as_slice()) {
        Some(operation) => call_by(alloc, operation, name, id, ins),
        None => Err(FormFault::BadShape),
    }
}

// A call of this operation.
fn call_by(
    alloc: Global,
    operation: &Operation,
    name: OctetList,
    id: &Json,
    ins: &Json,
) -> Result<Option<CallLine>, FormFault>
    ensures { Shows (λ call. call) result
        (call_of name (view id.now) (view ins.now) (Some operation.now)) }
{
    let id = ulong_of(alloc, id)?;
    let ins = values_of(alloc, operation.ins.as_slice(), ins)?;
    match (id, ins) {
        (Some(id), Some(ins)) => Ok(Some(CallLine {
            id,
            operation: name,
            oneway: operation.oneway,
            ins,
        })),
        _ => Ok(None),
    }
}
