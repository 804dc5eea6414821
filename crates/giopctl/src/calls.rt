//! The calls that a file asks for, in JSON.
ghost use Rattle.std.specs.Prelude.{◌≡◌, ◌⊎◌, None, IsErrAnd};
ghost use Rattle.giop_types.specs.declared.json.form_fault.FormFault.TheVariants.{BadJson, NoMemory};
ghost use Rattle.giop_types.specs.JsonForms.DescFromJson.{json_in};

use crate::json::{is_object_of, octets_of, ulong_of, values_of};
use giop_cdr::OctetList;
use giop_types::{FormFault, Interface, ValueList, parse_json};
use serde_json::Value as Json;
use std::alloc::Global;

/// A call of an operation of an interface.
#[derive(Debug, Drop)]
pub struct CallLine {
    /// The request id.
    pub id: u32,
    /// The operation's name, in octets.
    pub operation: OctetList,
    /// Whether no reply is sent.
    pub oneway: bool,
    /// The in and inout parameters, in their order.
    pub ins: ValueList,
}

/// The calls that a JSON text lists, each `{"id":ID,"operation":NAME,"ins":[VALUE,..]}`.
///
/// Refused as BadJson where the text is none; else as BadShape where it, or a part of it, has another
/// form, or an operation isn't in the interface; else as Unfit where an id is no unsigned long, a
/// value doesn't fit, or there are more or fewer values than ins; and as NoMemory where memory is
/// wanting, in place of any.
pub fn calls_from_json(
    alloc: Global,
    interface: &Interface,
    text: &[u8],
) -> Result<Vec<CallLine>, FormFault>
    ensures json { json_in text.now ≡ None
        → IsErrAnd result (λ e. (e ≡ BadJson) ⊎ (e ≡ NoMemory)) }
{
    let json = parse_json(alloc, text)?;
    let Some(list) = json.as_array() else {
        return Err(FormFault::BadShape);
    };
    let mut calls = Vec::with_capacity(alloc, list.len())?;
    let mut fit = true;
    for json in list {
        match call_of(alloc, interface, json)? {
            Some(call) => calls.push(call)?,
            None => fit = false,
        }
    }
    if fit {
        Ok(calls)
    } else {
        Err(FormFault::Unfit)
    }
}

// A call; `None` where its form is right, and its id or a value doesn't fit.
fn call_of(
    alloc: Global,
    interface: &Interface,
    json: &Json,
) -> Result<Option<CallLine>, FormFault> {
    let (Some(id), Some(name), Some(ins)) = (json.get("id"), json.get("operation"), json.get("ins"))
    else {
        return Err(FormFault::BadShape);
    };
    let name = octets_of(alloc, name)?;
    let Some(operation) = interface.operation(name.as_slice()) else {
        return Err(FormFault::BadShape);
    };
    let id = ulong_of(alloc, id)?;
    let ins = values_of(alloc, operation.ins.as_slice(), ins)?;
    if !is_object_of(3, json) {
        return Err(FormFault::BadShape);
    }
    match (id, ins) {
        (Some(id), Some(ins)) => Ok(Some(CallLine {
            id,
            operation: name,
            oneway: operation.oneway,
            ins,
        })),
        _ => Ok(None),
    }
}
