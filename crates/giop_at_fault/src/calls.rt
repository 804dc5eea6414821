//! Where refused calls are at fault: the first call that alone is refused with the fault of the
//! file, and in it the first part that is.

use giop_asked_calls::calls::calls_from_json;
use giop_files::places::parts::{arguments_place, key, leaf_place, whole};
use giop_json::{FormFault, interface_from_json, parse_json};
use giop_types::Interface;
use giop_where::{NoPlace, Place, Role, Step, fault_code};
use serde_json::{Value as Json, json};
use std::alloc::{AllocError, Global};

/// Where the texts of an interface and of calls of it, which are refused with this fault, have it.
pub fn of_calls(alloc: Global, interface: &[u8], calls: &[u8], fault: FormFault) -> Option<Place> {
    let (Ok(offered), Ok(calls)) = (parse_json(alloc, interface), parse_json(alloc, calls)) else {
        return None;
    };
    let Ok(checked) = interface_from_json(alloc, interface) else {
        return None;
    };
    match calls_place(alloc, &checked, &offered, &calls, fault_code(fault)) {
        Ok(place) => Some(place),
        Err(_) => None,
    }
}

/// Where the texts of an interface and of one call of it, which is refused with this fault, have
/// it.
pub fn of_call(alloc: Global, interface: &[u8], call: &[u8], fault: FormFault) -> Option<Place> {
    let (Ok(offered), Ok(call)) = (parse_json(alloc, interface), parse_json(alloc, call)) else {
        return None;
    };
    let Ok(checked) = interface_from_json(alloc, interface) else {
        return None;
    };
    match call_place(alloc, &checked, &offered, &call, fault_code(fault)) {
        Ok(place) => Some(place),
        Err(_) => None,
    }
}

/// Where a call by words, which is refused with this fault, has it: by the texts of an interface
/// and of each value, and the name of the operation.
pub fn of_words(
    alloc: Global,
    interface: &[u8],
    name: &str,
    values: &[&str],
    fault: FormFault,
) -> Option<Place> {
    let (Ok(offered), Ok(call)) = (parse_json(alloc, interface), call_json(alloc, name, values))
    else {
        return None;
    };
    let Ok(checked) = interface_from_json(alloc, interface) else {
        return None;
    };
    match call_place(alloc, &checked, &offered, &call, fault_code(fault)) {
        Ok(place) => Some(place),
        Err(_) => None,
    }
}

// A call by words, as a file has it.
fn call_json(alloc: Global, name: &str, values: &[&str]) -> Result<Json, FormFault> {
    let ins = Json::Array(each_json(alloc, values)?);
    Ok(json!(in alloc; {"id": 1, "operation": name, "ins": ins})?)
}

/// The JSON values of some texts; BadJson where one of them is none.
pub fn each_json(alloc: Global, texts: &[&str]) -> Result<Vec<Json>, FormFault> {
    let mut values = Vec::with_capacity(alloc, texts.len())?;
    for text in texts {
        values.push(parse_json(alloc, text.as_bytes())?)?;
    }
    Ok(values)
}

fn calls_place(
    alloc: Global,
    interface: &Interface,
    offered: &Json,
    calls: &Json,
    number: u8,
) -> Result<Place, NoPlace> {
    let Some(list) = calls.as_array() else {
        return whole(alloc, Role::Calls, calls, number);
    };
    for (i, call) in list.as_slice().iter().enumerate() {
        if call_refusal(alloc, interface, call)? == number {
            let place = call_place(alloc, interface, offered, call, number)?;
            return Ok(place.under(Step::Index(i))?);
        }
    }
    whole(alloc, Role::Calls, calls, number)
}

// The number of the fault of a call that stands alone, 0 where it has none.
fn call_refusal(alloc: Global, interface: &Interface, call: &Json) -> Result<u8, AllocError> {
    let text = json!(in alloc; [call])?.to_string(alloc)?;
    match calls_from_json(alloc, interface, text.as_bytes()) {
        Ok(_) => Ok(0),
        Err(FormFault::NoMemory) => Err(AllocError),
        Err(fault) => Ok(fault_code(fault)),
    }
}

// Where a call has the fault: at its id, its operation or its ins, or else as a whole.
fn call_place(
    alloc: Global,
    interface: &Interface,
    offered: &Json,
    call: &Json,
    number: u8,
) -> Result<Place, NoPlace> {
    let (Some(id), Some(name), Some(ins)) = (call.get("id"), call.get("operation"), call.get("ins"))
    else {
        return whole(alloc, Role::Call, call, number);
    };
    if let Some(place) = leaf_place(alloc, "id", "ulong", id, number)? {
        return Ok(place);
    }
    if let Some(place) = leaf_place(alloc, "operation", "string", name, number)? {
        return Ok(place);
    }
    match operation_of(interface, offered, name) {
        Some(operation) => {
            let none = Json::Array(Vec::new(alloc));
            let beside = operation.get("ins").unwrap_or(&none);
            arguments_place(alloc, "ins", beside, ins, call, Role::Call, number)
        }
        None => {
            let place = whole(alloc, Role::Offered, name, number)?;
            Ok(place.under(key(alloc, "operation")?)?)
        }
    }
}

// The operation of this name, as JSON, where the interface has it.
fn operation_of<'a>(interface: &Interface, offered: &'a Json, name: &Json) -> Option<&'a Json> {
    let name = name.as_str()?;
    offered.get("operations")?.get(name)
}
