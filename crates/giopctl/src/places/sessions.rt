//! Where refused calls and answers are at fault: the first call, or answer, that alone is refused
//! with the fault of the file, and in it the first part that is.

use giop_commands::call::calls::calls_from_json;
use giop_commands::serve::answers::answers_from_json;
use giop_types::{FormFault, Interface, parse_json};
use giop_where::{NoPlace, Part, Place, Role, Step, fault_code};
use serde_json::{Value as Json, json};
use std::alloc::{AllocError, Global};

// The parts of an answer that any operation may have, in the order of their keys: what each is, and
// the description of a value.
const GENERAL_PARTS: [(&str, Role, &str); 5] = [
    ("completion", Role::Completion, ""),
    ("forward", Role::Forward, ""),
    ("forward_perm", Role::Forward, ""),
    ("minor", Role::Value, "ulong"),
    ("system", Role::Value, "string"),
];

/// Where the texts of an interface and of calls of it, which are refused with this fault, have it.
pub fn of_calls(alloc: Global, interface: &[u8], calls: &[u8], fault: FormFault) -> Option<Place> {
    let (Ok(offered), Ok(calls)) = (parse_json(alloc, interface), parse_json(alloc, calls)) else {
        return None;
    };
    let Ok(checked) = Interface::from_json(alloc, interface) else {
        return None;
    };
    match calls_place(alloc, &checked, &offered, &calls, fault_code(fault)) {
        Ok(place) => Some(place),
        Err(_) => None,
    }
}

/// Where a call by words, which is refused with this fault, has it: by the texts of an interface and
/// of each value, and the name of the operation.
pub fn of_words(
    alloc: Global,
    interface: &[u8],
    name: &str,
    values: &[&str],
    fault: FormFault,
) -> Option<Place> {
    let (Ok(offered), Ok(call)) = (parse_json(alloc, interface), call_json(alloc, name, values))
    else {
        return None;
    };
    let Ok(checked) = Interface::from_json(alloc, interface) else {
        return None;
    };
    match call_place(alloc, &checked, &offered, &call, fault_code(fault)) {
        Ok(place) => Some(place),
        Err(_) => None,
    }
}

// A call by words, as a file has it.
fn call_json(alloc: Global, name: &str, values: &[&str]) -> Result<Json, FormFault> {
    let ins = Json::Array(each_json(alloc, values)?);
    Ok(json!(in alloc; {"id": 1, "operation": name, "ins": ins})?)
}

/// The JSON values of some texts; BadJson where one of them is none.
pub fn each_json(alloc: Global, texts: &[&str]) -> Result<Vec<Json>, FormFault> {
    let mut values = Vec::with_capacity(alloc, texts.len())?;
    for text in texts {
        values.push(parse_json(alloc, text.as_bytes())?)?;
    }
    Ok(values)
}

fn calls_place(
    alloc: Global,
    interface: &Interface,
    offered: &Json,
    calls: &Json,
    number: u8,
) -> Result<Place, NoPlace> {
    let Some(list) = calls.as_array() else {
        return whole(alloc, Role::Calls, calls, number);
    };
    for (i, call) in list.as_slice().iter().enumerate() {
        if call_refusal(alloc, interface, call)? == number {
            let place = call_place(alloc, interface, offered, call, number)?;
            return Ok(place.under(Step::Index(i))?);
        }
    }
    whole(alloc, Role::Calls, calls, number)
}

// The number of the fault of a call that stands alone, 0 where it has none.
fn call_refusal(alloc: Global, interface: &Interface, call: &Json) -> Result<u8, AllocError> {
    let text = json!(in alloc; [call])?.to_string(alloc)?;
    match calls_from_json(alloc, interface, text.as_bytes()) {
        Ok(_) => Ok(0),
        Err(FormFault::NoMemory) => Err(AllocError),
        Err(fault) => Ok(fault_code(fault)),
    }
}

// Where a call has the fault: at its id, its operation or its ins, or else as a whole.
fn call_place(
    alloc: Global,
    interface: &Interface,
    offered: &Json,
    call: &Json,
    number: u8,
) -> Result<Place, NoPlace> {
    let (Some(id), Some(name), Some(ins)) = (call.get("id"), call.get("operation"), call.get("ins"))
    else {
        return whole(alloc, Role::Call, call, number);
    };
    if let Some(place) = leaf_place(alloc, "id", "ulong", id, number)? {
        return Ok(place);
    }
    if let Some(place) = leaf_place(alloc, "operation", "string", name, number)? {
        return Ok(place);
    }
    match operation_of(interface, offered, name) {
        Some(operation) => {
            let none = Json::Array(Vec::new(alloc));
            let beside = operation.get("ins").unwrap_or(&none);
            arguments_place(alloc, "ins", beside, ins, call, Role::Call, number)
        }
        None => {
            let place = whole(alloc, Role::Offered, name, number)?;
            Ok(place.under(key(alloc, "operation")?)?)
        }
    }
}

// The operation of this name, as JSON, where the interface has it.
fn operation_of<'a>(interface: &Interface, offered: &'a Json, name: &Json) -> Option<&'a Json> {
    let name = name.as_str()?;
    offered.get("operations")?.get(name)
}

// The fault of what stands under a key, by the name of its description.
fn leaf_place(
    alloc: Global,
    name: &str,
    desc: &str,
    json: &Json,
    number: u8,
) -> Result<Option<Place>, NoPlace> {
    let beside = Json::try_from_str(alloc, desc)?;
    let part = Part {
        role: Role::Value,
        beside: &beside,
        json,
    };
    if part.refusal(alloc)? != number {
        return Ok(None);
    }
    let place = Place::find(alloc, part, number)?;
    Ok(Some(place.under(key(alloc, name)?)?))
}

// The fault of a list of values, or of the whole that it stands in.
fn arguments_place(
    alloc: Global,
    name: &str,
    beside: &Json,
    json: &Json,
    all: &Json,
    role: Role,
    number: u8,
) -> Result<Place, NoPlace> {
    let part = Part {
        role: Role::Arguments,
        beside,
        json,
    };
    let place = Place::find(alloc, part, number)?;
    if place.path.is_empty() && json.is_array() {
        return whole(alloc, role, all, number);
    }
    Ok(place.under(key(alloc, name)?)?)
}

// A part that is at fault as a whole.
fn whole(alloc: Global, role: Role, json: &Json, number: u8) -> Result<Place, NoPlace> {
    let part = Part {
        role,
        beside: json,
        json,
    };
    Place::find(alloc, part, number)
}

fn key(alloc: Global, name: &str) -> Result<Step, AllocError> {
    Ok(Step::Key(String::from_str(alloc, name)?))
}

/// Where the texts of an interface and of answers, which are refused with this fault, have it.
pub fn of_answers(
    alloc: Global,
    interface: &[u8],
    answers: &[u8],
    fault: FormFault,
) -> Option<Place> {
    let (Ok(offered), Ok(answers)) = (parse_json(alloc, interface), parse_json(alloc, answers))
    else {
        return None;
    };
    match answers_place(alloc, &offered, &answers, fault_code(fault)) {
        Ok(place) => Some(place),
        Err(_) => None,
    }
}

fn answers_place(
    alloc: Global,
    offered: &Json,
    answers: &Json,
    number: u8,
) -> Result<Place, NoPlace> {
    let Some(object) = answers.as_object() else {
        return whole(alloc, Role::Answers, answers, number);
    };
    for (name, answer) in object.iter() {
        if let Some(place) = member_place(alloc, offered, answers, name.as_str(), answer, number)? {
            return Ok(place.under(Step::Key(name.clone()?))?);
        }
    }
    whole(alloc, Role::Answers, answers, number)
}

// Where the member of a name has the fault, if the answer there is refused with it.
fn member_place(
    alloc: Global,
    offered: &Json,
    answers: &Json,
    name: &str,
    answer: &Json,
    number: u8,
) -> Result<Option<Place>, NoPlace> {
    let none = json!(in alloc; {})?;
    let operations = offered.get("operations").unwrap_or(&none);
    match operations.get(name) {
        Some(operation) => answer_place(alloc, offered, name, operation, answer, number),
        None if name == "*" => default_place(alloc, offered, operations, answers, answer, number),
        None => {
            let name = Json::try_from_str(alloc, name)?;
            Ok(Some(whole(alloc, Role::Offered, &name, number)?))
        }
    }
}

// Where a default has the fault: beside the first operation without an answer of its own beside
// which it is refused, or else by its form alone.
fn default_place(
    alloc: Global,
    offered: &Json,
    operations: &Json,
    answers: &Json,
    answer: &Json,
    number: u8,
) -> Result<Option<Place>, NoPlace> {
    if let Some(operations) = operations.as_object() {
        for (name, operation) in operations.iter() {
            let oneway = operation.get("oneway").and_then(Json::as_bool);
            if oneway == Some(true) || answers.get(name.as_str()).is_some() {
                continue;
            }
            let (name, operation) = (name.as_str(), operation);
            let place = answer_place(alloc, offered, name, operation, answer, number)?;
            if place.is_some() {
                return Ok(place);
            }
        }
    }
    if number != fault_code(FormFault::BadShape) {
        return Ok(None);
    }
    let none = json!(in alloc; {})?;
    answer_place(alloc, offered, "", &none, answer, number)
}

// Where an answer has the fault, if it alone is refused with it.
fn answer_place(
    alloc: Global,
    offered: &Json,
    name: &str,
    operation: &Json,
    answer: &Json,
    number: u8,
) -> Result<Option<Place>, NoPlace> {
    if answer_refusal(alloc, offered, name, operation, answer)? != number {
        return Ok(None);
    }
    Ok(Some(refused_answer(alloc, offered, operation, answer, number)?))
}

// The number of the fault of an answer to an operation that stands alone in its interface, 0 where
// it has none.
fn answer_refusal(
    alloc: Global,
    offered: &Json,
    name: &str,
    operation: &Json,
    answer: &Json,
) -> Result<u8, AllocError> {
    let interface = match offered.get("exceptions") {
        Some(exceptions) => {
            json!(in alloc; {"operations": {(name): operation}, "exceptions": exceptions})?
        }
        None => json!(in alloc; {"operations": {(name): operation}})?,
    };
    let interface = interface.to_string(alloc)?;
    let text = json!(in alloc; {(name): answer})?.to_string(alloc)?;
    match Interface::from_json(alloc, interface.as_bytes()) {
        Ok(interface) => match answers_from_json(alloc, &interface, text.as_bytes()) {
            Ok(_) => Ok(0),
            Err(FormFault::NoMemory) => Err(AllocError),
            Err(fault) => Ok(fault_code(fault)),
        },
        Err(FormFault::NoMemory) => Err(AllocError),
        Err(_) => Ok(0),
    }
}

// Where a refused answer has the fault: at a part of it, or as a whole.
fn refused_answer(
    alloc: Global,
    offered: &Json,
    operation: &Json,
    answer: &Json,
    number: u8,
) -> Result<Place, NoPlace> {
    if let Some(values) = answer.get("ok") {
        let none = Json::Array(Vec::new(alloc));
        let outs = operation.get("outs").unwrap_or(&none);
        return arguments_place(alloc, "ok", outs, values, answer, Role::Answer, number);
    }
    match answer.get("user") {
        Some(id) => raised_place(alloc, offered, id, answer, number),
        None => general_place(alloc, answer, number),
    }
}

// Where an answer by an exception of this id has the fault: at the id, at a value, or as a whole.
fn raised_place(
    alloc: Global,
    offered: &Json,
    id: &Json,
    answer: &Json,
    number: u8,
) -> Result<Place, NoPlace> {
    let Some(values) = answer.get("members") else {
        return whole(alloc, Role::Answer, answer, number);
    };
    match exception_of(offered, id) {
        Some(members) => {
            arguments_place(
                alloc,
                "members",
                members,
                values,
                answer,
                Role::Answer,
                number,
            )
        }
        None => {
            let place = whole(alloc, Role::Raised, id, number)?;
            Ok(place.under(key(alloc, "user")?)?)
        }
    }
}

// Where an answer that any operation may have has the fault: at the first of its parts that is
// refused with it in the smallest answer that holds it, or as a whole.
fn general_place(alloc: Global, answer: &Json, number: u8) -> Result<Place, NoPlace> {
    for (name, role, desc) in GENERAL_PARTS {
        if let Some(json) = answer.get(name) {
            if general_refusal(alloc, name, json)? == number {
                let beside = Json::try_from_str(alloc, desc)?;
                let part = Part {
                    role,
                    beside: &beside,
                    json,
                };
                let place = Place::find(alloc, part, number)?;
                return Ok(place.under(key(alloc, name)?)?);
            }
        }
    }
    whole(alloc, Role::Answer, answer, number)
}

// The number of the fault of a part of such an answer, in the smallest answer that holds it.
fn general_refusal(alloc: Global, name: &str, json: &Json) -> Result<u8, AllocError> {
    let answer = match name {
        "completion" | "minor" => json!(in alloc; {"system": "", (name): json})?,
        _ => json!(in alloc; {(name): json})?,
    };
    let none = json!(in alloc; {})?;
    answer_refusal(alloc, &none, "", &none, &answer)
}

// The members of the exception of this id, as JSON, where the interface has it.
fn exception_of<'a>(offered: &'a Json, id: &Json) -> Option<&'a Json> {
    let id = id.as_str()?;
    offered.get("exceptions")?.get(id)
}
