//! Where refused answers are at fault: the first answer that alone is refused with the fault of the
//! file, and in it the first part that is.

use giop_end::Limits;
use giop_files::places::parts::{arguments_place, key, leaf_place, whole};
use giop_json::{FormFault, interface_from_json, parse_json};
use giop_serving::serve::answers::answers_from_json;
use giop_serving::serve::given::Sending;
use giop_types::Interface;
use giop_where::{NoPlace, Part, Place, Role, Step, fault_code};
use serde_json::{Value as Json, json};
use std::alloc::{AllocError, Global};

// The parts of an answer that any operation may have, in the order of their keys: what each is, and
// the description of a value.
const GENERAL_PARTS: [(&str, Role, &str); 5] = [
    ("completion", Role::Completion, ""),
    ("forward", Role::Forward, ""),
    ("forward_perm", Role::Forward, ""),
    ("minor", Role::Value, "ulong"),
    ("system", Role::Value, "string"),
];

/// Limits that no answer passes.
pub const WIDE: Limits = Limits {
    calls: u32::MAX,
    message: u32::MAX,
    gathered: u64::MAX,
};

// The number of the fault that is sought, and how answers are sent.
#[derive(Clone, Copy)]
struct Sought {
    number: u8,
    sending: Sending,
}

/// Where the texts of an interface and of answers, which are sent so and are refused with
/// this fault, have it.
pub fn of_answers(
    alloc: Global,
    interface: &[u8],
    answers: &[u8],
    sending: Sending,
    fault: FormFault,
) -> Option<Place> {
    let (Ok(offered), Ok(answers)) = (parse_json(alloc, interface), parse_json(alloc, answers))
    else {
        return None;
    };
    let sought = Sought {
        number: fault_code(fault),
        sending,
    };
    match answers_place(alloc, &offered, &answers, sought) {
        Ok(place) => Some(place),
        Err(_) => None,
    }
}

fn answers_place(
    alloc: Global,
    offered: &Json,
    answers: &Json,
    sought: Sought,
) -> Result<Place, NoPlace> {
    let Some(object) = answers.as_object() else {
        return whole(alloc, Role::Answers, answers, sought.number);
    };
    for (name, answer) in object.iter() {
        if let Some(place) = member_place(alloc, offered, answers, name.as_str(), answer, sought)? {
            return Ok(place.under(Step::Key(name.clone()?))?);
        }
    }
    whole(alloc, Role::Answers, answers, sought.number)
}

// Where the member of a name has the fault, if the answer there is refused with it.
fn member_place(
    alloc: Global,
    offered: &Json,
    answers: &Json,
    name: &str,
    answer: &Json,
    sought: Sought,
) -> Result<Option<Place>, NoPlace> {
    let none = json!(in alloc; {})?;
    let operations = offered.get("operations").unwrap_or(&none);
    match operations.get(name) {
        Some(operation) => answer_place(alloc, offered, name, operation, answer, sought),
        None if name == "*" => default_place(alloc, offered, operations, answers, answer, sought),
        None => {
            let name = Json::try_from_str(alloc, name)?;
            Ok(Some(whole(alloc, Role::Offered, &name, sought.number)?))
        }
    }
}

// Where a default has the fault: a list of answers is none, as a whole; else beside the first
// operation without an answer of its own beside which it is refused, or else by its form alone.
fn default_place(
    alloc: Global,
    offered: &Json,
    operations: &Json,
    answers: &Json,
    answer: &Json,
    sought: Sought,
) -> Result<Option<Place>, NoPlace> {
    if answer.is_array() {
        return default_list(alloc, answer, sought.number);
    }
    if let Some(operations) = operations.as_object() {
        for (name, operation) in operations.iter() {
            let oneway = operation.get("oneway").and_then(Json::as_bool);
            if oneway == Some(true) || answers.get(name.as_str()).is_some() {
                continue;
            }
            let (name, operation) = (name.as_str(), operation);
            let place = answer_place(alloc, offered, name, operation, answer, sought)?;
            if place.is_some() {
                return Ok(place);
            }
        }
    }
    if sought.number != fault_code(FormFault::BadShape) {
        return Ok(None);
    }
    let none = json!(in alloc; {})?;
    answer_place(alloc, offered, "", &none, answer, sought)
}

// Where a list of answers has the fault that stands as a default.
fn default_list(alloc: Global, answer: &Json, number: u8) -> Result<Option<Place>, NoPlace> {
    if number == fault_code(FormFault::BadShape) {
        Ok(Some(whole(alloc, Role::Answer, answer, number)?))
    } else {
        Ok(None)
    }
}

// Where an answer, or a list of them, has the fault, if it alone is refused with it.
fn answer_place(
    alloc: Global,
    offered: &Json,
    name: &str,
    operation: &Json,
    answer: &Json,
    sought: Sought,
) -> Result<Option<Place>, NoPlace> {
    let sending = sought.sending;
    if answer_refusal(alloc, offered, name, operation, answer, sending)? != sought.number {
        return Ok(None);
    }
    if let Some(list) = answer.as_array() {
        for (i, one) in list.as_slice().iter().enumerate() {
            if item_refusal(alloc, offered, name, operation, one, sending)? == sought.number {
                let place = refused_answer_place(alloc, offered, operation, one, sought)?;
                return Ok(Some(place.under(Step::Index(i))?));
            }
        }
    }
    Ok(Some(refused_answer_place(alloc, offered, operation, answer, sought)?))
}

// The number of the fault of an answer of a list, of which none is a list itself.
fn item_refusal(
    alloc: Global,
    offered: &Json,
    name: &str,
    operation: &Json,
    answer: &Json,
    sending: Sending,
) -> Result<u8, AllocError> {
    if answer.is_array() {
        return Ok(fault_code(FormFault::BadShape));
    }
    answer_refusal(alloc, offered, name, operation, answer, sending)
}

// The number of the fault of an answer to an operation that stands alone in its interface, 0 where
// it has none.
fn answer_refusal(
    alloc: Global,
    offered: &Json,
    name: &str,
    operation: &Json,
    answer: &Json,
    sending: Sending,
) -> Result<u8, AllocError> {
    let interface = alone(alloc, offered, name, operation)?;
    let text = json!(in alloc; {(name): answer})?.to_string(alloc)?;
    match interface_from_json(alloc, interface.as_bytes()) {
        Ok(interface) => refusal(alloc, &interface, sending, text.as_bytes()),
        Err(FormFault::NoMemory) => Err(AllocError),
        Err(_) => Ok(0),
    }
}

// The text of an interface of one operation, and of the exceptions that are offered.
fn alone(
    alloc: Global,
    offered: &Json,
    name: &str,
    operation: &Json,
) -> Result<String, AllocError> {
    let interface = match offered.get("exceptions") {
        Some(exceptions) => {
            json!(in alloc; {"operations": {(name): operation}, "exceptions": exceptions})?
        }
        None => json!(in alloc; {"operations": {(name): operation}})?,
    };
    interface.to_string(alloc)
}

// The number of the fault of a text of answers, 0 where it has none.
fn refusal(
    alloc: Global,
    interface: &Interface,
    sending: Sending,
    answers: &[u8],
) -> Result<u8, AllocError> {
    match answers_from_json(alloc, interface, sending, answers) {
        Ok(_) => Ok(0),
        Err(FormFault::NoMemory) => Err(AllocError),
        Err(fault) => Ok(fault_code(fault)),
    }
}

// Where a refused answer has the fault: at a part of it, or as a whole.
fn refused_answer_place(
    alloc: Global,
    offered: &Json,
    operation: &Json,
    answer: &Json,
    sought: Sought,
) -> Result<Place, NoPlace> {
    if let Some(values) = answer.get("ok") {
        let none = Json::Array(Vec::new(alloc));
        let outs = operation.get("outs").unwrap_or(&none);
        return arguments_place(
            alloc,
            "ok",
            outs,
            values,
            answer,
            Role::Answer,
            sought.number,
        );
    }
    if let Some(id) = answer.get("is_a") {
        return match leaf_place(alloc, "is_a", "string", id, sought.number)? {
            Some(place) => Ok(place),
            None => whole(alloc, Role::Answer, answer, sought.number),
        };
    }
    match answer.get("user") {
        Some(id) => raised_place(alloc, offered, id, answer, sought),
        None => general_place(alloc, answer, sought),
    }
}

// Where an answer by an exception of this id has the fault: at the id, at a value, or as a whole.
fn raised_place(
    alloc: Global,
    offered: &Json,
    id: &Json,
    answer: &Json,
    sought: Sought,
) -> Result<Place, NoPlace> {
    let Some(values) = answer.get("members") else {
        return whole(alloc, Role::Answer, answer, sought.number);
    };
    match exception_of(offered, id) {
        Some(members) => {
            arguments_place(
                alloc,
                "members",
                members,
                values,
                answer,
                Role::Answer,
                sought.number,
            )
        }
        None => {
            let place = whole(alloc, Role::Raised, id, sought.number)?;
            Ok(place.under(key(alloc, "user")?)?)
        }
    }
}

// Where an answer that any operation may have has the fault: at the first of its parts that is
// refused with it in the smallest answer that holds it, or as a whole.
fn general_place(alloc: Global, answer: &Json, sought: Sought) -> Result<Place, NoPlace> {
    for (name, role, desc) in GENERAL_PARTS {
        if let Some(json) = answer.get(name) {
            if general_refusal(alloc, name, json, sought.sending)? == sought.number {
                let beside = Json::try_from_str(alloc, desc)?;
                let part = Part {
                    role,
                    beside: &beside,
                    json,
                };
                let place = Place::find(alloc, part, sought.number)?;
                return Ok(place.under(key(alloc, name)?)?);
            }
        }
    }
    whole(alloc, Role::Answer, answer, sought.number)
}

// The number of the fault of a part of such an answer, in the smallest answer that holds it.
fn general_refusal(
    alloc: Global,
    name: &str,
    json: &Json,
    sending: Sending,
) -> Result<u8, AllocError> {
    let answer = match name {
        "completion" | "minor" => json!(in alloc; {"system": "", (name): json})?,
        _ => json!(in alloc; {(name): json})?,
    };
    let none = json!(in alloc; {})?;
    let wide = Sending {
        form: sending.form,
        limits: WIDE,
    };
    answer_refusal(alloc, &none, "", &none, &answer, wide)
}

// The members of the exception of this id, as JSON, where the interface has it.
fn exception_of<'a>(offered: &'a Json, id: &Json) -> Option<&'a Json> {
    let id = id.as_str()?;
    offered.get("exceptions")?.get(id)
}
