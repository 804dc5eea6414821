//! Reading one answer of a file: a result, an exception, or where the object is. Its form is
//! specs/Serve/AnswerForms.antt: change both.
ghost use Rattle.std.specs.Prelude.{Some};
ghost use Rattle.serde_json.specs.View.{view};
ghost use Rattle.giop_json.specs.FromJson.{Shows};
ghost use Rattle.giop_serving.specs.Serve.AnswerForms.{given_by, given_under, raised, raised_in, result_in};

use crate::serve::answers::general::general_of;
use crate::serve::answers::{AnswerGiven, text_of};
use crate::serve::in_turn::due_in;
use crate::serve::is_a::is_a_of;
use giop_cdr::OctetList;
use giop_commands::session::json::{is_object_of, octets_of, values_of};
use giop_json::FormFault;
use giop_types::{Offer, Operation, Parameter, Parameters};
use serde_json::Value as Json;
use std::alloc::Global;

/// What an operation is answered behind so many answers of its list, by the member of its name,
/// else by the default.
pub fn given_under(
    alloc: Global,
    offer: &Offer,
    name: &[u8],
    json: &Json,
    n: usize,
    operation: &Operation,
) -> Result<Option<AnswerGiven>, FormFault>
    ensures { Shows (λ given. given) result
        (given_under offer.now name.now (view json.now) n operation.now) }
{
    let outs = operation.outs.as_slice();
    let key = text_of(alloc, name)?;
    let given = match json.get(key.as_str()) {
        Some(own) => due_in(n, own),
        None => json.get("*"),
    };
    match given {
        Some(given) => given_of(alloc, offer, outs, given),
        None => Err(FormFault::BadShape),
    }
}

/// What an operation with these outs is answered; `None` where the form is right, and a value
/// doesn't fit.
pub fn given_of(
    alloc: Global,
    offer: &Offer,
    outs: &[Parameter],
    json: &Json,
) -> Result<Option<AnswerGiven>, FormFault>
    ensures { Shows (λ given. given) result
        (given_by offer.now outs.now (view json.now)) }
{
    if let Some(values) = json.get("ok") {
        if !is_object_of(1, json) {
            return Err(FormFault::BadShape);
        }
        return result_of(alloc, outs, values);
    }
    if let Some(id) = json.get("user") {
        if !is_object_of(2, json) {
            return Err(FormFault::BadShape);
        }
        return exception_of(alloc, offer, id, json);
    }
    if let Some(id) = json.get("is_a") {
        return is_a_of(alloc, outs, id, json);
    }
    general_of(alloc, json)
}

// A result, by the list of its outs.
fn result_of(
    alloc: Global,
    outs: &[Parameter],
    values: &Json,
) -> Result<Option<AnswerGiven>, FormFault>
    ensures { Shows (λ given. given) result (result_in outs.now (view values.now)) }
{
    match values_of(alloc, outs, values)? {
        Some(outs) => Ok(Some(AnswerGiven::Ok(outs))),
        None => Ok(None),
    }
}

// An exception of the interface, by its id and the object that has its members.
fn exception_of(
    alloc: Global,
    offer: &Offer,
    id: &Json,
    json: &Json,
) -> Result<Option<AnswerGiven>, FormFault>
    ensures { Shows (λ given. given) result
        (raised_in offer.now (view id.now) (view json.now)) }
{
    let id = octets_of(alloc, id)?;
    let Some(members) = json.get("members") else {
        return Err(FormFault::BadShape);
    };
    match offer.exception(id.as_slice()) {
        Some(parameters) => raised(alloc, parameters, id, members),
        None => Err(FormFault::BadShape),
    }
}

// An exception of these members.
fn raised(
    alloc: Global,
    parameters: &Parameters,
    id: OctetList,
    members: &Json,
) -> Result<Option<AnswerGiven>, FormFault>
    ensures { Shows (λ given. given) result (raised id (view members.now) (Some parameters.now)) }
{
    match values_of(alloc, parameters.as_slice(), members)? {
        Some(members) => Ok(Some(AnswerGiven::User { id, members })),
        None => Ok(None),
    }
}
