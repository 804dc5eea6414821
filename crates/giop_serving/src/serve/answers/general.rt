//! What any operation may be answered: a system exception, or that the object is elsewhere. The
//! forms are specs/Serve/GeneralForms.antt: change both.
ghost use Rattle.std.specs.Prelude.{◌≡◌, codes, Some};
ghost use Rattle.serde_json.specs.Find.{get};
ghost use Rattle.serde_json.specs.View.{view};
ghost use Rattle.giop_ior.specs.Ior.{ior_layout};
ghost use Rattle.giop_ior_text.specs.IorText.{ior_text_of};
ghost use Rattle.giop_json.specs.FromJson.{Shows};
ghost use Rattle.giop_serving.specs.Serve.GeneralForms.{completion_in, completion_numbered, corbaloc_reference, forward_in, forward_perm_in, general_by, minor_in, reference_in, reference_said, system_in, system_members};

use crate::serve::answers::AnswerGiven;
use giop_cdr::EncodeFault;
use giop_commands::session::json::{is_object_of, octets_of, ulong_of};
use giop_commands::session::target::is_reference;
use giop_ior::{Corbaloc, CorbalocKind, Ior, IorTextFault, corbaloc_from_text, ior_from_text};
use giop_json::FormFault;
use giop_msg::Completion;
use serde_json::Value as Json;
use std::alloc::Global;

/// A system exception, or where the object is instead; `None` where the form is right, and a part
/// doesn't fit. `BadShape` where it is neither.
pub fn general_of(alloc: Global, json: &Json) -> Result<Option<AnswerGiven>, FormFault>
    ensures { Shows (λ given. given) result (general_by (view json.now)) }
{
    if let Some(id) = json.get("system") {
        return system_of(alloc, id, json);
    }
    if let Some(text) = json.get("forward") {
        return forward_of(alloc, text, json);
    }
    match json.get("forward_perm") {
        Some(text) => forward_perm_of(alloc, text, json),
        None => Err(FormFault::BadShape),
    }
}

// A system exception, by its id and the object that has its other members.
fn system_of(alloc: Global, id: &Json, json: &Json) -> Result<Option<AnswerGiven>, FormFault>
    ensures { Shows (λ given. given) result (system_in (view id.now) (view json.now)) }
{
    if !is_object_of(system_members(json), json) {
        return Err(FormFault::BadShape);
    }
    let id = octets_of(alloc, id)?;
    let minor = minor_of(alloc, json)?;
    let completion = completion_of(alloc, json)?;
    match (minor, completion) {
        (Some(minor), Some(completion)) => Ok(Some(AnswerGiven::System {
            id,
            minor,
            completion,
        })),
        _ => Ok(None),
    }
}

// How many members a system exception has, by those that may be left out.
fn system_members(json: &Json) -> usize
    ensures { result ≡ system_members (view json.now) }
{
    let mut count: usize = 1;
    if json.get("minor").is_some() {
        count += 1;
    }
    if json.get("completion").is_some() {
        count += 1;
    }
    count
}

// The minor code of a system exception, 0 where it is left out; `None` where it is no unsigned
// long.
fn minor_of(alloc: Global, json: &Json) -> Result<Option<u32>, FormFault>
    ensures { Shows (λ minor. minor) result (minor_in (get (codes "minor") (view json.now))) }
{
    match json.get("minor") {
        Some(number) => ulong_of(alloc, number),
        None => Ok(Some(0)),
    }
}

// The completion of a system exception, by its number, 1 where it is left out; `None` where it is
// another number.
fn completion_of(alloc: Global, json: &Json) -> Result<Option<Completion>, FormFault>
    ensures { Shows (λ completion. completion) result
        (completion_in (get (codes "completion") (view json.now))) }
{
    let Some(number) = json.get("completion") else {
        return Ok(Some(Completion::No));
    };
    match ulong_of(alloc, number)? {
        Some(number) => Ok(completion_numbered(number)),
        None => Ok(None),
    }
}

fn completion_numbered(number: u32) -> Option<Completion>
    ensures { result ≡ completion_numbered number }
{
    match number {
        0 => Some(Completion::Yes),
        1 => Some(Completion::No),
        2 => Some(Completion::Maybe),
        _ => None,
    }
}

// Where the object is for this call, by the text of a reference.
fn forward_of(alloc: Global, text: &Json, json: &Json) -> Result<Option<AnswerGiven>, FormFault>
    ensures { Shows (λ given. given) result (forward_in (view text.now) (view json.now)) }
{
    if !is_object_of(1, json) {
        return Err(FormFault::BadShape);
    }
    match reference_of(alloc, text)? {
        Some(ior) => Ok(Some(AnswerGiven::Forward(ior))),
        None => Ok(None),
    }
}

// Where the object is from now on, by the text of a reference.
fn forward_perm_of(
    alloc: Global,
    text: &Json,
    json: &Json,
) -> Result<Option<AnswerGiven>, FormFault>
    ensures { Shows (λ given. given) result (forward_perm_in (view text.now) (view json.now)) }
{
    if !is_object_of(1, json) {
        return Err(FormFault::BadShape);
    }
    match reference_of(alloc, text)? {
        Some(ior) => Ok(Some(AnswerGiven::ForwardPerm(ior))),
        None => Ok(None),
    }
}

// The reference of a text; `None` where it is a corbaloc of which octets spell no reference.
fn reference_of(alloc: Global, text: &Json) -> Result<Option<Ior>, FormFault>
    ensures { Shows (λ ior. ior) result (reference_in (view text.now)) }
{
    let text = octets_of(alloc, text)?;
    reference_said(alloc, text.as_slice())
}

// The reference that a text says, as a target's text is read.
fn reference_said(alloc: Global, text: &[u8]) -> Result<Option<Ior>, FormFault>
    ensures { Shows (λ ior. ior) result (reference_said text.now) }
{
    if is_reference(text) {
        return match ior_from_text(alloc, text) {
            Ok(ior) => Ok(Some(ior)),
            Err(IorTextFault::NoMemory) => Err(FormFault::NoMemory),
            Err(_) => Err(FormFault::BadShape),
        };
    }
    match corbaloc_from_text(alloc, text) {
        Ok(corbaloc) => corbaloc_reference(alloc, &corbaloc),
        Err(fault) => match fault.kind {
            CorbalocKind::NoMemory => Err(FormFault::NoMemory),
            _ => Err(FormFault::BadShape),
        },
    }
}

// The reference of a corbaloc, where octets spell its profiles.
fn corbaloc_reference(alloc: Global, corbaloc: &Corbaloc) -> Result<Option<Ior>, FormFault>
    ensures { Shows (λ ior. ior) result (Some (corbaloc_reference corbaloc.now)) }
{
    match corbaloc.to_ior(alloc) {
        Ok(ior) => Ok(Some(ior)),
        Err(EncodeFault::Unfit) => Ok(None),
        Err(EncodeFault::NoMemory) => Err(FormFault::NoMemory),
    }
}
