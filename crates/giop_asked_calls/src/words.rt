//! A call that words ask for: the name of an operation, and its ins. Its meaning is `call_in_words`
//! in specs/Forms.antt: change both.
ghost use Rattle.std.specs.Prelude.{◌≡◌, ◌⊎◌, ◌∷◌, [], IfOk, IfErr, Ok, Err};
ghost use Rattle.serde_json.specs.View.{items_view};
ghost use Rattle.giop_json.specs.declared.form_fault.FormFault.TheVariants.{NoMemory};
ghost use Rattle.giop_asked_calls.specs.Forms.{call_in_words};

use crate::calls::{CallLine, call_named};
use giop_json::FormFault;
use giop_types::Interface;
use serde_json::Value as Json;
use std::alloc::{AllocError, Global};

/// The request id of a call that words ask for.
pub const ID_IN_WORDS: u32 = 1;

/// The call of an operation by its name and its ins, under the id 1. It is what a file of
/// `[{"id":1,"operation":NAME,"ins":INS}]` lists (docs/FORMATS.md, "Calls and answers").
///
/// Refused as the first of these that holds; in place of any it may be NoMemory, where it is out of
/// memory:
///
/// - BadShape, where a value has another form, or the operation isn't in the interface.
/// - Unfit, where a value doesn't fit, or there are more or fewer values than ins.
pub fn call_from_words(
    alloc: Global,
    interface: &Interface,
    name: &str,
    ins: Vec<Json>,
) -> Result<Vec<CallLine>, FormFault>
    ensures ok { IfOk result (λ calls. call_in_words interface.now name.now (items_view ins.items)
        ≡ Ok calls.items) }
    ensures err { IfErr result (λ e. (e ≡ NoMemory)
        ⊎ (call_in_words interface.now name.now (items_view ins.items) ≡ Err e)) }
{
    let (id, ins) = (Json::from(ID_IN_WORDS), Json::Array(ins));
    let name = Json::try_from_str(alloc, name)?;
    match call_named(alloc, interface, &id, &name, &ins)? {
        Some(call) => Ok(one_call(alloc, call)?),
        None => Err(FormFault::Unfit),
    }
}

// A list of one call.
fn one_call(alloc: Global, call: CallLine) -> Result<Vec<CallLine>, AllocError>
    ensures { IfOk result (λ calls. calls.items ≡ call ∷ []) }
{
    let mut calls = Vec::with_capacity(alloc, 1)?;
    calls.push(call)?;
    Ok(calls)
}
