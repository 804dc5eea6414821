//! Whether the answers of a file fit their operations, and go out. What fits is
//! specs/AnswerFiles.antt: change both.
ghost use Rattle.std.specs.Prelude.{◌≡◌, ◌&&◌, codes};
ghost use Rattle.serde_json.specs.Find.{as_array, get};
ghost use Rattle.serde_json.specs.View.{items_view, view};
ghost use Rattle.giop_types.specs.JsonForms.FromJson.{Shows};
ghost use Rattle.giop_commands.specs.AnswerFiles.{are_fit, default_formed, each_fits, fits_outs, is_fit, list_fits, member_fits};

use crate::serve::answers::reading::given_of;
use crate::serve::answers::text_of;
use crate::serve::given::Sending;
use crate::serve::let_out::is_let_out;
use giop_types::{FormFault, Interface, Operation, Parameter};
use serde_json::Value as Json;
use std::alloc::Global;

/// Sees that a default has the form of an answer, whether it is used or not.
pub fn default_formed(alloc: Global, interface: &Interface, json: &Json) -> Result<bool, FormFault>
    ensures { Shows (λ formed. formed) result
        (default_formed interface.now (get (codes "*") (view json.now))) }
{
    if let Some(given) = json.get("*") {
        given_of(alloc, interface.general(), &[], given)?;
    }
    Ok(true)
}

/// Whether what is given for each operation fits.
pub fn are_fit(
    alloc: Global,
    interface: &Interface,
    sending: Sending,
    json: &Json,
) -> Result<bool, FormFault>
    ensures { Shows (λ fit. fit) result
        (are_fit interface.now sending (view json.now) interface.now.general.operations.entries) }
{
    let mut fit = true;
    for (name, operation) in interface.operations().iter() {
        let one = is_fit(alloc, interface, sending, json, name.as_slice(), operation)?;
        fit = fit && one;
    }
    Ok(fit)
}

// Whether what is given for an operation fits; nothing is for a oneway one.
fn is_fit(
    alloc: Global,
    interface: &Interface,
    sending: Sending,
    json: &Json,
    name: &[u8],
    operation: &Operation,
) -> Result<bool, FormFault>
    ensures { Shows (λ fit. fit) result
        (is_fit interface.now sending (view json.now) name.now operation.now) }
{
    if operation.oneway {
        return Ok(true);
    }
    let wanted = operation.outs.as_slice();
    let key = text_of(alloc, name)?;
    if let Some(own) = json.get(key.as_str()) {
        return member_fits(alloc, interface, sending, name, wanted, own);
    }
    match json.get("*") {
        Some(given) => fits_outs(alloc, interface, sending, name, wanted, given),
        None => Err(FormFault::BadShape),
    }
}

// Whether a member fits an operation with these outs: an answer, or each of a list of one or more.
fn member_fits(
    alloc: Global,
    interface: &Interface,
    sending: Sending,
    name: &[u8],
    outs: &[Parameter],
    json: &Json,
) -> Result<bool, FormFault>
    ensures { Shows (λ fit. fit) result
        (member_fits interface.now sending name.now outs.now (view json.now) (as_array (view
        json.now))) }
{
    match json.as_array() {
        None => fits_outs(alloc, interface, sending, name, outs, json),
        Some(list) => list_fits(alloc, interface, sending, name, outs, list.as_slice()),
    }
}

fn list_fits(
    alloc: Global,
    interface: &Interface,
    sending: Sending,
    name: &[u8],
    outs: &[Parameter],
    list: &[Json],
) -> Result<bool, FormFault>
    ensures { Shows (λ fit. fit) result
        (list_fits interface.now sending name.now outs.now (items_view list.now)) }
{
    match list {
        [] => Err(FormFault::BadShape),
        _ => each_fits(alloc, interface, sending, name, outs, list),
    }
}

// Whether each of these answers fits an operation with these outs.
fn each_fits(
    alloc: Global,
    interface: &Interface,
    sending: Sending,
    name: &[u8],
    outs: &[Parameter],
    list: &[Json],
) -> Result<bool, FormFault>
    ensures { Shows (λ fit. fit) result
        (each_fits interface.now sending name.now outs.now (items_view list.now)) }
{
    let mut all = true;
    for json in list {
        let one = fits_outs(alloc, interface, sending, name, outs, json)?;
        all = both(all, one);
    }
    Ok(all)
}

fn both(one: bool, other: bool) -> bool
    ensures { result ≡ (one && other) }
{
    one && other
}

// Whether an answer fits an operation with these outs, and goes out.
fn fits_outs(
    alloc: Global,
    interface: &Interface,
    sending: Sending,
    name: &[u8],
    outs: &[Parameter],
    json: &Json,
) -> Result<bool, FormFault>
    ensures { Shows (λ fit. fit) result (fits_outs interface.now sending name.now outs.now (view
        json.now)) }
{
    match given_of(alloc, interface.general(), outs, json)? {
        Some(given) => Ok(is_let_out(alloc, interface, sending, name, given)?),
        None => Ok(false),
    }
}
