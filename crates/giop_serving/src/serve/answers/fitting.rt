//! Whether the answers of a file fit their operations, and go out. What fits is
//! specs/Serve/AnswerFiles.antt: change both.
ghost use Rattle.std.specs.Prelude.{◌≡◌, ◌&&◌, codes};
ghost use Rattle.serde_json.specs.Find.{as_array, get};
ghost use Rattle.serde_json.specs.View.{items_view, view};
ghost use Rattle.giop_json.specs.FromJson.{Shows};
ghost use Rattle.giop_serving.specs.Serve.AnswerFiles.{are_fit, default_formed, each_fits, fits_outs, is_fit, list_fits, member_fits};

use crate::serve::answers::let_out::is_let_out;
use crate::serve::answers::reading::given_of;
use crate::serve::answers::text_of;
use crate::serve::given::Sending;
use giop_json::FormFault;
use giop_types::{Interface, Operation};
use serde_json::Value as Json;
use std::alloc::Global;

/// Sees that a default has the form of an answer, whether it is used or not.
pub fn default_formed(alloc: Global, interface: &Interface, json: &Json) -> Result<bool, FormFault>
    ensures { Shows (λ formed. formed) result
        (default_formed interface.now (get (codes "*") (view json.now))) }
{
    if let Some(given) = json.get("*") {
        given_of(alloc, interface.general(), &[], given)?;
    }
    Ok(true)
}

/// What an answer is judged by.
#[derive(Clone, Copy)]
struct Wanted<'a> {
    /// The interface that offers the operation.
    interface: &'a Interface,
    /// How answers are sent.
    sending: Sending,
    /// The name of the operation.
    name: &'a [u8],
    /// The operation.
    operation: &'a Operation,
}

/// Whether what is given for each operation fits.
pub fn are_fit(
    alloc: Global,
    interface: &Interface,
    sending: Sending,
    json: &Json,
) -> Result<bool, FormFault>
    ensures { Shows (λ fit. fit) result
        (are_fit interface.now sending (view json.now) interface.now.general.operations.entries) }
{
    let mut fit = true;
    for (name, operation) in interface.operations().iter() {
        let wanted = Wanted {
            interface,
            sending,
            name: name.as_slice(),
            operation,
        };
        let one = is_fit(alloc, wanted, json)?;
        fit = fit && one;
    }
    Ok(fit)
}

// Whether what is given for an operation fits; nothing is for a oneway one.
fn is_fit(alloc: Global, wanted: Wanted<'_>, json: &Json) -> Result<bool, FormFault>
    ensures { Shows (λ fit. fit) result (is_fit wanted.entry.interface.now wanted.entry.sending
        (view json.now) wanted.entry.name.now wanted.entry.operation.now) }
{
    if wanted.operation.oneway {
        return Ok(true);
    }
    let key = text_of(alloc, wanted.name)?;
    if let Some(own) = json.get(key.as_str()) {
        return member_fits(alloc, wanted, own);
    }
    match json.get("*") {
        Some(given) => fits_outs(alloc, wanted, given),
        None => Err(FormFault::BadShape),
    }
}

// Whether a member fits an operation with these outs: an answer, or each of a list of one or more.
fn member_fits(alloc: Global, wanted: Wanted<'_>, json: &Json) -> Result<bool, FormFault>
    ensures { Shows (λ fit. fit) result
        (member_fits wanted.entry.interface.now wanted.entry.sending wanted.entry.name.now
        wanted.entry.operation.now.outs.list.items (view json.now) (as_array (view json.now))) }
{
    match json.as_array() {
        None => fits_outs(alloc, wanted, json),
        Some(list) => list_fits(alloc, wanted, list.as_slice()),
    }
}

fn list_fits(alloc: Global, wanted: Wanted<'_>, list: &[Json]) -> Result<bool, FormFault>
    ensures { Shows (λ fit. fit) result
        (list_fits wanted.entry.interface.now wanted.entry.sending wanted.entry.name.now
        wanted.entry.operation.now.outs.list.items (items_view list.now)) }
{
    match list {
        [] => Err(FormFault::BadShape),
        _ => each_fits(alloc, wanted, list),
    }
}

// Whether each of these answers fits an operation with these outs.
fn each_fits(alloc: Global, wanted: Wanted<'_>, list: &[Json]) -> Result<bool, FormFault>
    ensures { Shows (λ fit. fit) result
        (each_fits wanted.entry.interface.now wanted.entry.sending wanted.entry.name.now
        wanted.entry.operation.now.outs.list.items (items_view list.now)) }
{
    let mut all = true;
    for json in list {
        let one = fits_outs(alloc, wanted, json)?;
        all = both(all, one);
    }
    Ok(all)
}

fn both(one: bool, other: bool) -> bool
    ensures { result ≡ (one && other) }
{
    one && other
}

// Whether an answer fits an operation with these outs, and goes out.
fn fits_outs(alloc: Global, wanted: Wanted<'_>, json: &Json) -> Result<bool, FormFault>
    ensures { Shows (λ fit. fit) result
        (fits_outs wanted.entry.interface.now wanted.entry.sending wanted.entry.name.now
        wanted.entry.operation.now.outs.list.items (view json.now)) }
{
    let outs = wanted.operation.outs.as_slice();
    match given_of(alloc, wanted.interface.general(), outs, json)? {
        Some(given) => {
            let (interface, sending) = (wanted.interface, wanted.sending);
            Ok(is_let_out(alloc, interface, sending, wanted.name, given)?)
        }
        None => Ok(false),
    }
}
