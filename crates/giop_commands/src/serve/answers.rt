//! The answers that a file gives `serve`, in JSON (docs/FORMATS.md, "Calls and answers"). Their
//! form is `answers_in` in specs/AnswerFiles.antt, and that of one specs/AnswerForms.antt: change
//! both.
ghost use Rattle.std.specs.Prelude.{◌≡◌, ◌&&◌, ◌⊎◌, codes, IfOk, IfErr, string_bytes};
ghost use Rattle.serde_json.specs.Find.{as_array, get};
ghost use Rattle.serde_json.specs.View.{items_view, view};
ghost use Rattle.giop_types.specs.declared.json.form_fault.FormFault.TheVariants.{NoMemory};
ghost use Rattle.giop_types.specs.JsonForms.FromJson.{Shows};
ghost use Rattle.giop_types.specs.JsonForms.JsonText.{text_of};
ghost use Rattle.giop_commands.specs.AnswerFiles.{answers_in, are_fit, default_count, default_formed, each_fits, fits_outs, has_own, is_fit, list_fits, member_count, member_fits, own_count};
ghost use Rattle.giop_commands.specs.AnswerForms.{given_by, given_in, given_under, raised, raised_in, result_in};

use crate::serve::general::general_of;
use crate::serve::given::Sending;
use crate::serve::in_turn::due_in;
use crate::serve::is_a::is_a_of;
use crate::serve::let_out::is_let_out;
use crate::session::json::{is_object_of, octets_of, values_of};
use giop_cdr::OctetList;
use giop_ior::Ior;
use giop_msg::Completion;
use giop_types::{
    FormFault, Interface, Offer, Operation, Parameter, Parameters, ValueList, parse_json,
};
use serde_json::Value as Json;
use std::alloc::{AllocError, Global};

/// What an operation is answered.
#[derive(Debug, Drop)]
pub enum AnswerGiven {
    /// Its result, and the inout and out parameters, in their order.
    Ok(ValueList),
    /// An exception of the interface.
    User {
        /// The repository id of the exception.
        id: OctetList,
        /// The members of the exception, in their order.
        members: ValueList,
    },
    /// A system exception.
    System {
        /// The repository id of the exception.
        id: OctetList,
        /// The minor code.
        minor: u32,
        /// Whether the operation was carried out.
        completion: Completion,
    },
    /// The result of `_is_a`, of an object whose type has this repository id.
    IsA(OctetList),
    /// Where the object is, for this call.
    Forward(Ior),
    /// Where the object is from now on.
    ForwardPerm(Ior),
}

/// What the operations of an interface are answered, each but the oneway ones.
#[derive(Debug, Drop)]
pub struct Answers {
    /// An object with a member for each of them, or with one under `*` for those without their own.
    pub json: Json,
}

impl Answers {
    /// What an operation of this name is answered, by what the object offers for which the answers
    /// were read, where so many of its answers are passed. `None` where nothing is given, as for a
    /// oneway operation.
    pub fn given(
        &self,
        alloc: Global,
        offer: &Offer,
        passed: usize,
        name: &[u8],
    ) -> Result<Option<AnswerGiven>, AllocError>
        ensures { IfOk result (λ given. given
            ≡ given_in offer.now (view self.now.json) passed name.now) }
    {
        let operation = match offer.operation(name) {
            Some(operation) if !operation.oneway => operation,
            _ => return Ok(None),
        };
        match given_under(alloc, offer, name, &self.json, passed, operation) {
            Ok(given) => Ok(given),
            Err(FormFault::NoMemory) => Err(AllocError),
            Err(_) => Ok(None),
        }
    }
}

/// The answers that a JSON text gives: an object with a member for each operation of the interface
/// that isn't oneway, and no other. A member `*` stands for each of these that has none of its own.
/// A member but `*` may be a list of one answer or more, which are given in turn, a call of the
/// operation each; the last stays. An answer is one of these:
///
/// - `{"ok":[VALUE,..]}`, with the operation's outs.
/// - `{"user":ID,"members":[VALUE,..]}`, with an exception of the interface and its members.
/// - `{"is_a":ID}`, with the repository id of the object's type: true where the argument is this id
///   or that of CORBA::Object.
/// - `{"system":ID,"minor":N,"completion":N}`; `minor` and `completion` may be left out.
/// - `{"forward":TEXT}` or `{"forward_perm":TEXT}`, with the text of a reference or a corbaloc.
///
/// Refused as the first of these that holds; in place of any it may be NoMemory, where it is out of
/// memory:
///
/// - BadJson, where the text is no JSON.
/// - BadShape, where it, or a part of it, has another form, or an exception isn't in the interface.
/// - Unfit, where a value doesn't fit, or there are more or fewer values than outs or members, or
///   `is_a` answers an operation whose outs aren't one boolean, a minor code is no unsigned long, a
///   completion is above 2, or octets spell no reference of a corbaloc; or where the Reply of an
///   answer to a Request that wants its outs is one that no version lets out, in this form and
///   within these limits.
pub fn answers_from_json(
    alloc: Global,
    interface: &Interface,
    sending: Sending,
    text: &[u8],
) -> Result<Answers, FormFault>
    ensures ok { IfOk result (λ answers. answers_in interface.now sending text.now
        ≡ Ok (view answers.json)) }
    ensures err { IfErr result
        (λ e. (e ≡ NoMemory) ⊎ (answers_in interface.now sending text.now ≡ Err e)) }
{
    let json = parse_json(alloc, text)?;
    if !is_object_of(member_count(alloc, interface, &json)?, &json) {
        return Err(FormFault::BadShape);
    }
    default_formed(alloc, interface, &json)?;
    if are_fit(alloc, interface, sending, &json)? {
        Ok(Answers { json })
    } else {
        Err(FormFault::Unfit)
    }
}

// How many members answers have.
fn member_count(alloc: Global, interface: &Interface, json: &Json) -> Result<usize, AllocError>
    ensures { IfOk result (λ count. count ≡ member_count interface.now (view json.now)) }
{
    let own = own_count(alloc, interface, json)?;
    match own.checked_add(default_count(interface, json)) {
        Some(count) => Ok(count),
        None => Err(AllocError),
    }
}

// How many operations have an answer of their own.
fn own_count(alloc: Global, interface: &Interface, json: &Json) -> Result<usize, AllocError>
    ensures { IfOk result (λ count. count ≡ own_count interface.now (view json.now)) }
{
    let mut count: usize = 0;
    for (name, operation) in interface.operations().iter() {
        if has_own(alloc, json, name.as_slice(), operation)? {
            count += 1;
        }
    }
    Ok(count)
}

fn has_own(
    alloc: Global,
    json: &Json,
    name: &[u8],
    operation: &Operation,
) -> Result<bool, AllocError>
    ensures { IfOk result (λ own. own ≡ has_own (view json.now) name.now operation.now) }
{
    let key = text_of(alloc, name)?;
    Ok(!operation.oneway && json.get(key.as_str()).is_some())
}

// How many members are a default: the one under `*`, unless an operation of that name is answered.
fn default_count(interface: &Interface, json: &Json) -> usize
    ensures { result ≡ default_count interface.now (view json.now) }
{
    if json.get("*").is_none() {
        return 0;
    }
    match interface.operation(b"*") {
        Some(operation) if !operation.oneway => 0,
        _ => 1,
    }
}

// Sees that a default has the form of an answer, whether it is used or not.
fn default_formed(alloc: Global, interface: &Interface, json: &Json) -> Result<bool, FormFault>
    ensures { Shows (λ formed. formed) result
        (default_formed interface.now (get (codes "*") (view json.now))) }
{
    if let Some(given) = json.get("*") {
        given_of(alloc, interface.general(), &[], given)?;
    }
    Ok(true)
}

// Whether what is given for each operation fits.
fn are_fit(
    alloc: Global,
    interface: &Interface,
    sending: Sending,
    json: &Json,
) -> Result<bool, FormFault>
    ensures { Shows (λ fit. fit) result
        (are_fit interface.now sending (view json.now) interface.now.general.operations.entries) }
{
    let mut fit = true;
    for (name, operation) in interface.operations().iter() {
        let one = is_fit(alloc, interface, sending, json, name.as_slice(), operation)?;
        fit = fit && one;
    }
    Ok(fit)
}

// Whether what is given for an operation fits; nothing is for a oneway one.
fn is_fit(
    alloc: Global,
    interface: &Interface,
    sending: Sending,
    json: &Json,
    name: &[u8],
    operation: &Operation,
) -> Result<bool, FormFault>
    ensures { Shows (λ fit. fit) result
        (is_fit interface.now sending (view json.now) name.now operation.now) }
{
    if operation.oneway {
        return Ok(true);
    }
    let wanted = operation.outs.as_slice();
    let key = text_of(alloc, name)?;
    if let Some(own) = json.get(key.as_str()) {
        return member_fits(alloc, interface, sending, name, wanted, own);
    }
    match json.get("*") {
        Some(given) => fits_outs(alloc, interface, sending, name, wanted, given),
        None => Err(FormFault::BadShape),
    }
}

// Whether a member fits an operation with these outs: an answer, or each of a list of one or more.
fn member_fits(
    alloc: Global,
    interface: &Interface,
    sending: Sending,
    name: &[u8],
    outs: &[Parameter],
    json: &Json,
) -> Result<bool, FormFault>
    ensures { Shows (λ fit. fit) result
        (member_fits interface.now sending name.now outs.now (view json.now) (as_array (view json.now))) }
{
    match json.as_array() {
        None => fits_outs(alloc, interface, sending, name, outs, json),
        Some(list) => list_fits(alloc, interface, sending, name, outs, list.as_slice()),
    }
}

fn list_fits(
    alloc: Global,
    interface: &Interface,
    sending: Sending,
    name: &[u8],
    outs: &[Parameter],
    list: &[Json],
) -> Result<bool, FormFault>
    ensures { Shows (λ fit. fit) result
        (list_fits interface.now sending name.now outs.now (items_view list.now)) }
{
    match list {
        [] => Err(FormFault::BadShape),
        _ => each_fits(alloc, interface, sending, name, outs, list),
    }
}

// Whether each of these answers fits an operation with these outs.
fn each_fits(
    alloc: Global,
    interface: &Interface,
    sending: Sending,
    name: &[u8],
    outs: &[Parameter],
    list: &[Json],
) -> Result<bool, FormFault>
    ensures { Shows (λ fit. fit) result
        (each_fits interface.now sending name.now outs.now (items_view list.now)) }
{
    let mut all = true;
    for json in list {
        let one = fits_outs(alloc, interface, sending, name, outs, json)?;
        all = both(all, one);
    }
    Ok(all)
}

fn both(one: bool, other: bool) -> bool
    ensures { result ≡ (one && other) }
{
    one && other
}

// Whether an answer fits an operation with these outs, and goes out.
fn fits_outs(
    alloc: Global,
    interface: &Interface,
    sending: Sending,
    name: &[u8],
    outs: &[Parameter],
    json: &Json,
) -> Result<bool, FormFault>
    ensures { Shows (λ fit. fit) result (fits_outs interface.now sending name.now outs.now (view json.now)) }
{
    match given_of(alloc, interface.general(), outs, json)? {
        Some(given) => Ok(is_let_out(alloc, interface, sending, name, given)?),
        None => Ok(false),
    }
}

// What an operation is answered behind so many answers of its list, by the member of its name, else
// by the default.
fn given_under(
    alloc: Global,
    offer: &Offer,
    name: &[u8],
    json: &Json,
    n: usize,
    operation: &Operation,
) -> Result<Option<AnswerGiven>, FormFault>
    ensures { Shows (λ given. given) result
        (given_under offer.now name.now (view json.now) n operation.now) }
{
    let outs = operation.outs.as_slice();
    let key = text_of(alloc, name)?;
    let given = match json.get(key.as_str()) {
        Some(own) => due_in(n, own),
        None => json.get("*"),
    };
    match given {
        Some(given) => given_of(alloc, offer, outs, given),
        None => Err(FormFault::BadShape),
    }
}

// What an operation with these outs is answered; `None` where the form is right, and a value
// doesn't fit.
fn given_of(
    alloc: Global,
    offer: &Offer,
    outs: &[Parameter],
    json: &Json,
) -> Result<Option<AnswerGiven>, FormFault>
    ensures { Shows (λ given. given) result
        (given_by offer.now outs.now (view json.now)) }
{
    if let Some(values) = json.get("ok") {
        if !is_object_of(1, json) {
            return Err(FormFault::BadShape);
        }
        return result_of(alloc, outs, values);
    }
    if let Some(id) = json.get("user") {
        if !is_object_of(2, json) {
            return Err(FormFault::BadShape);
        }
        return exception_of(alloc, offer, id, json);
    }
    if let Some(id) = json.get("is_a") {
        return is_a_of(alloc, outs, id, json);
    }
    general_of(alloc, json)
}

// A result, by the list of its outs.
fn result_of(
    alloc: Global,
    outs: &[Parameter],
    values: &Json,
) -> Result<Option<AnswerGiven>, FormFault>
    ensures { Shows (λ given. given) result (result_in outs.now (view values.now)) }
{
    match values_of(alloc, outs, values)? {
        Some(outs) => Ok(Some(AnswerGiven::Ok(outs))),
        None => Ok(None),
    }
}

// An exception of the interface, by its id and the object that has its members.
fn exception_of(
    alloc: Global,
    offer: &Offer,
    id: &Json,
    json: &Json,
) -> Result<Option<AnswerGiven>, FormFault>
    ensures { Shows (λ given. given) result
        (raised_in offer.now (view id.now) (view json.now)) }
{
    let id = octets_of(alloc, id)?;
    let Some(members) = json.get("members") else {
        return Err(FormFault::BadShape);
    };
    match offer.exception(id.as_slice()) {
        Some(parameters) => raised(alloc, parameters, id, members),
        None => Err(FormFault::BadShape),
    }
}

// An exception of these members.
fn raised(
    alloc: Global,
    parameters: &Parameters,
    id: OctetList,
    members: &Json,
) -> Result<Option<AnswerGiven>, FormFault>
    ensures { Shows (λ given. given) result (raised id (view members.now) (Some parameters.now)) }
{
    match values_of(alloc, parameters.as_slice(), members)? {
        Some(members) => Ok(Some(AnswerGiven::User { id, members })),
        None => Ok(None),
    }
}

/// The text of octets: the octet n is the character U+00n.
pub fn text_of(alloc: Global, octets: &[u8]) -> Result<String, AllocError>
    ensures { IfOk result (λ text. string_bytes text ≡ text_of octets.now) }
{
    let mut text = String::with_capacity(alloc, octets.len())?;
    for octet in octets {
        text.push(char::from(*octet))?;
    }
    Ok(text)
}
