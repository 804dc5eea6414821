//! How a part that stands alone is refused: `alone` in specs/Alone.antt. The judges are those of
//! giop_json.
ghost use Rattle.std.specs.Prelude.{◌≡◌, IfOk};
ghost use Rattle.serde_json.specs.View.{view};
ghost use Rattle.giop_where.specs.Alone.{alone, fault_code, desc_refusal, interface_refusal, value_refusal};
ghost use Rattle.giop_where.specs.Parts.{part_view};

use crate::alone::file_of;
use crate::no_place::NoPlace;
use crate::part::Part;
use crate::role::Role;
use crate::texts::text_of;
use giop_json::{FormFault, desc_from_json, interface_from_json, value_from_json};
use giop_types::{DescFault, Interface};
use serde_json::Value as Json;
use std::alloc::Global;

/// A fault as a number, by which it is looked for: its own number, but of BadDesc 10 more than the
/// description's fault has.
pub fn fault_code(fault: FormFault) -> u8
    ensures { result ≡ fault_code fault }
{
    match fault {
        FormFault::BadDesc(DescFault::Empty) => 11,
        FormFault::BadDesc(DescFault::Doubled) => 12,
        FormFault::BadDesc(DescFault::BadDiscriminant) => 13,
        FormFault::BadDesc(DescFault::TooDeep) => 14,
        _ => fault.number(),
    }
}

/// The number of the fault with which a part that stands alone is refused, 0 where it isn't.
pub fn refusal_of(alloc: Global, part: Part<'_>) -> Result<u8, NoPlace>
    ensures { IfOk result (λ number. number ≡ alone (part_view part.entry)) }
{
    match part.role {
        Role::Nothing
        | Role::Arguments
        | Role::Calls
        | Role::Call
        | Role::Offered
        | Role::Answers
        | Role::Answer
        | Role::Raised
        | Role::Completion
        | Role::Forward => Ok(0),
        Role::Value => value_refusal(alloc, part.beside, part.json),
        Role::Interface
        | Role::Operations
        | Role::Operation
        | Role::Parameters
        | Role::Parameter
        | Role::Oneway
        | Role::Exceptions
        | Role::Unknown => interface_refusal(alloc, &file_of(alloc, part)?),
        _ => desc_refusal(alloc, &file_of(alloc, part)?),
    }
}

// The refusal of the file of an interface.
fn interface_refusal(alloc: Global, file: &Json) -> Result<u8, NoPlace>
    ensures { IfOk result (λ number. number ≡ interface_refusal (view file.now)) }
{
    let text = text_of(alloc, file)?;
    match interface_from_json(alloc, text.as_bytes()) {
        Ok(_) => Ok(0),
        Err(FormFault::NoMemory) => Err(NoPlace::Memory),
        Err(fault) => Ok(fault_code(fault)),
    }
}

// The refusal of the file of a description.
fn desc_refusal(alloc: Global, file: &Json) -> Result<u8, NoPlace>
    ensures { IfOk result (λ number. number ≡ desc_refusal (view file.now)) }
{
    let text = text_of(alloc, file)?;
    match desc_from_json(alloc, text.as_bytes()) {
        Ok(_) => Ok(0),
        Err(FormFault::NoMemory) => Err(NoPlace::Memory),
        Err(fault) => Ok(fault_code(fault)),
    }
}

// The refusal of a value by its description.
fn value_refusal(alloc: Global, desc: &Json, json: &Json) -> Result<u8, NoPlace>
    ensures { IfOk result (λ number. number ≡ value_refusal (view desc.now) (view json.now)) }
{
    let text = text_of(alloc, desc)?;
    let desc = match desc_from_json(alloc, text.as_bytes()) {
        Ok(desc) => desc,
        Err(FormFault::NoMemory) => return Err(NoPlace::Memory),
        Err(fault) => return Ok(fault_code(fault)),
    };
    match value_from_json(alloc, &desc, json) {
        Ok(_) => Ok(0),
        Err(FormFault::NoMemory) => Err(NoPlace::Memory),
        Err(fault) => Ok(fault_code(fault)),
    }
}
