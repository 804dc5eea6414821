//! The public call that reads a value (9.3.2). It fixes which of two refusals is reported: a fault
//! of the octets comes before out of memory.
ghost use Rattle.std.specs.Prelude.{◌≡◌, ◌+◌, ◌≤◌, length, IfOk};
ghost use Rattle.giop_cdr.specs.Reading.Exactness.{Took};
ghost use Rattle.giop_types.specs.Coding.Decoding.{decode_at};
ghost use Rattle.giop_types.specs.Descriptions.CheckedShape.{checked_shape};
ghost use Rattle.giop_types.specs.Values.Leaves.{leaves};
ghost use Rattle.giop_types.specs.Coding.Outcome.{Decodes, IsDecoded};
ghost use Rattle.giop_types.specs.Coding.Spells.{Spells};
ghost use Rattle.giop_types.specs.Values.Views.{desc_view, value_view};

use crate::codec::build::build_part;
use crate::codec::skip::skip;
use crate::codec::value_memory::ValueMemory;
use crate::description::checked_desc::CheckedDesc;
use crate::description::desc::Desc;
use crate::value::Value;
use giop_cdr::{CdrFault, CdrIn, CdrKind, Octets};
use std::alloc::Global;

/// Reads a value of this description (9.3.2), at the place where `input` is.
///
/// The first field in reading order that isn't spelled is refused, as giop_cdr's reader of its kind
/// refuses it. These are refused besides:
///
/// - BadLabel: an ordinal that has no name, at its place
/// - BoundPassed: a count that is above the bound, at the place of the count
/// - BadCount: an array of more values than octets are left, where the reader is
///
/// NoMemory is reported where the reader is, and only if nothing else is refused. After a refusal
/// the reader is where it was.
#[inline(always)]
pub fn decode<S: Octets>(
    alloc: Global,
    input: &mut CdrIn<S>,
    desc: &CheckedDesc,
) -> Result<Value, CdrFault>
    // What is returned is what is spelled there, and what is spelled there is returned.
    ensures found { IfOk result (λ value.
        Took (Spells (checked_shape desc.now)) input.old (value_view value) input.new) }
    ensures only { (tree : _) (after : _)
        → Took (Spells (checked_shape desc.now)) input.old tree after
        → IsDecoded result input.new tree after }

    // It has no more leaves than octets were read.
    ensures bounded { IfOk result (λ value.
        leaves (value_view value) + length input.new.rest ≤ length input.old.rest) }

    // Which refusal it is.
    ensures value { Decodes input.old result input.new
        (decode_at (checked_shape desc.now) input.old) }
{
    value_of(alloc, desc.desc(), input)
}

/// Reads the value in one pass where all goes well. Out of memory is reported last: a second pass,
/// which takes no memory, looks for a fault first.
#[inline(always)]
pub fn value_of<S: Octets>(
    alloc: Global,
    desc: &Desc,
    input: &mut CdrIn<S>,
) -> Result<Value, CdrFault>
    ensures { Decodes input.old result input.new (decode_at (desc_view desc.now) input.old) }
{
    let mut ahead = input.fork();
    let fault = match build_part(ValueMemory::new(alloc), desc, &mut ahead) {
        Ok(value) => {
            *input = ahead;
            return Ok(value);
        }
        Err(fault) => fault,
    };
    match fault.kind {
        CdrKind::NoMemory => {
            skip(desc, &mut input.fork())?;
            Err(CdrFault {
                at: input.position(),
                ..fault
            })
        }
        _ => Err(fault),
    }
}
