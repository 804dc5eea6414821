//! Reading a value in one pass, as long as memory is there. The value and the fault are
//! specs/Coding/Decoding.antt; skip.rt refuses the same octets without memory, so change them
//! together.
ghost use Rattle.std.specs.Prelude.{◌≡◌, ◌≤◌, true, length, map};
ghost use Rattle.giop_cdr.specs.Reading.Values.{items_at};
ghost use Rattle.giop_cdr.specs.Reading.Outcome.{Follows};
ghost use Rattle.giop_types.specs.Coding.Decoding.{decode_at, fields_at, branches_at, bounded_at, row_at};
ghost use Rattle.giop_types.specs.Descriptions.Shape.{is_primitive};
ghost use Rattle.giop_types.specs.Coding.Outcome.{FollowsCase, MakesChoice, one_or_none};
ghost use Rattle.giop_types.specs.Values.Views.{desc_view, named_view, case_view, fallback_view, value_view, fields_of, branches_of};

use crate::codec::leaf::{build_leaf, is_primitive, read_primitive};
use crate::codec::reading::{has_label, read_label, row_length};
use crate::codec::value_memory::ValueMemory;
use crate::description::desc::{CaseDesc, Desc, NamedDesc};
use crate::value::Value;
use giop_cdr::{CdrFault, CdrIn, CdrKind, Octets};

/// Reads a value of a description, one part after the other.
#[cycle(build)]
#[tactic(auto, unfolding(crate::specs::Coding::Decoding::decode_at))]
pub fn build<S: Octets>(
    memory: ValueMemory,
    desc: &Desc,
    input: &mut CdrIn<S>,
) -> Result<Value, CdrFault>
    ensures { Follows value_view result input.new (decode_at (desc_view desc.now) input.old) }
{
    match desc {
        Desc::Members(members) => Ok(Value::Members(build_members(memory, members, input)?)),
        Desc::Choice {
            disc,
            cases,
            fallback,
        } => {
            let label = read_label(disc, input)?;
            if let Some(member) = build_case(memory, &label, cases, input)? {
                return choice(memory, &label, Some(member), input);
            }
            let member = build_fallback(memory, fallback, input)?;
            choice(memory, &label, member, input)
        }
        Desc::Items(item, bound) => Ok(Value::Items(build_items(memory, item, *bound, input)?)),
        Desc::Row(item, n) => Ok(Value::Row(build_row(memory, item, *n, input)?)),
        _ => build_leaf(memory, desc, input),
    }
}

/// Reads a value as `build` does. A number, a char or a boolean is read without a call.
#[cycle(build)]
#[inline(always)]
pub fn build_part<S: Octets>(
    memory: ValueMemory,
    desc: &Desc,
    input: &mut CdrIn<S>,
) -> Result<Value, CdrFault>
    ensures { Follows value_view result input.new (decode_at (desc_view desc.now) input.old) }
{
    if is_primitive(desc) {
        return read_primitive(desc, input);
    }
    build(memory, desc, input)
}

// Out of memory, reported where the reader is.
fn wanting<S: Octets>(input: &CdrIn<S>) -> CdrFault
    ensures { result.kind ≡ CdrKind.NoMemory }
{
    CdrFault {
        at: input.position(),
        kind: CdrKind::NoMemory,
    }
}

// A union's value: its discriminant, and its member where it has one.
#[tactic(auto, using(crate::proofs::Values::ViewLemmas::chosen_view, crate::proofs::Values::ViewLemmas::bare_view))]
fn choice<S: Octets>(
    memory: ValueMemory,
    label: &i128,
    member: Option<Value>,
    input: &CdrIn<S>,
) -> Result<Value, CdrFault>
    ensures { MakesChoice label.now (one_or_none member) result }
{
    let Some(member) = member else {
        return Ok(Value::Choice {
            disc: *label,
            member: None,
        });
    };
    match memory.in_box(member) {
        Ok(member) => Ok(Value::Choice {
            disc: *label,
            member: Some(member),
        }),
        Err(_) => Err(wanting(input)),
    }
}

// The values of the members of a struct.
#[cycle(build)]
fn build_members<S: Octets>(
    memory: ValueMemory,
    members: &[NamedDesc],
    input: &mut CdrIn<S>,
) -> Result<Vec<Value>, CdrFault>
    ensures { Follows (λ values. map value_view values.items) result input.new
        (fields_at (fields_of (map named_view members.now)) input.old) }
{
    let wanting = wanting(input);
    let Ok(mut values) = memory.begin_members(members) else {
        return Err(wanting);
    };
    for member in members {
        let value = build_part(memory, &member.desc, input)?;
        if values.push(value).is_err() {
            return Err(wanting);
        }
    }
    Ok(values.into_vec())
}

// The value of the member that the label selects by a case, where one does.
#[cycle(build)]
fn build_case<S: Octets>(
    memory: ValueMemory,
    label: &i128,
    cases: &[CaseDesc],
    input: &mut CdrIn<S>,
) -> Result<Option<Value>, CdrFault>
    ensures { (other : _) → FollowsCase result input.old input.new
        (branches_at (branches_of (map case_view cases.now)) other label.now input.old)
        (other input.old) }
{
    for case in cases {
        if has_label(&case.labels, label) {
            let value = build(memory, &case.desc, input)?;
            return Ok(Some(value));
        }
    }
    Ok(None)
}

// The value of the member that is there by default, where there is one.
#[cycle(build)]
fn build_fallback<S: Octets>(
    memory: ValueMemory,
    fallback: &Option<Box<NamedDesc>>,
    input: &mut CdrIn<S>,
) -> Result<Option<Value>, CdrFault>
    ensures { Follows one_or_none result input.new
        (fields_at (fallback_view fallback.now) input.old) }
{
    match fallback {
        Some(member) => Ok(Some(build(memory, &member.desc, input)?)),
        None => Ok(None),
    }
}

#[cycle(build)]
#[tactic(auto, unfolding(crate::specs::Coding::Decoding::bounded_at, giop_cdr::specs::Reading::Values::octet_count_at))]
fn build_items<S: Octets>(
    memory: ValueMemory,
    item: &Desc,
    bound: u32,
    input: &mut CdrIn<S>,
) -> Result<Vec<Value>, CdrFault>
    ensures { Follows (λ values. map value_view values.items) result input.new
        (bounded_at (decode_at (desc_view item.now)) bound input.old) }
{
    let count = input.read_bounded_count(bound)?;
    build_counted(memory, item, count, input)
}

#[cycle(build)]
#[tactic(auto, unfolding(crate::specs::Coding::Decoding::row_at))]
fn build_row<S: Octets>(
    memory: ValueMemory,
    item: &Desc,
    n: u32,
    input: &mut CdrIn<S>,
) -> Result<Vec<Value>, CdrFault>
    ensures { Follows (λ values. map value_view values.items) result input.new
        (row_at (decode_at (desc_view item.now)) n input.old) }
{
    let count = row_length(n, input)?;
    build_counted(memory, item, count, input)
}

// Reads `count` numbers, chars or booleans, without a call for each.
fn build_primitives<S: Octets>(
    memory: ValueMemory,
    item: &Desc,
    count: usize,
    input: &mut CdrIn<S>,
) -> Result<Vec<Value>, CdrFault>
    requires primitive { is_primitive (desc_view item.now) ≡ true }
    requires left { count ≤ length input.old.rest }
    ensures { Follows (λ values. map value_view values.items) result input.new
        (items_at (decode_at (desc_view item.now)) count input.old) }
{
    let wanting = wanting(input);
    let Ok(mut values) = memory.begin(count, input) else {
        return Err(wanting);
    };
    for _ in 0..count {
        let value = read_primitive(item, input)?;
        if values.push(value).is_err() {
            return Err(wanting);
        }
    }
    Ok(values.into_vec())
}

// Reads `count` values of one description.
#[cycle(build)]
fn build_counted<S: Octets>(
    memory: ValueMemory,
    item: &Desc,
    count: usize,
    input: &mut CdrIn<S>,
) -> Result<Vec<Value>, CdrFault>
    requires { count ≤ length input.old.rest }
    ensures { Follows (λ values. map value_view values.items) result input.new
        (items_at (decode_at (desc_view item.now)) count input.old) }
{
    if is_primitive(item) {
        return build_primitives(memory, item, count, input);
    }
    let wanting = wanting(input);
    let Ok(mut values) = memory.begin(count, input) else {
        return Err(wanting);
    };
    for _ in 0..count {
        let value = build(memory, item, input)?;
        if values.push(value).is_err() {
            return Err(wanting);
        }
    }
    Ok(values.into_vec())
}
