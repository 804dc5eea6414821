//! Passing over a value without memory. It refuses what build.rt refuses for its octets, at the
//! same places, so change them together.
ghost use Rattle.std.specs.Prelude.{map};
ghost use Rattle.giop_cdr.specs.Reading.Values.{items_at};
ghost use Rattle.giop_cdr.specs.Reading.Outcome.{Skips};
ghost use Rattle.giop_types.specs.Coding.Decoding.{decode_at, fields_at, branches_at};
ghost use Rattle.giop_types.specs.Descriptions.Shape.{items, row};
ghost use Rattle.giop_types.specs.Coding.Outcome.{SkipsCase};
ghost use Rattle.giop_types.specs.Values.Views.{desc_view, named_view, case_view, fallback_view, fields_of, branches_of};

use crate::codec::leaf::skip_leaf;
use crate::codec::reading::{has_label, read_label, row_length};
use crate::description::desc::{CaseDesc, Desc, NamedDesc};
use giop_cdr::{CdrFault, CdrIn, Octets};

/// Passes over a value of a description.
#[cycle(skip)]
#[tactic(auto, unfolding(crate::specs::Coding::Decoding::decode_at))]
pub fn skip<S: Octets>(desc: &Desc, input: &mut CdrIn<S>) -> Result<(), CdrFault>
    ensures { Skips result input.new (decode_at (desc_view desc.now) input.old) }
{
    match desc {
        Desc::Members(members) => skip_members(members, input),
        Desc::Choice {
            disc,
            cases,
            fallback,
        } => {
            let label = read_label(disc, input)?;
            if !skip_case(&label, cases, input)? {
                skip_fallback(fallback, input)?;
            }
            Ok(())
        }
        Desc::Items(item, bound) => skip_items(item, *bound, input),
        Desc::Row(item, n) => skip_row(item, *n, input),
        _ => skip_leaf(desc, input),
    }
}

#[cycle(skip)]
fn skip_members<S: Octets>(members: &[NamedDesc], input: &mut CdrIn<S>) -> Result<(), CdrFault>
    ensures { Skips result input.new
        (fields_at (fields_of (map named_view members.now)) input.old) }
{
    for member in members {
        skip(&member.desc, input)?;
    }
    Ok(())
}

// Passes over the member that the label selects by a case. Returns whether a case has the label.
#[cycle(skip)]
fn skip_case<S: Octets>(
    label: &i128,
    cases: &[CaseDesc],
    input: &mut CdrIn<S>,
) -> Result<bool, CdrFault>
    ensures { (other : _) → SkipsCase result input.old input.new
        (branches_at (branches_of (map case_view cases.now)) other label.now input.old)
        (other input.old) }
{
    for case in cases {
        if has_label(&case.labels, label) {
            skip(&case.desc, input)?;
            return Ok(true);
        }
    }
    Ok(false)
}

// Passes over the member that is there by default, where there is one.
#[cycle(skip)]
fn skip_fallback<S: Octets>(
    fallback: &Option<Box<NamedDesc>>,
    input: &mut CdrIn<S>,
) -> Result<(), CdrFault>
    ensures { Skips result input.new (fields_at (fallback_view fallback.now) input.old) }
{
    match fallback {
        Some(member) => skip(&member.desc, input),
        None => Ok(()),
    }
}

#[cycle(skip)]
#[tactic(auto, unfolding(crate::specs::Coding::Decoding::decode_at, crate::specs::Coding::Decoding::bounded_at, giop_cdr::specs::Reading::Values::octet_count_at))]
fn skip_items<S: Octets>(item: &Desc, bound: u32, input: &mut CdrIn<S>) -> Result<(), CdrFault>
    ensures { Skips result input.new (decode_at (items (desc_view item.now) bound) input.old) }
{
    let count = input.read_bounded_count(bound)?;
    skip_counted(item, count, input)
}

#[cycle(skip)]
#[tactic(auto, unfolding(crate::specs::Coding::Decoding::decode_at, crate::specs::Coding::Decoding::row_at))]
fn skip_row<S: Octets>(item: &Desc, n: u32, input: &mut CdrIn<S>) -> Result<(), CdrFault>
    ensures { Skips result input.new (decode_at (row (desc_view item.now) n) input.old) }
{
    let count = row_length(n, input)?;
    skip_counted(item, count, input)
}

#[cycle(skip)]
fn skip_counted<S: Octets>(item: &Desc, count: usize, input: &mut CdrIn<S>) -> Result<(), CdrFault>
    ensures { Skips result input.new (items_at (decode_at (desc_view item.now)) count input.old) }
{
    for _ in 0..count {
        skip(item, input)?;
    }
    Ok(())
}
