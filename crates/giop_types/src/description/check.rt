//! Whether a description describes a type of IDL: the first node, in reading order, that doesn't.
//! The faults and their order are specs/Descriptions/Checked.antt.
ghost use Rattle.std.specs.Prelude.{◌≡◌, map};
ghost use Rattle.giop_types.specs.Descriptions.Full.{is_discriminant};
ghost use Rattle.giop_types.specs.Descriptions.Checked.{has_bare_branch, is_empty, has_bad_discriminant, has_doubles, own_fault, desc_fault, fields_fault, branches_fault, Tells};
ghost use Rattle.giop_types.specs.Values.Views.{desc_view, named_view, case_view, fallback_view, fields_of, branches_of};

use crate::description::desc::{CaseDesc, Desc, NamedDesc};
use crate::description::desc_fault::DescFault;
use crate::description::label_check::{are_cases_of, has_doubled_label};
use crate::description::name_check::{has_doubled_choice, has_doubled_member, has_doubled_name};

// How deep a description may be nested, where the outermost one is 1 deep. Docstrings and the pages
// of docs/ give this number too.
const DEEPEST: u32 = 32;

// Whether a case has no label.
fn has_bare_case(cases: &[CaseDesc]) -> bool
    ensures { result ≡ has_bare_branch (branches_of (map case_view cases.now)) }
{
    for case in cases {
        if case.labels.is_empty() {
            return true;
        }
    }
    false
}

// Whether a part that a node must have is missing.
fn is_empty(desc: &Desc) -> bool
    ensures { result ≡ is_empty (desc_view desc.now) }
{
    match desc {
        Desc::Labels(names) => names.is_empty(),
        Desc::Members(members) => members.is_empty(),
        Desc::Choice { cases, .. } => cases.is_empty() || has_bare_case(cases),
        Desc::Row(_, n) => *n == 0,
        _ => false,
    }
}

// Whether a discriminant can be of this type.
fn is_discriminant(disc: &Desc) -> bool
    ensures { result ≡ is_discriminant (desc_view disc.now) }
{
    matches!(
        disc,
        Desc::Boolean
            | Desc::Char
            | Desc::Short
            | Desc::UShort
            | Desc::Long
            | Desc::ULong
            | Desc::LongLong
            | Desc::ULongLong
            | Desc::Labels(_)
    )
}

// Whether a union's discriminant is of a type that none may have, or a label is none of its values.
fn has_bad_discriminant(desc: &Desc) -> bool
    ensures { result ≡ has_bad_discriminant (desc_view desc.now) }
{
    match desc {
        Desc::Choice { disc, cases, .. } => !(is_discriminant(disc) && are_cases_of(disc, cases)),
        _ => false,
    }
}

// Whether two names of a node, or two labels of it, are the same.
fn has_doubles(desc: &Desc) -> bool
    ensures { result ≡ has_doubles (desc_view desc.now) }
{
    match desc {
        Desc::Labels(names) => has_doubled_name(*names.allocator(), names),
        Desc::Members(members) => has_doubled_member(*members.allocator(), members),
        Desc::Choice {
            cases,
            fallback,
            ..
        } => {
            let alloc = *cases.allocator();
            has_doubled_choice(alloc, cases, fallback) || has_doubled_label(alloc, cases)
        }
        _ => false,
    }
}

// Checks one node, wherever it stands.
fn check_own(desc: &Desc) -> Result<(), DescFault>
    ensures { Tells result (own_fault (desc_view desc.now)) }
{
    if is_empty(desc) {
        return Err(DescFault::Empty);
    }
    if has_bad_discriminant(desc) {
        return Err(DescFault::BadDiscriminant);
    }
    if has_doubles(desc) {
        return Err(DescFault::Doubled);
    }
    Ok(())
}

/// Checks a description whose first node is at this depth. Refused with the fault of the first node
/// in reading order that has one. What is too deep is not looked into.
#[cycle(check)]
#[tactic(auto, unfolding(crate::specs::Descriptions::Checked::desc_fault))]
pub fn check_desc(desc: &Desc, depth: u32) -> Result<(), DescFault>
    ensures { Tells result (desc_fault depth (desc_view desc.now)) }
{
    if depth > DEEPEST {
        return Err(DescFault::TooDeep);
    }
    check_own(desc)?;
    match desc {
        Desc::Members(members) => check_members(members, depth + 1),
        Desc::Choice {
            disc,
            cases,
            fallback,
        } => {
            check_desc(disc, depth + 1)?;
            check_cases(cases, depth + 1)?;
            check_fallback(fallback, depth + 1)
        }
        Desc::Items(item, _) => check_desc(item, depth + 1),
        Desc::Row(item, _) => check_desc(item, depth + 1),
        _ => Ok(()),
    }
}

#[cycle(check)]
fn check_members(members: &[NamedDesc], depth: u32) -> Result<(), DescFault>
    ensures { Tells result (fields_fault depth (fields_of (map named_view members.now))) }
{
    for member in members {
        check_desc(&member.desc, depth)?;
    }
    Ok(())
}

#[cycle(check)]
fn check_cases(cases: &[CaseDesc], depth: u32) -> Result<(), DescFault>
    ensures { Tells result (branches_fault depth (branches_of (map case_view cases.now))) }
{
    for case in cases {
        check_desc(&case.desc, depth)?;
    }
    Ok(())
}

// Checks the member that is there by default, where there is one.
#[cycle(check)]
#[tactic(auto, unfolding(crate::specs::Descriptions::Checked::desc_fault))]
fn check_fallback(fallback: &Option<Box<NamedDesc>>, depth: u32) -> Result<(), DescFault>
    ensures { Tells result (fields_fault depth (fallback_view fallback.now)) }
{
    match fallback {
        Some(member) => check_desc(&member.desc, depth),
        None => Ok(()),
    }
}
