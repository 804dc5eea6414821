//! The names of enums, structs and unions: whether two are the same, octet for octet.
ghost use Rattle.std.specs.Prelude.{◌≡◌, ◌≢◌, ◌↔◌, ◌++◌, map, false};
ghost use Rattle.std.specs.List.{AllPairs};
ghost use Rattle.giop_types.specs.Descriptions.Checked.{has_doubled, same_name, field_names, branch_names};
ghost use Rattle.giop_types.specs.Values.Views.{named_view, case_view, fallback_view, fields_of, branches_of};

use crate::description::desc::{CaseDesc, NamedDesc};
use crate::description::named::{Named, has_name, is_any_doubled};
use giop_cdr::OctetList;
use std::alloc::Global;

impl Named for NamedDesc {
    ghost name_of = { λ member. member.name };

    fn name(&self) -> &OctetList {
        &self.name
    }
}

impl Named for CaseDesc {
    ghost name_of = { λ case. case.name };

    fn name(&self) -> &OctetList {
        &self.name
    }
}

/// Whether two of the names are the same.
pub fn has_doubled_name(alloc: Global, names: &[OctetList]) -> bool
    ensures value { result ≡ has_doubled same_name names.now }
    ensures apart { (result ≡ false) ↔ AllPairs (λ one other. one ≢ other) names.now }
{
    is_any_doubled(alloc, names)
}

/// Whether two members of a struct have the same name.
pub fn has_doubled_member(alloc: Global, members: &[NamedDesc]) -> bool
    ensures { result ≡ has_doubled same_name
        (field_names (fields_of (map named_view members.now))) }
{
    is_any_doubled(alloc, members)
}

/// Whether two members of a union have the same name, among its cases and its default.
pub fn has_doubled_choice(
    alloc: Global,
    cases: &[CaseDesc],
    fallback: &Option<Box<NamedDesc>>,
) -> bool
    ensures { result ≡ has_doubled same_name
        (field_names (fallback_view fallback.now)
        ++ branch_names (branches_of (map case_view cases.now))) }
{
    match fallback {
        Some(member) => has_name(cases, &member.name) || is_any_doubled(alloc, cases),
        None => is_any_doubled(alloc, cases),
    }
}
