//! The labels of a union (CORBA 3.3 Part 2, 9.3.2.3): whether each is a value of the discriminant,
//! and whether two are equal.
ghost use Rattle.std.specs.Prelude.{◌≡◌, ◌≢◌, ◌↔◌, map, false, IfSome};
ghost use Rattle.std.specs.List.{list_all, AllPairs};
ghost use Rattle.std.specs.Ordering.{int_eq};
ghost use Rattle.giop_types.specs.Coding.Decoding.{is_label};
ghost use Rattle.giop_types.specs.Descriptions.Checked.{is_between, is_label_of, is_ordinal, all_labels, has_doubled, is_repeated};
ghost use Rattle.giop_types.specs.Values.Views.{desc_view, case_view, branches_of};

use crate::codec::reading::has_label;
use crate::description::desc::{CaseDesc, Desc};
use std::alloc::Global;
use std::collections::BTreeSet;

/// Whether a label is from the first number to the last.
pub fn is_between(first: &i128, last: &i128, label: &i128) -> bool
    ensures { result ≡ is_between first.now last.now label.now }
{
    first <= label && label <= last
}

/// Whether a label is the ordinal of one of so many names.
pub fn is_ordinal(names: usize, label: &i128) -> bool
    ensures { result ≡ is_ordinal names label.now }
{
    0 <= *label && *label < names as i128
}

/// Whether a label is a value of a discriminant.
pub fn is_label_of(disc: &Desc, label: &i128) -> bool
    ensures { result ≡ is_label_of (desc_view disc.now) label.now }
{
    match disc {
        Desc::Boolean => is_between(&0, &1, label),
        Desc::Char => is_between(&0, &0xff, label),
        Desc::Short => is_between(&-0x8000, &0x7fff, label),
        Desc::UShort => is_between(&0, &0xffff, label),
        Desc::Long => is_between(&-0x8000_0000, &0x7fff_ffff, label),
        Desc::ULong => is_between(&0, &0xffff_ffff, label),
        Desc::LongLong => is_between(&-0x8000_0000_0000_0000, &0x7fff_ffff_ffff_ffff, label),
        Desc::ULongLong => is_between(&0, &0xffff_ffff_ffff_ffff, label),
        Desc::Labels(names) => is_ordinal(names.len(), label),
        _ => false,
    }
}

// Whether each of the labels is a value of a discriminant.
fn are_labels_of(disc: &Desc, labels: &[i128]) -> bool
    ensures { result ≡ list_all (is_label_of (desc_view disc.now)) labels.now }
{
    for label in labels {
        if !is_label_of(disc, label) {
            return false;
        }
    }
    true
}

/// Whether each label of a union's cases is a value of its discriminant.
pub fn are_cases_of(disc: &Desc, cases: &[CaseDesc]) -> bool
    ensures { result ≡ list_all (is_label_of (desc_view disc.now))
        (all_labels (branches_of (map case_view cases.now))) }
{
    for case in cases {
        if !are_labels_of(disc, &case.labels) {
            return false;
        }
    }
    true
}

// Whether a case has this label.
fn has_case_of(cases: &[CaseDesc], label: &i128) -> bool
    ensures { result ≡ is_label label.now (all_labels (branches_of (map case_view cases.now))) }
{
    for case in cases {
        if has_label(&case.labels, label) {
            return true;
        }
    }
    false
}

// Whether a label is there again, later among those of its case or among those of a later case.
fn is_repeated(labels: &[i128], later: &[CaseDesc]) -> bool
    ensures { result ≡ is_repeated int_eq labels.now
        (all_labels (branches_of (map case_view later.now))) }
{
    for (i, label) in labels.iter().enumerate() {
        if has_label(&labels[i + 1..], label) || has_case_of(later, label) {
            return true;
        }
    }
    false
}

/// Whether two labels of a union are equal. It takes memory for the labels, and then as much time
/// as there are of them, but for a logarithm. Where memory is refused it returns the same, but its
/// time grows with the square of their number.
pub fn has_doubled_label(alloc: Global, cases: &[CaseDesc]) -> bool
    ensures value { result
        ≡ has_doubled int_eq (all_labels (branches_of (map case_view cases.now))) }
    ensures apart { (result ≡ false)
        ↔ AllPairs (λ one other. one ≢ other) (all_labels (branches_of (map case_view cases.now))) }
{
    match is_doubled_in_order(alloc, cases) {
        Some(doubled) => doubled,
        None => is_doubled_in_pairs(cases),
    }
}

// The same, by the labels so far in their order. None where memory is refused.
fn is_doubled_in_order(alloc: Global, cases: &[CaseDesc]) -> Option<bool>
    ensures { IfSome result (λ doubled.
        doubled ≡ has_doubled int_eq (all_labels (branches_of (map case_view cases.now)))) }
{
    let mut labels = Vec::new(alloc);
    for case in cases {
        if labels.extend_from_slice(&case.labels).is_err() {
            return None;
        }
    }
    has_doubled_number(alloc, &labels)
}

// Whether two of the numbers are equal. None where memory is refused.
fn has_doubled_number(alloc: Global, numbers: &[i128]) -> Option<bool>
    ensures { IfSome result (λ doubled. doubled ≡ has_doubled int_eq numbers.now) }
{
    let mut seen = BTreeSet::new(alloc);
    for number in numbers {
        match seen.insert(number) {
            Ok(true) => {}
            Ok(false) => return Some(true),
            Err(_) => return None,
        }
    }
    Some(false)
}

// Whether two labels are equal, by all pairs. It takes no memory.
fn is_doubled_in_pairs(cases: &[CaseDesc]) -> bool
    ensures value { result
        ≡ has_doubled int_eq (all_labels (branches_of (map case_view cases.now))) }
    ensures apart { (result ≡ false)
        ↔ AllPairs (λ one other. one ≢ other) (all_labels (branches_of (map case_view cases.now))) }
{
    for (i, case) in cases.iter().enumerate() {
        if is_repeated(&case.labels, &cases[i + 1..]) {
            return true;
        }
    }
    false
}
