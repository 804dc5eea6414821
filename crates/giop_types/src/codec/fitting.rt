//! Whether a value is of a description, and so can be written. The meaning is
//! specs/Values/Fits.antt; append.rt refuses what doesn't fit as it writes, so change them
//! together.
ghost use Rattle.std.specs.Prelude.{◌≡◌, map, unwrap_or};
ghost use Rattle.std.specs.List.{list_all};
ghost use Rattle.giop_types.specs.Descriptions.CheckedShape.{checked_shape};
ghost use Rattle.giop_types.specs.Values.Fits.{fits, fields_fit, branches_fit, fits_label, is_counted, is_octets_of, is_text_of};
ghost use Rattle.giop_types.specs.Values.Views.{desc_view, named_view, case_view, fallback_view, value_view, member_view, fields_of, branches_of};

use crate::codec::reading::has_label;
use crate::description::checked_desc::CheckedDesc;
use crate::description::desc::{CaseDesc, Desc, NamedDesc};
use crate::description::label_check::{is_label_of, is_ordinal};
use crate::value::Value;
use giop_cdr::passes;

/// Whether a value is of this description (9.3.2), and so can be written. Its variants are those of
/// the description. Its numbers, ordinals and discriminants are in range. Texts and sequences are
/// no longer than their bounds (0 is none), and short enough for their counts. No null is in a
/// text. A struct has as many values as members, and an array as many as it says. A union has a
/// member exactly where its label selects one, or a default is there.
///
/// It takes no memory. Its time grows with the value, and for each union with its labels.
pub fn fits(desc: &CheckedDesc, value: &Value) -> bool
    ensures { result ≡ fits (checked_shape desc.now) (value_view value.now) }
{
    value_fits(desc.desc(), value)
}

/// Whether a count fits an unsigned long and is within the bound, where 0 is none.
pub fn is_counted(bound: u32, count: usize) -> bool
    ensures { result ≡ is_counted bound count }
{
    count < 1 << 32 && !passes(bound, count)
}

/// Whether octets are a sequence within the bound, where 0 is none.
pub fn is_octets_of(bound: u32, octets: &[u8]) -> bool
    ensures { result ≡ is_octets_of bound octets.now }
{
    is_counted(bound, octets.len())
}

/// Whether octets are a text within the bound, whose null can be counted too, and which has none
/// inside.
pub fn is_text_of(bound: u32, text: &[u8]) -> bool
    ensures { result ≡ is_text_of bound text.now }
{
    if text.contains(&0) {
        return false;
    }
    text.len() < (1 << 32) - 1 && is_counted(bound, text.len())
}

/// Whether a number is a value of a discriminant.
pub fn fits_label(disc: &Desc, label: &i128) -> bool
    ensures { result ≡ fits_label (desc_view disc.now) label.now }
{
    match disc {
        Desc::Labels(names) => is_ordinal(names.len().min(1 << 32), label),
        _ => is_label_of(disc, label),
    }
}

/// Whether a value is of a description. A number needs no test: its type keeps it in range, which
/// the proof knows of each number that is read here.
#[cycle(fitting)]
#[tactic(auto, unfolding(crate::specs::Values::Fits::fits))]
pub fn value_fits(desc: &Desc, value: &Value) -> bool
    ensures { result ≡ fits (desc_view desc.now) (value_view value.now) }
{
    match (desc, value) {
        (Desc::Boolean, Value::Boolean(_)) => true,
        (Desc::Octet, &Value::Octet(_in_range)) => true,
        (Desc::Char, &Value::Char(_in_range)) => true,
        (Desc::Short, &Value::Short(_in_range)) => true,
        (Desc::UShort, &Value::UShort(_in_range)) => true,
        (Desc::Long, &Value::Long(_in_range)) => true,
        (Desc::ULong, &Value::ULong(_in_range)) => true,
        (Desc::LongLong, &Value::LongLong(_in_range)) => true,
        (Desc::ULongLong, &Value::ULongLong(_in_range)) => true,
        (Desc::Text(bound), Value::Text(text)) => is_text_of(*bound, text.as_slice()),
        (Desc::Octets(bound), Value::Octets(octets)) => is_octets_of(*bound, octets.as_slice()),
        (Desc::Labels(names), Value::Label(ordinal)) => (*ordinal as usize) < names.len(),
        (Desc::Members(members), Value::Members(values)) => members_fit(members, values),
        (
            Desc::Choice {
                disc,
                cases,
                fallback,
            },
            Value::Choice {
                disc: label,
                member,
            },
        ) => {
            if !fits_label(disc, label) {
                return false;
            }
            match case_fits(label, cases, member) {
                Some(fits) => fits,
                None => default_fits(fallback, member),
            }
        }
        (Desc::Items(item, bound), Value::Items(values)) => {
            is_counted(*bound, values.len()) && each_fits(item, values)
        }
        (Desc::Row(item, n), Value::Row(values)) => {
            values.len() == *n as usize && each_fits(item, values)
        }
        _ => false,
    }
}

// Whether there are as many values as members, each of its member's description.
#[cycle(fitting)]
fn members_fit(members: &[NamedDesc], values: &[Value]) -> bool
    ensures { result
        ≡ fields_fit (fields_of (map named_view members.now)) (map value_view values.now) }
{
    if members.len() != values.len() {
        return false;
    }
    for i in 0..members.len() {
        if !value_fits(&members[i].desc, &values[i]) {
            return false;
        }
    }
    true
}

// Whether each value is of a description.
#[cycle(fitting)]
fn each_fits(item: &Desc, values: &[Value]) -> bool
    ensures { result ≡ list_all (fits (desc_view item.now)) (map value_view values.now) }
{
    for value in values {
        if !value_fits(item, value) {
            return false;
        }
    }
    true
}

// Whether a union's member is of the description of the case that has the label, where one has it.
#[cycle(fitting)]
fn case_fits(label: &i128, cases: &[CaseDesc], member: &Option<Box<Value>>) -> Option<bool>
    ensures { (other : _)
        → branches_fit (branches_of (map case_view cases.now)) other label.now
        (member_view member.now)
        ≡ unwrap_or result (other (member_view member.now)) }
{
    for case in cases {
        if has_label(&case.labels, label) {
            return match member {
                Some(value) => Some(value_fits(&case.desc, value)),
                None => Some(false),
            };
        }
    }
    None
}

// Whether a union's member is of the description by default, or neither is there.
#[cycle(fitting)]
fn default_fits(fallback: &Option<Box<NamedDesc>>, member: &Option<Box<Value>>) -> bool
    ensures { result ≡ fields_fit (fallback_view fallback.now) (member_view member.now) }
{
    match fallback {
        Some(named) => match member {
            Some(value) => value_fits(&named.desc, value),
            None => false,
        },
        None => member.is_none(),
    }
}
