//! Writing a value in one pass, as far as it fits and memory is there: `encode` without its
//! checkpoint. The octets are specs/Coding/Written.antt, and what fits is specs/Values/Fits.antt. A
//! new kind of value takes a case in both.
ghost use Rattle.std.specs.Prelude.{◌≡◌, ◌==◌, ◌&&◌, true, nat_lt, length, map, is_some, MatchOption};
ghost use Rattle.std.specs.List.{list_all};
ghost use Rattle.std.specs.Int.{w32};
ghost use Rattle.giop_cdr.specs.Writing.Output.{number_out, octets_out, string_out, items_out, sequence_out};
ghost use Rattle.giop_cdr.specs.Writing.Outcome.{Writes};
ghost use Rattle.giop_types.specs.Coding.Encoding.{AppendsFitting, AppendsCase};
ghost use Rattle.giop_types.specs.Descriptions.Shape.{is_primitive, is_leaf};
ghost use Rattle.giop_types.specs.Values.Fits.{fits, fields_fit, branches_fit, fits_label, is_unsigned, is_counted, is_octets_of, is_text_of};
ghost use Rattle.giop_types.specs.Values.Views.{desc_view, named_view, case_view, fallback_view, value_view, member_view, fields_of, branches_of};
ghost use Rattle.giop_types.specs.Coding.Written.{value_out, fields_out, branches_out, label_out};

use crate::codec::fitting::{fits_label, is_counted, is_octets_of, is_text_of};
use crate::codec::leaf::is_primitive;
use crate::codec::reading::has_label;
use crate::description::desc::{CaseDesc, Desc, NamedDesc};
use crate::value::Value;
use giop_cdr::{CdrOut, EncodeFault};
use std::alloc::AllocError;

/// Appends a value. Where it doesn't fit, or out of memory, a part of it may be left.
#[cycle(append)]
#[tactic(auto, unfolding(crate::specs::Values::Fits::fits, crate::specs::Coding::Written::value_out))]
pub fn append(out: &mut CdrOut, desc: &Desc, value: &Value) -> Result<(), EncodeFault>
    ensures { AppendsFitting (fits (desc_view desc.now) (value_view value.now))
        out.old result out.new (value_out (desc_view desc.now) (value_view value.now) out.old) }
{
    match desc {
        Desc::Members(members) => match value {
            Value::Members(values) => append_members(out, members, values),
            _ => Err(EncodeFault::Unfit),
        },
        Desc::Choice {
            disc,
            cases,
            fallback,
        } => match value {
            Value::Choice {
                disc: label,
                member,
            } => {
                append_label(out, disc, label)?;
                if append_case(out, label, cases, member)? {
                    return Ok(());
                }
                append_default(out, fallback, member)
            }
            _ => Err(EncodeFault::Unfit),
        },
        Desc::Items(item, bound) => match value {
            Value::Items(values) => append_items(out, item, *bound, values),
            _ => Err(EncodeFault::Unfit),
        },
        Desc::Row(item, n) => match value {
            Value::Row(values) => append_row(out, item, *n, values),
            _ => Err(EncodeFault::Unfit),
        },
        _ => append_leaf(out, desc, value),
    }
}

// A value that holds no other value.
#[tactic(auto, unfolding(crate::specs::Values::Fits::fits, crate::specs::Coding::Written::value_out))]
fn append_leaf(out: &mut CdrOut, desc: &Desc, value: &Value) -> Result<(), EncodeFault>
    requires { is_leaf (desc_view desc.now) ≡ true }
    ensures { AppendsFitting (fits (desc_view desc.now) (value_view value.now))
        out.old result out.new (value_out (desc_view desc.now) (value_view value.now) out.old) }
{
    match desc {
        Desc::Text(bound) => match value {
            Value::Text(text) => append_text(out, *bound, text.as_slice()),
            _ => Err(EncodeFault::Unfit),
        },
        Desc::Octets(bound) => match value {
            Value::Octets(octets) => append_octets(out, *bound, octets.as_slice()),
            _ => Err(EncodeFault::Unfit),
        },
        Desc::Labels(names) => match value {
            Value::Label(ordinal) => append_ordinal(out, names.len(), *ordinal),
            _ => Err(EncodeFault::Unfit),
        },
        _ => append_primitive(out, desc, value),
    }
}

// A number, a char or a boolean.
#[inline(always)]
fn append_primitive(out: &mut CdrOut, desc: &Desc, value: &Value) -> Result<(), EncodeFault>
    requires { is_primitive (desc_view desc.now) ≡ true }
    ensures { AppendsFitting (fits (desc_view desc.now) (value_view value.now))
        out.old result out.new (value_out (desc_view desc.now) (value_view value.now) out.old) }
{
    match write_primitive(out, desc, value) {
        Some(written) => Ok(written?),
        None => Err(EncodeFault::Unfit),
    }
}

// Writes a number, a char or a boolean. Returns none where it doesn't fit, and nothing is written.
#[inline(always)]
#[tactic(auto, unfolding(crate::specs::Values::Fits::fits, crate::specs::Coding::Written::value_out))]
fn write_primitive(out: &mut CdrOut, desc: &Desc, value: &Value) -> Option<Result<(), AllocError>>
    requires { is_primitive (desc_view desc.now) ≡ true }
    ensures fitting { is_some result ≡ fits (desc_view desc.now) (value_view value.now) }
    ensures written { MatchOption result (out.new ≡ out.old) (λ written. Writes out.old written
        out.new (value_out (desc_view desc.now) (value_view value.now) out.old)) }
{
    match (desc, value) {
        (Desc::Boolean, Value::Boolean(boolean)) => Some(out.write_boolean(*boolean)),
        (Desc::Octet, Value::Octet(number)) => Some(out.write_octet(*number)),
        (Desc::Char, Value::Char(octet)) => Some(out.write_char(*octet)),
        (Desc::Short, Value::Short(number)) => Some(out.write_short(*number)),
        (Desc::UShort, Value::UShort(number)) => Some(out.write_ushort(*number)),
        (Desc::Long, Value::Long(number)) => Some(out.write_long(*number)),
        (Desc::ULong, Value::ULong(number)) => Some(out.write_ulong(*number)),
        (Desc::LongLong, Value::LongLong(number)) => Some(out.write_longlong(*number)),
        (Desc::ULongLong, Value::ULongLong(number)) => Some(out.write_ulonglong(*number)),
        _ => None,
    }
}

// Numbers, chars or booleans one after the other, without a call for each.
fn append_primitives(out: &mut CdrOut, item: &Desc, values: &[Value]) -> Result<(), EncodeFault>
    requires { is_primitive (desc_view item.now) ≡ true }
    ensures { AppendsFitting (list_all (fits (desc_view item.now)) (map value_view values.now))
        out.old result out.new
        (items_out (value_out (desc_view item.now)) (map value_view values.now) out.old) }
{
    for value in values {
        append_primitive(out, item, value)?;
    }
    Ok(())
}

// A value within another. A number, a char or a boolean is written without a call.
#[cycle(append)]
#[inline(always)]
fn append_part(out: &mut CdrOut, desc: &Desc, value: &Value) -> Result<(), EncodeFault>
    ensures { AppendsFitting (fits (desc_view desc.now) (value_view value.now))
        out.old result out.new (value_out (desc_view desc.now) (value_view value.now) out.old) }
{
    if is_primitive(desc) {
        return append_primitive(out, desc, value);
    }
    append(out, desc, value)
}

// A text within its bound; one that has a null is Unfit too.
fn append_text(out: &mut CdrOut, bound: u32, text: &[u8]) -> Result<(), EncodeFault>
    ensures { AppendsFitting (is_text_of bound text.now)
        out.old result out.new (string_out text.now out.old) }
{
    if !is_text_of(bound, text) {
        return Err(EncodeFault::Unfit);
    }
    out.write_string(text)?;
    Ok(())
}

// A sequence of octets within its bound.
fn append_octets(out: &mut CdrOut, bound: u32, octets: &[u8]) -> Result<(), EncodeFault>
    ensures { AppendsFitting (is_octets_of bound octets.now)
        out.old result out.new (octets_out octets.now out.old) }
{
    if !is_octets_of(bound, octets) {
        return Err(EncodeFault::Unfit);
    }
    out.write_octets(octets)?;
    Ok(())
}

// The ordinal of one of so many names.
fn append_ordinal(out: &mut CdrOut, names: usize, ordinal: u32) -> Result<(), EncodeFault>
    ensures { AppendsFitting (is_unsigned 32 ordinal && nat_lt ordinal names)
        out.old result out.new (number_out w32 ordinal out.old) }
{
    if ordinal as usize >= names {
        return Err(EncodeFault::Unfit);
    }
    out.write_ulong(ordinal)?;
    Ok(())
}

// The count of a sequence within its bound, where 0 is none.
fn append_count(out: &mut CdrOut, bound: u32, count: usize) -> Result<(), EncodeFault>
    ensures { AppendsFitting (is_counted bound count)
        out.old result out.new (number_out w32 count out.old) }
{
    if !is_counted(bound, count) {
        return Err(EncodeFault::Unfit);
    }
    out.write_ulong(count as u32)?;
    Ok(())
}

// A discriminant, by its number.
fn append_label(out: &mut CdrOut, disc: &Desc, label: &i128) -> Result<(), EncodeFault>
    ensures { AppendsFitting (fits_label (desc_view disc.now) label.now)
        out.old result out.new (label_out (desc_view disc.now) label.now out.old) }
{
    if !fits_label(disc, label) {
        return Err(EncodeFault::Unfit);
    }
    write_label(out, disc, label)?;
    Ok(())
}

// A discriminant that fits.
#[tactic(auto, unfolding(crate::specs::Coding::Written::label_out))]
fn write_label(out: &mut CdrOut, disc: &Desc, label: &i128) -> Result<(), AllocError>
    requires { fits_label (desc_view disc.now) label.now ≡ true }
    ensures { Writes out.old result out.new (label_out (desc_view disc.now) label.now out.old) }
{
    match disc {
        Desc::Boolean | Desc::Char => out.write_octet(*label as u8),
        Desc::Short => out.write_short(*label as i16),
        Desc::UShort => out.write_ushort(*label as u16),
        Desc::Long => out.write_long(*label as i32),
        Desc::ULong | Desc::Labels(_) => out.write_ulong(*label as u32),
        Desc::LongLong => out.write_longlong(*label as i64),
        Desc::ULongLong => out.write_ulonglong(*label as u64),
        _ => Ok(()),
    }
}

// The values of the members of a struct.
#[cycle(append)]
fn append_members(
    out: &mut CdrOut,
    members: &[NamedDesc],
    values: &[Value],
) -> Result<(), EncodeFault>
    ensures { AppendsFitting
        (fields_fit (fields_of (map named_view members.now)) (map value_view values.now))
        out.old result out.new
        (fields_out (fields_of (map named_view members.now)) (map value_view values.now) out.old) }
{
    if members.len() != values.len() {
        return Err(EncodeFault::Unfit);
    }
    for i in 0..members.len() {
        append_part(out, &members[i].desc, &values[i])?;
    }
    Ok(())
}

// The values of a sequence within its bound, after their count.
#[cycle(append)]
#[tactic(auto, unfolding(giop_cdr::specs::Writing::Output::sequence_out))]
fn append_items(
    out: &mut CdrOut,
    item: &Desc,
    bound: u32,
    values: &[Value],
) -> Result<(), EncodeFault>
    ensures { AppendsFitting
        (is_counted bound (length values.now)
        && list_all (fits (desc_view item.now)) (map value_view values.now))
        out.old result out.new
        (sequence_out (value_out (desc_view item.now)) (map value_view values.now) out.old) }
{
    append_count(out, bound, values.len())?;
    append_each(out, item, values)
}

// The values of an array, which has `n` of them.
#[cycle(append)]
fn append_row(out: &mut CdrOut, item: &Desc, n: u32, values: &[Value]) -> Result<(), EncodeFault>
    ensures { AppendsFitting
        ((length values.now == n)
        && list_all (fits (desc_view item.now)) (map value_view values.now))
        out.old result out.new
        (items_out (value_out (desc_view item.now)) (map value_view values.now) out.old) }
{
    if values.len() != n as usize {
        return Err(EncodeFault::Unfit);
    }
    append_each(out, item, values)
}

// Values one after the other, each of a description.
#[cycle(append)]
fn append_each(out: &mut CdrOut, item: &Desc, values: &[Value]) -> Result<(), EncodeFault>
    ensures { AppendsFitting (list_all (fits (desc_view item.now)) (map value_view values.now))
        out.old result out.new
        (items_out (value_out (desc_view item.now)) (map value_view values.now) out.old) }
{
    if is_primitive(item) {
        return append_primitives(out, item, values);
    }
    for value in values {
        append(out, item, value)?;
    }
    Ok(())
}

// Appends the member of a union that the label selects by a case. Returns whether a case has the
// label.
#[cycle(append)]
fn append_case(
    out: &mut CdrOut,
    label: &i128,
    cases: &[CaseDesc],
    member: &Option<Box<Value>>,
) -> Result<bool, EncodeFault>
    ensures { (other : _) (more : _) → AppendsCase
        (branches_fit (branches_of (map case_view cases.now)) other label.now
        (member_view member.now))
        (other (member_view member.now))
        out.old result out.new
        (branches_out (branches_of (map case_view cases.now)) more label.now
        (member_view member.now) out.old)
        (more (member_view member.now) out.old) }
{
    for case in cases {
        if has_label(&case.labels, label) {
            return match member {
                Some(value) => {
                    append(out, &case.desc, value)?;
                    Ok(true)
                }
                None => Err(EncodeFault::Unfit),
            };
        }
    }
    Ok(false)
}

// The member of a union by default, where there is one.
#[cycle(append)]
fn append_default(
    out: &mut CdrOut,
    fallback: &Option<Box<NamedDesc>>,
    member: &Option<Box<Value>>,
) -> Result<(), EncodeFault>
    ensures { AppendsFitting (fields_fit (fallback_view fallback.now) (member_view member.now))
        out.old result out.new
        (fields_out (fallback_view fallback.now) (member_view member.now) out.old) }
{
    match fallback {
        Some(named) => match member {
            Some(value) => append(out, &named.desc, value),
            None => Err(EncodeFault::Unfit),
        },
        None if member.is_some() => Err(EncodeFault::Unfit),
        None => Ok(()),
    }
}
