//! Reading a description from JSON. The form is specs/DescFromJson.antt.
ghost use Rattle.std.specs.Prelude.{◌≡◌, map, option_and_then, IfOk, IfErr};
ghost use Rattle.serde_json.specs.Find.{as_array};
ghost use Rattle.serde_json.specs.View.{view, items_view};
ghost use Rattle.giop_json.specs.declared.form_fault.FormFault.TheVariants.{BadDesc};
ghost use Rattle.giop_types.specs.Descriptions.Checked.{desc_fault};
ghost use Rattle.giop_types.specs.Descriptions.CheckedShape.{checked_shape};
ghost use Rattle.giop_json.specs.DescFromJson.{ulong_in, bound_in, list_in, pair_in, triple_in, named_shape, text_in, octets_in, enum_in, member_in, struct_in, bound_beside, sequence_in, length_beside, array_in, case_in, default_beside, cases_beside, union_in, composed_in, desc_in, json_in, judged, desc_told};
ghost use Rattle.giop_json.specs.FromJson.{Shows, Reads, octets_shown, label_shown};
ghost use Rattle.giop_types.specs.Values.Views.{desc_view, named_view, case_view, fallback_view};

use crate::form_fault::FormFault;
use crate::from_json::is_object_of;
use crate::parse::parse;
use crate::read_leaves::{label_of, octets_of};
use crate::reference::reference_desc;
use giop_cdr::OctetList;
use giop_types::{CaseDesc, CheckedDesc, Desc, NamedDesc};
use serde_json::Value as Json;
use std::alloc::Global;

/// How many descriptions within one another are read. JSON that is read nests no deeper.
pub const LEVELS: u32 = 128;

/// The description that a JSON text is. Refused as BadJson where the text is none, or nests arrays
/// and objects more than 127 deep; else as BadShape where it has another form; else as BadDesc with
/// the fault that `CheckedDesc::check` finds. Out of memory, NoMemory may be returned in place of
/// any.
pub fn desc_from_json(alloc: Global, text: &[u8]) -> Result<CheckedDesc, FormFault>
    ensures { Reads checked_shape result (desc_told (json_in text.now)) }
{
    let json = parse(alloc, text)?;
    let desc = desc_of(alloc, &json, LEVELS)?;
    checked(desc)
}

/// Checks a description; its fault is returned as BadDesc.
pub fn checked(desc: Desc) -> Result<CheckedDesc, FormFault>
    ensures ok { IfOk result
        (λ checked. judged (desc_view desc) (desc_fault 1 (desc_view desc))
        ≡ Ok (checked_shape checked)) }
    ensures err { IfErr result
        (λ e. judged (desc_view desc) (desc_fault 1 (desc_view desc)) ≡ Err e) }
{
    match CheckedDesc::check(desc) {
        Ok(checked) => Ok(checked),
        Err(fault) => Err(FormFault::BadDesc(fault)),
    }
}

/// Reads a description. At most `levels` descriptions may be nested in it, itself counted.
#[cycle(desc_of)]
#[tactic(auto, unfolding(crate::specs::DescFromJson::desc_in))]
pub fn desc_of(alloc: Global, json: &Json, levels: u32) -> Result<Desc, FormFault>
    ensures { Shows desc_view result (desc_in levels (view json.now)) }
{
    if levels == 0 {
        return Err(FormFault::BadShape);
    }
    match json.as_str() {
        Some(name) => named_desc(alloc, name),
        None => composed_desc(alloc, json, levels - 1),
    }
}

// A description that JSON gives by its name alone.
fn named_desc(alloc: Global, name: &str) -> Result<Desc, FormFault>
    ensures { Shows desc_view result (named_shape name.now) }
{
    match name {
        "boolean" => Ok(Desc::Boolean),
        "octet" => Ok(Desc::Octet),
        "char" => Ok(Desc::Char),
        "short" => Ok(Desc::Short),
        "ushort" => Ok(Desc::UShort),
        "long" => Ok(Desc::Long),
        "ulong" => Ok(Desc::ULong),
        "longlong" => Ok(Desc::LongLong),
        "ulonglong" => Ok(Desc::ULongLong),
        "string" => Ok(Desc::Text(0)),
        "octets" => Ok(Desc::Octets(0)),
        "reference" => Ok(reference_desc(alloc)?),
        _ => Err(FormFault::BadShape),
    }
}

// A description that JSON gives by an object, read by the first of these keys that it has.
#[cycle(desc_of)]
fn composed_desc(alloc: Global, json: &Json, levels: u32) -> Result<Desc, FormFault>
    ensures { Shows desc_view result (composed_in (desc_in levels) (view json.now)) }
{
    if let Some(bound) = json.get("string") {
        return text_desc(json, bound);
    }
    if let Some(bound) = json.get("octets") {
        return octets_desc(json, bound);
    }
    if let Some(names) = json.get("enum") {
        return enum_desc(alloc, json, names);
    }
    if let Some(members) = json.get("struct") {
        return struct_of(alloc, json, members, levels);
    }
    if let Some(item) = json.get("sequence") {
        return sequence_of(alloc, json, item, levels);
    }
    if let Some(item) = json.get("array") {
        return array_of(alloc, json, item, levels);
    }
    match json.get("union") {
        Some(disc) => union_of(alloc, json, disc, levels),
        None => Err(FormFault::BadShape),
    }
}

// Reads a whole number that an unsigned long holds.
fn ulong_of(json: &Json) -> Result<u32, FormFault>
    ensures { Shows (λ n. n) result (ulong_in (view json.now)) }
{
    match json.as_u64() {
        Some(number) => match u32::try_from(number) {
            Ok(number) => Ok(number),
            Err(_) => Err(FormFault::BadShape),
        },
        None => Err(FormFault::BadShape),
    }
}

// Reads a bound, which is 1 or more.
fn bound_of(json: &Json) -> Result<u32, FormFault>
    ensures { Shows (λ n. n) result (bound_in (view json.now)) }
{
    match ulong_of(json)? {
        0 => Err(FormFault::BadShape),
        bound => Ok(bound),
    }
}

// A bounded string, which has no other key.
fn text_desc(json: &Json, bound: &Json) -> Result<Desc, FormFault>
    ensures { Shows desc_view result (text_in (view json.now) (view bound.now)) }
{
    if !is_object_of(1, json) {
        return Err(FormFault::BadShape);
    }
    Ok(Desc::Text(bound_of(bound)?))
}

// A bounded sequence of octets, which has no other key.
fn octets_desc(json: &Json, bound: &Json) -> Result<Desc, FormFault>
    ensures { Shows desc_view result (octets_in (view json.now) (view bound.now)) }
{
    if !is_object_of(1, json) {
        return Err(FormFault::BadShape);
    }
    Ok(Desc::Octets(bound_of(bound)?))
}

// An enum, which has no other key.
fn enum_desc(alloc: Global, json: &Json, names: &Json) -> Result<Desc, FormFault>
    ensures { Shows desc_view result (enum_in (view json.now) (view names.now)) }
{
    if !is_object_of(1, json) {
        return Err(FormFault::BadShape);
    }
    Ok(Desc::Labels(names_of(alloc, names)?))
}

// The items of a list.
fn list_of(json: &Json) -> Result<&[Json], FormFault>
    ensures { Shows (λ list. items_view list.now) result (as_array (view json.now)) }
{
    match json.as_array() {
        Some(list) => Ok(list.as_slice()),
        None => Err(FormFault::BadShape),
    }
}

// The two items of a list.
#[tactic(auto, using(crate::proofs::ParseLemmas::short_pair, crate::proofs::ParseLemmas::long_pair))]
fn pair_of(json: &Json) -> Result<(&Json, &Json), FormFault>
    ensures { Shows (λ pair. (view pair.0.now, view pair.1.now)) result
        (option_and_then pair_in (as_array (view json.now))) }
{
    let list = list_of(json)?;
    match list {
        [one, two] => Ok((one, two)),
        _ => Err(FormFault::BadShape),
    }
}

// The three items of a list.
#[tactic(auto, using(crate::proofs::ParseLemmas::short_triple, crate::proofs::ParseLemmas::long_triple))]
fn triple_of(json: &Json) -> Result<(&Json, &Json, &Json), FormFault>
    ensures { Shows (λ three. (view three.0.now, view three.1.now, view three.2.now)) result
        (option_and_then triple_in (as_array (view json.now))) }
{
    let list = list_of(json)?;
    match list {
        [one, two, three] => Ok((one, two, three)),
        _ => Err(FormFault::BadShape),
    }
}

// The names of an enum.
fn names_of(alloc: Global, json: &Json) -> Result<Vec<OctetList>, FormFault>
    ensures { Shows (λ names. names.items) result (list_in octets_shown (view json.now)) }
{
    let list = list_of(json)?;
    let mut names = Vec::with_capacity(alloc, list.len())?;
    for name in list {
        let octets = octets_of(alloc, name)?;
        names.push(octets)?;
    }
    Ok(names)
}

// A struct, which has no other key.
#[cycle(desc_of)]
fn struct_of(alloc: Global, json: &Json, members: &Json, levels: u32) -> Result<Desc, FormFault>
    ensures { Shows desc_view result
        (struct_in (desc_in levels) (view json.now) (view members.now)) }
{
    if !is_object_of(1, json) {
        return Err(FormFault::BadShape);
    }
    Ok(Desc::Members(members_of(alloc, members, levels)?))
}

/// The members of a struct, or parameters: a list of names with their descriptions.
#[cycle(desc_of)]
pub fn members_of(alloc: Global, json: &Json, levels: u32) -> Result<Vec<NamedDesc>, FormFault>
    ensures { Shows (λ members. map named_view members.items) result
        (list_in (member_in (desc_in levels)) (view json.now)) }
{
    let list = list_of(json)?;
    let mut members = Vec::with_capacity(alloc, list.len())?;
    for pair in list {
        let member = member_of(alloc, pair, levels)?;
        members.push(member)?;
    }
    Ok(members)
}

// A name with its description.
#[cycle(desc_of)]
fn member_of(alloc: Global, json: &Json, levels: u32) -> Result<NamedDesc, FormFault>
    ensures { Shows named_view result (member_in (desc_in levels) (view json.now)) }
{
    let (name, desc) = pair_of(json)?;
    Ok(NamedDesc {
        name: octets_of(alloc, name)?,
        desc: desc_of(alloc, desc, levels)?,
    })
}

// The bound of a sequence, or 0 where it has none. No other key may be there.
fn bound_beside(json: &Json) -> Result<u32, FormFault>
    ensures { Shows (λ n. n) result (bound_beside (view json.now)) }
{
    match json.get("bound") {
        Some(bound) if is_object_of(2, json) => bound_of(bound),
        None if is_object_of(1, json) => Ok(0),
        _ => Err(FormFault::BadShape),
    }
}

// A sequence, with its bound where it has one.
#[cycle(desc_of)]
fn sequence_of(alloc: Global, json: &Json, item: &Json, levels: u32) -> Result<Desc, FormFault>
    ensures { Shows desc_view result
        (sequence_in (desc_in levels) (view json.now) (view item.now)) }
{
    let bound = bound_beside(json)?;
    let item = desc_of(alloc, item, levels)?;
    Ok(Desc::Items(Box::new(alloc, item)?, bound))
}

// The length of an array. No other key may be there.
fn length_beside(json: &Json) -> Result<u32, FormFault>
    ensures { Shows (λ n. n) result (length_beside (view json.now)) }
{
    match json.get("length") {
        Some(length) if is_object_of(2, json) => ulong_of(length),
        _ => Err(FormFault::BadShape),
    }
}

// An array, with its length.
#[cycle(desc_of)]
fn array_of(alloc: Global, json: &Json, item: &Json, levels: u32) -> Result<Desc, FormFault>
    ensures { Shows desc_view result (array_in (desc_in levels) (view json.now) (view item.now)) }
{
    let length = length_beside(json)?;
    let item = desc_of(alloc, item, levels)?;
    Ok(Desc::Row(Box::new(alloc, item)?, length))
}

// A union, with its member by default where it has one.
#[cycle(desc_of)]
fn union_of(alloc: Global, json: &Json, disc: &Json, levels: u32) -> Result<Desc, FormFault>
    ensures { Shows desc_view result (union_in (desc_in levels) (view json.now) (view disc.now)) }
{
    let disc = desc_of(alloc, disc, levels)?;
    let cases = cases_beside(alloc, &disc, json, levels)?;
    let fallback = default_beside(alloc, json, levels)?;
    Ok(Desc::Choice {
        disc: Box::new(alloc, disc)?,
        cases,
        fallback,
    })
}

// The member by default of a union, where it has one. No other key may be there.
#[cycle(desc_of)]
fn default_beside(
    alloc: Global,
    json: &Json,
    levels: u32,
) -> Result<Option<Box<NamedDesc>>, FormFault>
    ensures { Shows fallback_view result (default_beside (desc_in levels) (view json.now)) }
{
    match json.get("default") {
        Some(member) if is_object_of(3, json) => {
            let member = member_of(alloc, member, levels)?;
            Ok(Some(Box::new(alloc, member)?))
        }
        None if is_object_of(2, json) => Ok(None),
        _ => Err(FormFault::BadShape),
    }
}

// The cases of a union.
#[cycle(desc_of)]
fn cases_beside(
    alloc: Global,
    disc: &Desc,
    json: &Json,
    levels: u32,
) -> Result<Vec<CaseDesc>, FormFault>
    ensures { Shows (λ cases. map case_view cases.items) result
        (cases_beside (desc_in levels) (desc_view disc.now) (view json.now)) }
{
    match json.get("cases") {
        Some(cases) => cases_of(alloc, disc, cases, levels),
        None => Err(FormFault::BadShape),
    }
}

// A list of cases.
#[cycle(desc_of)]
fn cases_of(
    alloc: Global,
    disc: &Desc,
    json: &Json,
    levels: u32,
) -> Result<Vec<CaseDesc>, FormFault>
    ensures { Shows (λ cases. map case_view cases.items) result
        (list_in (case_in (desc_in levels) (desc_view disc.now)) (view json.now)) }
{
    let list = list_of(json)?;
    let mut cases = Vec::with_capacity(alloc, list.len())?;
    for form in list {
        let case = case_of(alloc, disc, form, levels)?;
        cases.push(case)?;
    }
    Ok(cases)
}

// A case: its labels, its name and its description.
#[cycle(desc_of)]
fn case_of(alloc: Global, disc: &Desc, json: &Json, levels: u32) -> Result<CaseDesc, FormFault>
    ensures { Shows case_view result
        (case_in (desc_in levels) (desc_view disc.now) (view json.now)) }
{
    let (labels, name, desc) = triple_of(json)?;
    Ok(CaseDesc {
        labels: labels_of(alloc, disc, labels)?,
        name: octets_of(alloc, name)?,
        desc: desc_of(alloc, desc, levels)?,
    })
}

// The labels of a case, each by the description of the discriminant.
fn labels_of(alloc: Global, disc: &Desc, json: &Json) -> Result<Vec<i128>, FormFault>
    ensures { Shows (λ labels. labels.items) result
        (list_in (label_shown (desc_view disc.now)) (view json.now)) }
{
    let list = list_of(json)?;
    let mut labels = Vec::with_capacity(alloc, list.len())?;
    for label in list {
        let number = label_of(alloc, disc, label)?;
        labels.push(number)?;
    }
    Ok(labels)
}
