//! Object references as values: their description (CORBA 3.3 Part 2, 7.6.2) and, in JSON, their
//! text (7.6.9). The forms are specs/Reference.antt.
ghost use Rattle.std.specs.Prelude.{◌≡◌, ◌&&◌, map, codes, option_map, IfOk};
ghost use Rattle.std.specs.Result.{result_ok};
ghost use Rattle.giop_cdr.specs.Encapsulation.Opened.{content_of};
ghost use Rattle.giop_types.specs.Coding.Decoding.{decode_at};
ghost use Rattle.giop_json.specs.FromJson.{Shows};
ghost use Rattle.giop_ior_text.specs.IorText.{encapsulated};
ghost use Rattle.giop_json.specs.Reference.{reference_shape, is_any_text, are_any_octets, is_ulong, is_profile, are_profiles, is_reference, reference_data, reference_shown};
ghost use Rattle.giop_types.specs.Descriptions.Checked.{same_name};
ghost use Rattle.giop_types.specs.Descriptions.Shape.{members, field, no_fields};
ghost use Rattle.giop_types.specs.Values.Views.{desc_view, named_view, fields_of, value_view};
ghost use Rattle.serde_json.specs.View.{view};

use crate::form_fault::FormFault;
use giop_cdr::{CdrIn, CdrKind, CdrOut, EncodeFault, OctetList, Order, SliceOctets};
use giop_ior_text::{IorTextFault, ior_octets_from_text, ior_octets_to_text, open_octets};
use giop_types::parts::{append, value_of};
use giop_types::{Desc, NamedDesc, Value};
use serde_json::Value as Json;
use std::alloc::{AllocError, Global};

/// The description of an IOR (7.6.2): a struct of `type_id`, a string, and `profiles`, a sequence
/// of structs of `tag`, an unsigned long, and `octets`, a sequence of octets.
pub fn reference_desc(alloc: Global) -> Result<Desc, AllocError>
    ensures { IfOk result (λ desc. desc_view desc ≡ reference_shape) }
{
    let profile = struct_of(alloc, b"tag", Desc::ULong, b"octets", Desc::Octets(0))?;
    let profiles = Desc::Items(Box::new(alloc, profile)?, 0);
    struct_of(alloc, b"type_id", Desc::Text(0), b"profiles", profiles)
}

// A struct of two members.
fn struct_of(
    alloc: Global,
    one_name: &[u8],
    one: Desc,
    two_name: &[u8],
    two: Desc,
) -> Result<Desc, AllocError>
    ensures { IfOk result (λ desc. desc_view desc
        ≡ members (field one_name.now (desc_view one)
        (field two_name.now (desc_view two) no_fields))) }
{
    let one_name = OctetList::from_slice(alloc, one_name)?;
    let two_name = OctetList::from_slice(alloc, two_name)?;
    let mut members = Vec::with_capacity(alloc, 2)?;
    members.push(NamedDesc {
        name: one_name,
        desc: one,
    })?;
    members.push(NamedDesc {
        name: two_name,
        desc: two,
    })?;
    Ok(Desc::Members(members))
}

// Whether a member has this name.
fn is_named(member: &NamedDesc, name: &[u8]) -> bool
    ensures { result ≡ same_name member.now.name name.now }
{
    member.name.as_slice() == name
}

// Whether this is the description of an unbounded sequence of profiles.
fn are_profiles(desc: &Desc) -> bool
    ensures { result ≡ are_profiles (desc_view desc.now) }
{
    match desc {
        Desc::Items(item, bound) => is_profile(item) && *bound == 0,
        _ => false,
    }
}

// Whether this is the description of a profile: a tag and octets.
fn is_profile(desc: &Desc) -> bool
    ensures { result ≡ is_profile (desc_view desc.now) }
{
    match desc {
        Desc::Members(members) => match members.as_slice() {
            [tag, octets] => are_tag_and_octets(tag, octets),
            _ => false,
        },
        _ => false,
    }
}

// Whether these are the members of a profile.
fn are_tag_and_octets(tag: &NamedDesc, octets: &NamedDesc) -> bool
    ensures { result ≡ (same_name tag.now.name (codes "tag") && is_ulong (desc_view tag.now.desc)
        && (same_name octets.now.name (codes "octets")
        && are_any_octets (desc_view octets.now.desc))) }
{
    is_named(tag, b"tag")
        && matches!(tag.desc, Desc::ULong)
        && (is_named(octets, b"octets") && matches!(octets.desc, Desc::Octets(0)))
}

/// Whether these are the members of a reference, as `reference_desc` gives them.
pub fn is_reference(members: &[NamedDesc]) -> bool
    ensures { result ≡ is_reference (fields_of (map named_view members.now)) }
{
    match members {
        [type_id, profiles] => are_type_id_and_profiles(type_id, profiles),
        _ => false,
    }
}

// Whether these are the members of a reference, one by one.
fn are_type_id_and_profiles(type_id: &NamedDesc, profiles: &NamedDesc) -> bool
    ensures { result ≡ (same_name type_id.now.name (codes "type_id")
        && is_any_text (desc_view type_id.now.desc)
        && (same_name profiles.now.name (codes "profiles")
        && are_profiles (desc_view profiles.now.desc))) }
{
    is_named(type_id, b"type_id")
        && matches!(type_id.desc, Desc::Text(0))
        && (is_named(profiles, b"profiles") && are_profiles(&profiles.desc))
}

/// The text of a reference as JSON, in big-endian byte order. It is null where the value doesn't
/// fit.
pub fn reference_json(alloc: Global, value: &Value, desc: &Desc) -> Result<Json, AllocError>
    ensures { IfOk result
        (λ json. view json ≡ reference_data (desc_view desc.now) (value_view value.now)) }
{
    let mut out = CdrOut::new(alloc, Order::Big, 0);
    out.write_octet(0)?;
    match append(&mut out, desc, value) {
        Ok(()) => (),
        Err(EncodeFault::Unfit) => return Ok(Json::Null),
        Err(EncodeFault::NoMemory) => return Err(AllocError),
    }
    Ok(Json::String(ior_octets_to_text(alloc, out.as_slice())?))
}

/// The value of a reference that a JSON text says.
#[tactic(auto, unfolding(giop_ior_text::specs::IorText::ior_text_of))]
pub fn reference_of(alloc: Global, desc: &Desc, json: &Json) -> Result<Value, FormFault>
    ensures { Shows value_view result (reference_shown (desc_view desc.now) (view json.now)) }
{
    let Some(text) = json.as_str() else {
        return Err(FormFault::BadShape);
    };
    match ior_octets_from_text(alloc, text.as_bytes()) {
        Ok(octets) => encapsulated(alloc, desc, octets.as_slice()),
        Err(IorTextFault::NoMemory) => Err(FormFault::NoMemory),
        Err(_) => Err(FormFault::BadShape),
    }
}

// The value of an encapsulation (9.3.3). Octets that follow it are not judged.
#[tactic(auto, unfolding(giop_ior_text::specs::IorText::encapsulated, giop_cdr::specs::Encapsulation::OfLayout::inside_at))]
fn encapsulated(alloc: Global, desc: &Desc, octets: &[u8]) -> Result<Value, FormFault>
    ensures { Shows value_view result
        (result_ok (encapsulated (decode_at (desc_view desc.now)) octets.now)) }
{
    let Ok((order, content)) = open_octets(octets) else {
        return Err(FormFault::BadShape);
    };
    content_value(alloc, desc, content, order)
}

// The value of an encapsulation's content, which begins at offset 1.
fn content_value(
    alloc: Global,
    desc: &Desc,
    content: &[u8],
    order: Order,
) -> Result<Value, FormFault>
    ensures { Shows value_view result (option_map (λ r. r.0)
        (result_ok (decode_at (desc_view desc.now) (content_of order content.now)))) }
{
    if content.len() > 1 << 62 {
        return Err(FormFault::NoMemory);
    }
    let source = SliceOctets::new(content);
    match value_of(alloc, desc, &mut CdrIn::new(&source, order, 1)) {
        Ok(value) => Ok(value),
        Err(fault) => match fault.kind {
            CdrKind::NoMemory => Err(FormFault::NoMemory),
            _ => Err(FormFault::BadShape),
        },
    }
}
