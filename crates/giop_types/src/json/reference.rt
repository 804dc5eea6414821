//! The description of an object reference (CORBA 3.3 Part 2, 7.6.2).
ghost use Rattle.std.specs.Prelude.{◌≡◌, IfOk};
ghost use Rattle.giop_types.specs.Reference.{reference_shape};
ghost use Rattle.giop_types.specs.Shape.{members, field, no_fields};
ghost use Rattle.giop_types.specs.Views.{desc_view};

use crate::desc::{Desc, NamedDesc};
use giop_cdr::OctetList;
use std::alloc::{AllocError, Global};

/// The description of an IOR: a struct of `type_id`, a string, and `profiles`, a sequence of structs
/// of `tag`, an unsigned long, and `octets`, a sequence of octets.
pub fn reference_desc(alloc: Global) -> Result<Desc, AllocError>
    ensures { IfOk result (λ desc. desc_view desc ≡ reference_shape) }
{
    let profile = struct_of(alloc, b"tag", Desc::ULong, b"octets", Desc::Octets(0))?;
    let profiles = Desc::Items(Box::new(alloc, profile)?, 0);
    struct_of(alloc, b"type_id", Desc::Text(0), b"profiles", profiles)
}

// A struct of two members.
fn struct_of(
    alloc: Global,
    one_name: &[u8],
    one: Desc,
    two_name: &[u8],
    two: Desc,
) -> Result<Desc, AllocError>
    ensures { IfOk result (λ desc. desc_view desc
        ≡ members (field one_name.now (desc_view one) (field two_name.now (desc_view two) no_fields))) }
{
    let one_name = OctetList::from_slice(alloc, one_name)?;
    let two_name = OctetList::from_slice(alloc, two_name)?;
    let mut members = Vec::with_capacity(alloc, 2)?;
    members.push(NamedDesc {
        name: one_name,
        desc: one,
    })?;
    members.push(NamedDesc {
        name: two_name,
        desc: two,
    })?;
    Ok(Desc::Members(members))
}
