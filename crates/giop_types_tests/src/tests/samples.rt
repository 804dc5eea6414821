//! Descriptions that the tests share.
use giop_cdr::OctetList;
use giop_types::{CaseDesc, CheckedDesc, Desc, NamedDesc};
use std::alloc::{AllocError, Global};
use std::test::Fail;

pub fn named(alloc: Global, name: &str, desc: Desc) -> Result<NamedDesc, AllocError> {
    let name = OctetList::from_slice(alloc, name.as_bytes())?;
    Ok(NamedDesc { name, desc })
}

pub fn case(
    alloc: Global,
    labels: &[i128],
    name: &str,
    desc: Desc,
) -> Result<CaseDesc, AllocError> {
    Ok(CaseDesc {
        labels: Vec::from_slice(alloc, labels)?,
        name: OctetList::from_slice(alloc, name.as_bytes())?,
        desc,
    })
}

pub fn labels(alloc: Global, names: &[&str]) -> Result<Desc, AllocError> {
    let mut list = Vec::new(alloc);
    for name in names {
        list.push(OctetList::from_slice(alloc, name.as_bytes())?)?;
    }
    Ok(Desc::Labels(list))
}

// struct { octet a; long long b; }
pub fn pair(alloc: Global) -> Result<Desc, AllocError> {
    Ok(Desc::Members(vec![in alloc;
        named(alloc, "a", Desc::Octet)?,
        named(alloc, "b", Desc::LongLong)?,
    ]?))
}

// union switch (long) { case 1: case 2: short a; default: octet b; }, or without its default.
pub fn union(alloc: Global, with_default: bool) -> Result<Desc, AllocError> {
    let fallback = if with_default {
        Some(Box::new(alloc, named(alloc, "b", Desc::Octet)?)?)
    } else {
        None
    };
    Ok(Desc::Choice {
        disc: Box::new(alloc, Desc::Long)?,
        cases: vec![in alloc; case(alloc, &[1, 2], "a", Desc::Short)?]?,
        fallback,
    })
}

pub fn items(alloc: Global, item: Desc, bound: u32) -> Result<Desc, AllocError> {
    Ok(Desc::Items(Box::new(alloc, item)?, bound))
}

pub fn row(alloc: Global, item: Desc, n: u32) -> Result<Desc, AllocError> {
    Ok(Desc::Row(Box::new(alloc, item)?, n))
}

// An IOR: struct { string type_id; sequence<struct { unsigned long tag; sequence<octet> octets; }>
// profiles; }
pub fn reference(alloc: Global) -> Result<Desc, AllocError> {
    let profile = Desc::Members(vec![in alloc;
        named(alloc, "tag", Desc::ULong)?,
        named(alloc, "octets", Desc::Octets(0))?,
    ]?);
    Ok(Desc::Members(vec![in alloc;
        named(alloc, "type_id", Desc::Text(0))?,
        named(alloc, "profiles", items(alloc, profile, 0)?)?,
    ]?))
}

pub fn checked(desc: Desc) -> Result<CheckedDesc, Fail> {
    match CheckedDesc::check(desc) {
        Ok(checked) => Ok(checked),
        Err(_) => Err(Fail::from("a description is refused")),
    }
}
