//! Descriptions as only a program makes them: nested a million deep, and with names that stand
//! twice where memory is wanting.
use giop_cdr::OctetList;
use giop_types::{CaseDesc, CheckedDesc, Desc, DescFault, NamedDesc};
use std::alloc::Global;
use std::test::Fail;

// Nested as deep as this, parts take more stack to be dropped one in the other than there is.
const DEEP: usize = 100_000;

// An item, a member, a case, a default, a discriminant: where a part can stand.
#[derive(Clone, Copy, Debug, PartialEq, Eq)]
enum Place {
    Item,
    Array,
    Member,
    Case,
    Default,
    Disc,
}

fn name(alloc: Global, text: &str) -> Result<OctetList, Fail> {
    Ok(OctetList::from_slice(alloc, text.as_bytes())?)
}

fn named(alloc: Global, text: &str, desc: Desc) -> Result<NamedDesc, Fail> {
    Ok(NamedDesc {
        name: name(alloc, text)?,
        desc,
    })
}

fn case(alloc: Global, label: i128, text: &str, desc: Desc) -> Result<CaseDesc, Fail> {
    Ok(CaseDesc {
        labels: vec![in alloc; label]?,
        name: name(alloc, text)?,
        desc,
    })
}

// A union of these parts.
fn union(alloc: Global, disc: Desc, first: Desc, other: Desc) -> Result<Desc, Fail> {
    let first = case(alloc, 0, "a", first)?;
    let second = case(alloc, 1, "b", Desc::Long)?;
    let other = named(alloc, "c", other)?;
    Ok(Desc::Choice {
        disc: Box::new(alloc, disc)?,
        cases: vec![in alloc; first, second]?,
        fallback: Some(Box::new(alloc, other)?),
    })
}

// A description with a part at a place.
fn around(alloc: Global, place: Place, part: Desc) -> Result<Desc, Fail> {
    match place {
        Place::Item => Ok(Desc::Items(Box::new(alloc, part)?, 0)),
        Place::Array => Ok(Desc::Row(Box::new(alloc, part)?, 2)),
        Place::Member => {
            let first = named(alloc, "a", Desc::Long)?;
            let last = named(alloc, "b", part)?;
            Ok(Desc::Members(vec![in alloc; first, last]?))
        }
        Place::Case => union(alloc, Desc::Long, part, Desc::Octet),
        Place::Default => union(alloc, Desc::Long, Desc::Octet, part),
        Place::Disc => union(alloc, part, Desc::Octet, Desc::Octet),
    }
}

// A description that is nested so deep at this place.
fn nested(alloc: Global, place: Place, deep: usize) -> Result<Desc, Fail> {
    let mut desc = Desc::Boolean;
    for _ in 0..deep {
        desc = around(alloc, place, desc)?;
    }
    Ok(desc)
}

// What is refused is dropped without a stack as deep as it is.
#[test]
fn a_description_nested_a_million_deep_is_refused(rt: HostRuntime) -> Result<(), Fail> {
    let desc = nested(rt.alloc(), Place::Item, 1_000_000)?;
    assert_eq!(rt; CheckedDesc::check(desc).err(), Some(DescFault::TooDeep));
    Ok(())
}

#[test]
fn deep_parts_are_refused_wherever_they_stand(rt: HostRuntime) -> Result<(), Fail> {
    let rows = [
        (Place::Item, DescFault::TooDeep),
        (Place::Array, DescFault::TooDeep),
        (Place::Member, DescFault::TooDeep),
        (Place::Case, DescFault::TooDeep),
        (Place::Default, DescFault::TooDeep),
        (Place::Disc, DescFault::BadDiscriminant),
    ];
    for (place, fault) in rows {
        let desc = nested(rt.alloc(), place, DEEP)?;
        assert_eq!(rt; CheckedDesc::check(desc).err(), Some(fault));
    }
    Ok(())
}

// A name or a label that stands twice is found, whether or not there is memory to find it by.
#[test]
fn want_of_memory_hides_no_doubled_name(rt: HostRuntime) -> Result<(), Fail> {
    let alloc = rt.alloc();
    let names = vec![in alloc; name(alloc, "a")?, name(alloc, "b")?, name(alloc, "a")?]?;
    let apart = vec![in alloc; name(alloc, "a")?, name(alloc, "b")?, name(alloc, "ab")?]?;
    let member = named(alloc, "a", Desc::Long)?;
    let again = named(alloc, "a", Desc::Octet)?;
    let first = case(alloc, 7, "a", Desc::Long)?;
    let second = case(alloc, 7, "b", Desc::Long)?;
    let labels = Desc::Choice {
        disc: Box::new(alloc, Desc::Long)?,
        cases: vec![in alloc; first, second]?,
        fallback: None,
    };
    assert_eq!(rt;
        CheckedDesc::check(Desc::Labels(names)).err(),
        Some(DescFault::Doubled)
    );
    assert_eq!(rt; CheckedDesc::check(Desc::Labels(apart)).err(), None);
    let members = Desc::Members(vec![in alloc; member, again]?);
    assert_eq!(rt; CheckedDesc::check(members).err(), Some(DescFault::Doubled));
    assert_eq!(rt; CheckedDesc::check(labels).err(), Some(DescFault::Doubled));
    Ok(())
}
