//! Of the check of descriptions what JSON can't say: labels of no form, and what is handed out. The
//! other rows are cases of the built program (tests/cases/interfaces, descriptions).
use super::samples::{case, labels};
use giop_types::{CheckedDesc, Desc, DescFault};
use std::alloc::{AllocError, Global};
use std::test::Fail;

// What is told of a union of one case with these labels, and no default.
fn fault_of(alloc: Global, disc: Desc, labels: &[i128]) -> Result<Option<DescFault>, AllocError> {
    let union = Desc::Choice {
        disc: Box::new(alloc, disc)?,
        cases: vec![in alloc; case(alloc, labels, "only", Desc::Octet)?]?,
        fallback: None,
    };
    match CheckedDesc::check(union) {
        Ok(_) => Ok(None),
        Err(fault) => Ok(Some(fault)),
    }
}

#[test]
fn a_label_is_a_value_of_the_discriminant(rt: HostRuntime) -> Result<(), Fail> {
    let alloc = rt.alloc();
    let colour = labels(alloc, &["red", "green"])?;
    let below = -9_223_372_036_854_775_809;
    let above = 18_446_744_073_709_551_616;
    let longlong = [-9_223_372_036_854_775_808, 9_223_372_036_854_775_807];
    let ulonglong = [0, 18_446_744_073_709_551_615];
    // A discriminant, its first label and its last one, and one outside.
    let rows: [(Desc, [i128; 2], i128); 8] = [
        (Desc::Boolean, [0, 1], -1),
        (Desc::Boolean, [0, 1], 2),
        (Desc::Char, [0, 255], -1),
        (Desc::Char, [0, 255], 256),
        (Desc::LongLong, longlong, below),
        (Desc::ULongLong, ulonglong, above),
        (labels(alloc, &["red", "green"])?, [0, 1], -1),
        (colour, [0, 1], 2),
    ];
    for (disc, [first, last], outside) in rows {
        let told = fault_of(alloc, disc, &[first, outside, last])?;
        assert_eq!(rt; told, Some(DescFault::BadDiscriminant), "{outside}");
    }
    // Told before a label that stands twice.
    let told = fault_of(alloc, Desc::Boolean, &[2, 2])?;
    assert_eq!(rt; told, Some(DescFault::BadDiscriminant));
    assert_eq!(rt; fault_of(alloc, Desc::Boolean, &[1, 0])?, None);
    Ok(())
}

#[test]
fn a_checked_description_is_handed_out(rt: HostRuntime) -> Result<(), Fail> {
    match CheckedDesc::check(labels(rt.alloc(), &["red", "green"])?) {
        Ok(checked) => assert!(rt;
            matches!(checked.desc(), Desc::Labels(names) if names.len() == 2)
        ),
        Err(_) => return Err(Fail::from("a description is refused")),
    }
    Ok(())
}

#[test]
fn each_fault_has_its_number(rt: HostRuntime) {
    let faults = [
        DescFault::Empty,
        DescFault::Doubled,
        DescFault::BadDiscriminant,
        DescFault::TooDeep,
    ];
    let mut number = 1u8;
    for fault in faults {
        assert_eq!(rt; fault.number(), number);
        number = number.wrapping_add(1);
    }
}
