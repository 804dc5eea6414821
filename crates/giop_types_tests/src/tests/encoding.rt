//! Values that `encode` refuses and no JSON says, and runs without memory. What is written of values
//! that fit is cases of the built program (tests/cases/values).
use super::samples::{case, checked, items, labels, pair, row, union};
use giop_cdr::{CdrOut, EncodeFault, OctetList, Order};
use giop_types::{Desc, Value, encode, fits};
use std::alloc::{AllocError, Global};
use std::process::Abort;
use std::test::Fail;

// A value doesn't fit, and nothing is written of it behind what stands there.
fn refuse(rt: &impl Abort, alloc: Global, desc: Desc, value: Value) -> Result<(), Fail> {
    let desc = checked(desc)?;
    assert!(rt; !fits(&desc, &value));
    let mut out = CdrOut::new(alloc, Order::Little, 4);
    out.write_octet(7)?;
    assert_eq!(rt; encode(&mut out, &desc, &value), Err(EncodeFault::Unfit));
    assert_eq!(rt; out.as_slice(), [7].as_slice());
    assert_eq!(rt; out.position(), 5);
    Ok(())
}

fn text(alloc: Global, octets: &[u8]) -> Result<Value, AllocError> {
    Ok(Value::Text(OctetList::from_slice(alloc, octets)?))
}

fn octets(alloc: Global, octets: &[u8]) -> Result<Value, AllocError> {
    Ok(Value::Octets(OctetList::from_slice(alloc, octets)?))
}

fn shorts(alloc: Global, n: usize) -> Result<Vec<Value>, AllocError> {
    let mut values = Vec::new(alloc);
    for _ in 0..n {
        values.push(Value::Short(1))?;
    }
    Ok(values)
}

fn member(alloc: Global, disc: i128, member: Value) -> Result<Value, AllocError> {
    Ok(Value::Choice {
        disc,
        member: Some(Box::new(alloc, member)?),
    })
}

fn bare(disc: i128) -> Value {
    Value::Choice { disc, member: None }
}

#[test]
fn a_value_of_another_type_or_past_a_bound_is_unfit(rt: HostRuntime) -> Result<(), Fail> {
    let alloc = rt.alloc();
    let rows: [(Desc, Value); 11] = [
        (Desc::Octet, Value::Char(1)),
        (Desc::Long, Value::ULong(1)),
        (Desc::Text(2), text(alloc, b"ABC")?),
        (Desc::Text(0), text(alloc, b"A\0")?),
        (Desc::Octets(2), octets(alloc, &[1, 2, 3])?),
        (Desc::Text(0), octets(alloc, b"A")?),
        (labels(alloc, &["RED", "GREEN"])?, Value::Label(2)),
        (labels(alloc, &["RED", "GREEN"])?, Value::ULong(1)),
        (
            items(alloc, Desc::Short, 2)?,
            Value::Items(shorts(alloc, 3)?),
        ),
        (row(alloc, Desc::Short, 1)?, Value::Row(shorts(alloc, 2)?)),
        (row(alloc, Desc::Short, 3)?, Value::Row(shorts(alloc, 2)?)),
    ];
    for (desc, value) in rows {
        refuse(&rt, alloc, desc, value)?;
    }
    let mixed = vec![in alloc; Value::Short(1), Value::Long(2)]?;
    refuse(
        &rt,
        alloc,
        items(alloc, Desc::Short, 0)?,
        Value::Items(mixed),
    )
}

#[test]
fn a_struct_has_as_many_values_as_members(rt: HostRuntime) -> Result<(), Fail> {
    let alloc = rt.alloc();
    let one = vec![in alloc; Value::Octet(1)]?;
    refuse(&rt, alloc, pair(alloc)?, Value::Members(one))?;
    let three = vec![in alloc; Value::Octet(1), Value::LongLong(2), Value::Octet(3)]?;
    refuse(&rt, alloc, pair(alloc)?, Value::Members(three))?;
    // The second doesn't fit, when the first stands in the output.
    let mixed = vec![in alloc; Value::Octet(1), Value::ULongLong(2)]?;
    refuse(&rt, alloc, pair(alloc)?, Value::Members(mixed))?;
    Ok(())
}

#[test]
fn a_union_has_a_member_exactly_where_its_label_selects_one(rt: HostRuntime) -> Result<(), Fail> {
    let alloc = rt.alloc();
    let wrong: [(bool, Value); 6] = [
        (false, bare(1)),
        (true, bare(3)),
        (false, member(alloc, 3, Value::Octet(9))?),
        (true, member(alloc, 1, Value::Octet(9))?),
        (true, member(alloc, 3, Value::Short(9))?),
        (true, member(alloc, 0x8000_0000, Value::Octet(9))?),
    ];
    for (with_default, value) in wrong {
        refuse(&rt, alloc, union(alloc, with_default)?, value)?;
    }
    Ok(())
}

// A union of one case, of label 1, over a discriminant.
fn over(alloc: Global, disc: Desc) -> Result<Desc, AllocError> {
    Ok(Desc::Choice {
        disc: Box::new(alloc, disc)?,
        cases: vec![in alloc; case(alloc, &[1], "a", Desc::Octet)?]?,
        fallback: None,
    })
}

// One discriminant past each end of its range.
#[test]
fn a_discriminant_out_of_range_is_unfit(rt: HostRuntime) -> Result<(), Fail> {
    let alloc = rt.alloc();
    let rows: [(Desc, i128, i128); 9] = [
        (Desc::Boolean, -1, 2),
        (Desc::Char, -1, 0x100),
        (Desc::Short, -0x8001, 0x8000),
        (Desc::UShort, -1, 0x1_0000),
        (Desc::Long, -0x8000_0001, 0x8000_0000),
        (Desc::ULong, -1, 0x1_0000_0000),
        (
            Desc::LongLong,
            -0x8000_0000_0000_0001,
            0x8000_0000_0000_0000,
        ),
        (Desc::ULongLong, -1, 0x1_0000_0000_0000_0000),
        (labels(alloc, &["X", "Y"])?, -1, 2),
    ];
    for (disc, below, above) in rows {
        let desc = checked(over(alloc, disc)?)?;
        assert!(rt; !fits(&desc, &bare(below)));
        assert!(rt; !fits(&desc, &bare(above)));
        assert!(rt; fits(&desc, &bare(0)));
    }
    Ok(())
}

// Where memory is wanting nothing is written, and the same call made again writes all.
#[test]
fn a_value_without_memory_is_left_unwritten(rt: HostRuntime) -> Result<(), Fail> {
    let alloc = rt.alloc();
    let desc = checked(items(alloc, union(alloc, true)?, 0)?)?;
    let mut values = Vec::new(alloc);
    for i in 0..100u8 {
        values.push(member(alloc, 3 + i as i128, Value::Octet(i))?)?;
    }
    let value = Value::Items(values);
    let mut out = CdrOut::new(alloc, Order::Big, 2);
    out.write_octet(7)?;
    if let Err(fault) = encode(&mut out, &desc, &value) {
        assert_eq!(rt; fault, EncodeFault::NoMemory);
        assert_eq!(rt; out.as_slice(), [7].as_slice());
        assert_eq!(rt; out.position(), 3);
        assert!(rt; encode(&mut out, &desc, &value).is_ok());
    }
    let front = [7, 0, 0, 0, 0, 100, 0, 0, 0, 3, 0, 0, 0];
    assert!(rt; out.as_slice().starts_with(&front));
    assert_eq!(rt; out.position(), 805);
    Ok(())
}

// What doesn't fit is told so also where memory is wanting before it.
#[test]
fn want_of_memory_hides_no_unfit_part(rt: HostRuntime) -> Result<(), Fail> {
    let alloc = rt.alloc();
    let desc = checked(items(alloc, Desc::Octet, 0)?)?;
    let mut values = Vec::new(alloc);
    for _ in 0..100 {
        values.push(Value::Octet(1))?;
    }
    values.push(Value::Char(1))?;
    let mut out = CdrOut::new(alloc, Order::Big, 0);
    let value = Value::Items(values);
    assert_eq!(rt; encode(&mut out, &desc, &value), Err(EncodeFault::Unfit));
    assert!(rt; out.as_slice().is_empty());
    Ok(())
}
