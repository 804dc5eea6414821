use super::decoding::read;
use super::samples::{case, checked, items, labels, named, row};
use giop_cdr::{OctetList, Order};
use giop_types::{Desc, Value};
use std::alloc::{AllocError, Global};
use std::test::Fail;

// The body of a Request, recorded from omniORB 4.2.5, at offset 48 of its message and in
// little-endian. It is one struct:
//
//     enum Colour { RED, GREEN, BLUE };
//     union Pick switch (Colour) { case RED: long l; case GREEN: string s; default: octet o; };
//     struct All {
//       boolean b; char c; short s; unsigned short us; long l; unsigned long ul; octet o;
//       long long ll; unsigned long long ull; string t; Colour shade; long row[3];
//       sequence<octet> blob; sequence<Pick> chosen;
//     };
//
// Pads hold what was left in the sender's buffer.
const BODY: [u8; 105] = [
    0x01, 0x41, 0xFE, 0xFF, 0xFF, 0xFF, 0x00, 0x00, 0xFD, 0xFF, 0xFF, 0xFF, 0x00, 0x28, 0x6B, 0xEE,
    0xC8, 0x00, 0x00, 0x00, 0x00, 0x00, 0x00, 0x00, 0xFC, 0xFF, 0xFF, 0xFF, 0xFF, 0xFF, 0xFF, 0xFF,
    0xFF, 0xFF, 0xFF, 0xFF, 0xFF, 0xFF, 0xFF, 0xFF, 0x07, 0x00, 0x00, 0x00, 0x61, 0x20, 0x74, 0x65,
    0x78, 0x74, 0x00, 0x00, 0x02, 0x00, 0x00, 0x00, 0x01, 0x00, 0x00, 0x00, 0xFF, 0xFF, 0xFF, 0xFF,
    0xFF, 0xFF, 0xFF, 0x7F, 0x03, 0x00, 0x00, 0x00, 0x01, 0x02, 0x03, 0x00, 0x03, 0x00, 0x00, 0x00,
    0x00, 0x00, 0x00, 0x00, 0xFB, 0xFF, 0xFF, 0xFF, 0x01, 0x00, 0x00, 0x00, 0x03, 0x00, 0x00, 0x00,
    0x68, 0x69, 0x00, 0x00, 0x02, 0x00, 0x00, 0x00, 0x07,
];

fn colour(alloc: Global) -> Result<Desc, AllocError> {
    labels(alloc, &["RED", "GREEN", "BLUE"])
}

fn pick(alloc: Global) -> Result<Desc, AllocError> {
    Ok(Desc::Choice {
        disc: Box::new(alloc, colour(alloc)?)?,
        cases: vec![in alloc;
            case(alloc, &[0], "l", Desc::Long)?,
            case(alloc, &[1], "s", Desc::Text(0))?,
        ]?,
        fallback: Some(Box::new(alloc, named(alloc, "o", Desc::Octet)?)?),
    })
}

fn all(alloc: Global) -> Result<Desc, AllocError> {
    Ok(Desc::Members(vec![in alloc;
        named(alloc, "b", Desc::Boolean)?,
        named(alloc, "c", Desc::Char)?,
        named(alloc, "s", Desc::Short)?,
        named(alloc, "us", Desc::UShort)?,
        named(alloc, "l", Desc::Long)?,
        named(alloc, "ul", Desc::ULong)?,
        named(alloc, "o", Desc::Octet)?,
        named(alloc, "ll", Desc::LongLong)?,
        named(alloc, "ull", Desc::ULongLong)?,
        named(alloc, "t", Desc::Text(0))?,
        named(alloc, "shade", colour(alloc)?)?,
        named(alloc, "row", row(alloc, Desc::Long, 3)?)?,
        named(alloc, "blob", Desc::Octets(0))?,
        named(alloc, "chosen", items(alloc, pick(alloc)?, 0)?)?,
    ]?))
}

fn picked(alloc: Global, disc: i128, member: Value) -> Result<Value, AllocError> {
    let member = Some(Box::new(alloc, member)?);
    Ok(Value::Choice { disc, member })
}

// What the client was given to send.
fn sent(alloc: Global) -> Result<Value, AllocError> {
    let text = OctetList::from_slice(alloc, b"a text")?;
    let blob = OctetList::from_slice(alloc, &[1, 2, 3])?;
    let hi = OctetList::from_slice(alloc, b"hi")?;
    let longs = vec![in alloc; Value::Long(1), Value::Long(-1), Value::Long(2_147_483_647)]?;
    let chosen = vec![in alloc;
        picked(alloc, 0, Value::Long(-5))?,
        picked(alloc, 1, Value::Text(hi))?,
        picked(alloc, 2, Value::Octet(7))?,
    ]?;
    Ok(Value::Members(vec![in alloc;
        Value::Boolean(true),
        Value::Char(b'A'),
        Value::Short(-2),
        Value::UShort(65_535),
        Value::Long(-3),
        Value::ULong(4_000_000_000),
        Value::Octet(200),
        Value::LongLong(-4),
        Value::ULongLong(18_446_744_073_709_551_615),
        Value::Text(text),
        Value::Label(2),
        Value::Row(longs),
        Value::Octets(blob),
        Value::Items(chosen),
    ]?))
}

#[test]
fn a_body_of_another_broker_is_read(rt: HostRuntime) -> Result<(), Fail> {
    let alloc = rt.alloc();
    let answered = read(alloc, &checked(all(alloc)?)?, &BODY, Order::Little, 48);
    assert_eq!(rt; answered, Ok((sent(alloc)?, 48 + 105)));
    Ok(())
}
