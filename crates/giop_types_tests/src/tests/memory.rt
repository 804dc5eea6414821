//! Refused allocations: a value that is out of memory is left unread and unwritten, and faults are
//! still reported.
use giop_cdr::{CdrFault, CdrIn, CdrKind, CdrOut, EncodeFault, Order, SliceOctets};
use giop_json::{FormFault, desc_from_json};
use giop_types::{CheckedDesc, Value, decode, encode};
use std::alloc::Global;
use std::test::Fail;

// Sequences of unions, of 1 and 2 a short, else an octet; and such a one with a reference.
const UNIONS: &[u8] = b"{\"sequence\":{\"union\":\"long\",\"cases\":[[[1,2],\"a\",\"short\"]],\
    \"default\":[\"b\",\"octet\"]}}";

const UNIONS_AND_REFERENCE: &[u8] =
    b"{\"struct\":[[\"choices\",{\"sequence\":{\"union\":\"long\",\"cases\":[[[1,2],\"a\",\"short\"]],\
    \"default\":[\"b\",\"octet\"]}}],[\"reference\",\"reference\"]]}";

// struct { sequence<union> choices; IOR reference; }: two unions, and a reference of one profile.
const OCTETS: [u8; 55] = [
    0, 0, 0, 2, 0, 0, 0, 1, 0xFF, 0xFE, 0, 0, 0, 0, 0, 9, 5, 0, 0, 0, 0, 0, 0, 4, b'I', b'D', b'L',
    0, 0, 0, 0, 2, 0, 0, 0, 0, 0, 0, 0, 1, 0xAA, 0, 0, 0, 0, 0, 0, 1, 0, 0, 0, 2, 1, 2, 3,
];

// Reads a description, again where memory was wanting.
fn desc(alloc: Global, text: &[u8]) -> Result<CheckedDesc, FormFault> {
    match desc_from_json(alloc, text) {
        Err(FormFault::NoMemory) => desc_from_json(alloc, text),
        answer => answer,
    }
}

// Where memory is wanting the reader stays, and the same call made again reads all.
#[test]
fn a_value_without_memory_is_left_unread(rt: HostRuntime) -> Result<(), Fail> {
    let alloc = rt.alloc();
    let desc = desc(alloc, UNIONS_AND_REFERENCE)?;
    let source = SliceOctets::new(&OCTETS);
    let mut input = CdrIn::new(&source, Order::Big, 8);
    let wanting = CdrFault {
        at: 8,
        kind: CdrKind::NoMemory,
    };
    if let Err(fault) = decode(alloc, &mut input, &desc) {
        assert_eq!(rt; (fault, input.position()), (wanting, 8));
        assert!(rt; decode(alloc, &mut input, &desc).is_ok());
    }
    assert_eq!(rt; input.position(), 62);
    Ok(())
}

// A fault is told also where memory is wanting before it.
#[test]
fn want_of_memory_hides_no_fault(rt: HostRuntime) -> Result<(), Fail> {
    let alloc = rt.alloc();
    let desc = desc(alloc, b"\"reference\"")?;
    let octets = [
        0, 0, 0, 2, b'A', 0, 0, 0, 0, 0, 0, 1, 0, 0, 0, 0, 0, 0, 0, 9, 1,
    ];
    let source = SliceOctets::new(&octets);
    let mut input = CdrIn::new(&source, Order::Big, 0);
    let wanted = CdrFault {
        at: 16,
        kind: CdrKind::BadCount,
    };
    assert_eq!(rt; decode(alloc, &mut input, &desc), Err(wanted));
    assert_eq!(rt; input.position(), 0);
    Ok(())
}

// Where memory is wanting nothing is written, and the same call made again writes all.
#[test]
fn a_value_without_memory_is_left_unwritten(rt: HostRuntime) -> Result<(), Fail> {
    let alloc = rt.alloc();
    let desc = desc(alloc, UNIONS)?;
    let mut values = Vec::new(alloc);
    for i in 0..100u8 {
        let member = Some(Box::new(alloc, Value::Octet(i))?);
        let disc = 3 + i as i128;
        values.push(Value::Choice { disc, member })?;
    }
    let value = Value::Items(values);
    let mut out = CdrOut::new(alloc, Order::Big, 2);
    out.write_octet(7)?;
    if let Err(fault) = encode(&mut out, &desc, &value) {
        assert_eq!(rt; fault, EncodeFault::NoMemory);
        assert_eq!(rt; out.as_slice(), [7].as_slice());
        assert_eq!(rt; out.position(), 3);
        assert!(rt; encode(&mut out, &desc, &value).is_ok());
    }
    let front = [7, 0, 0, 0, 0, 100, 0, 0, 0, 3, 0, 0, 0];
    assert!(rt; out.as_slice().starts_with(&front));
    assert_eq!(rt; out.position(), 805);
    Ok(())
}

// What doesn't fit is told so also where memory is wanting before it.
#[test]
fn want_of_memory_hides_no_unfit_part(rt: HostRuntime) -> Result<(), Fail> {
    let alloc = rt.alloc();
    let desc = desc(alloc, b"{\"sequence\":\"octet\"}")?;
    let mut values = Vec::new(alloc);
    for _ in 0..100 {
        values.push(Value::Octet(1))?;
    }
    values.push(Value::Char(1))?;
    let mut out = CdrOut::new(alloc, Order::Big, 0);
    let value = Value::Items(values);
    assert_eq!(rt; encode(&mut out, &desc, &value), Err(EncodeFault::Unfit));
    assert!(rt; out.as_slice().is_empty());
    Ok(())
}
