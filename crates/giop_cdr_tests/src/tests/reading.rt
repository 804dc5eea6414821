//! Primitives, strings, sequences of octets and counts, read from octets worked by hand.
ghost use Rattle.std.specs.Prelude.{◌≤◌, ◌^◌, length};

use super::two_parts::TwoParts;
use giop_cdr::{CdrFault, CdrIn, CdrKind, Octets, Order, SliceOctets};
use std::alloc::Global;
use std::process::Abort;
use std::test::Fail;

// One value of each primitive, a string and a sequence of octets, from offset 0 on.
const BIG: [u8; 45] = [
    0x01, 0x41, 0xFF, 0xFE, 0xFF, 0xFF, 0xFF, 0xFF, 0x00, 0x01, 0x09, 0x00, 0x00, 0x00, 0x01, 0x02,
    0xFF, 0xFF, 0xFF, 0xFF, 0xFF, 0xFF, 0xFF, 0xFF, 0x00, 0x00, 0x00, 0x00, 0x00, 0x00, 0x00, 0x01,
    0x00, 0x00, 0x00, 0x02, 0x61, 0x00, 0x00, 0x00, 0x00, 0x00, 0x00, 0x01, 0xAA,
];

// The same values in little-endian, with pads that aren't zero.
const LITTLE: [u8; 45] = [
    0x01, 0x41, 0xFE, 0xFF, 0xFF, 0xFF, 0xFF, 0xFF, 0x01, 0x00, 0x09, 0xEE, 0x02, 0x01, 0x00, 0x00,
    0xFF, 0xFF, 0xFF, 0xFF, 0xFF, 0xFF, 0xFF, 0xFF, 0x01, 0x00, 0x00, 0x00, 0x00, 0x00, 0x00, 0x00,
    0x02, 0x00, 0x00, 0x00, 0x61, 0x00, 0xEE, 0xEE, 0x01, 0x00, 0x00, 0x00, 0xAA,
];

fn expect_numbers<S: Octets>(rt: &impl Abort, input: &mut CdrIn<S>) {
    assert_eq!(rt; input.read_boolean(), Ok(true));
    assert_eq!(rt; input.read_char(), Ok(0x41));
    assert_eq!(rt; input.read_short(), Ok(-2));
    assert_eq!(rt; input.read_long(), Ok(-1));
    assert_eq!(rt; input.read_ushort(), Ok(1));
    assert_eq!(rt; input.read_octet(), Ok(9));
    assert_eq!(rt; input.read_ulong(), Ok(258));
    assert_eq!(rt; input.read_longlong(), Ok(-1));
    assert_eq!(rt; input.read_ulonglong(), Ok(1));
}

fn expect_values<S: Octets>(
    rt: &impl Abort,
    alloc: Global,
    source: &S,
    order: Order,
) -> Result<(), Fail>
    requires { length (S.octets source.now) ≤ 2 ^ 62 }
{
    let mut input = CdrIn::new(source, order, 0);
    expect_numbers(rt, &mut input);
    let mut again = input.fork();
    assert_eq!(rt; again.skip_string(0), Ok(()));
    assert_eq!(rt; again.skip_octets(0), Ok(()));
    assert_eq!(rt; again.remaining(), 0);
    let Ok(text) = input.read_string(alloc, 1) else {
        return Err(Fail::from("no string"));
    };
    assert_eq!(rt; text.as_slice(), b"a".as_slice());
    let Ok(octets) = input.read_octets(alloc, 1) else {
        return Err(Fail::from("no octets"));
    };
    assert_eq!(rt; octets.as_slice(), [0xAA].as_slice());
    assert_eq!(rt; (input.position(), input.remaining()), (45, 0));
    Ok(())
}

#[test]
fn each_primitive_is_read_from_one_slice(rt: HostRuntime) -> Result<(), Fail> {
    expect_values(&rt, rt.alloc(), &SliceOctets::new(&BIG), Order::Big)?;
    expect_values(&rt, rt.alloc(), &SliceOctets::new(&LITTLE), Order::Little)
}

#[test]
fn each_primitive_is_read_from_two_parts_wherever_they_meet(rt: HostRuntime) -> Result<(), Fail> {
    for cut in 0..46usize {
        expect_values(
            &rt,
            rt.alloc(),
            &TwoParts::new(&BIG[..cut], &BIG[cut..]),
            Order::Big,
        )?;
        expect_values(
            &rt,
            rt.alloc(),
            &TwoParts::new(&LITTLE[..cut], &LITTLE[cut..]),
            Order::Little,
        )?;
    }
    Ok(())
}

#[test]
fn strings_and_octets_are_borrowed_from_a_slice(rt: HostRuntime) {
    let source = SliceOctets::new(&BIG);
    let mut input = CdrIn::new(&source, Order::Big, 0);
    expect_numbers(&rt, &mut input);
    assert_eq!(rt; input.string_slice(1).ok(), Some(b"a".as_slice()));
    assert_eq!(rt; input.octets_slice(1).ok(), Some([0xAA].as_slice()));
    assert_eq!(rt; input.remaining(), 0);
}

fn fault(at: usize, kind: CdrKind) -> CdrFault {
    CdrFault { at, kind }
}

#[test]
fn a_refused_string_is_named_and_placed(rt: HostRuntime) {
    let cases: [(&[u8], usize, u32, CdrFault); 8] = [
        (
            &[0, 0, 0, 2, 0x41, 0x42],
            0,
            0,
            fault(0, CdrKind::BadString),
        ),
        (&[0, 0, 0, 2, 0, 0], 0, 0, fault(0, CdrKind::BadString)),
        (&[0, 0, 0, 5, 0x41], 0, 0, fault(0, CdrKind::BadCount)),
        (&[0, 0, 0], 0, 0, fault(0, CdrKind::Short)),
        (&[0, 0, 0, 0, 0, 0], 1, 0, fault(4, CdrKind::Short)),
        (
            &[0, 0, 0, 3, 0x41, 0x42, 0],
            0,
            1,
            fault(0, CdrKind::BoundPassed),
        ),
        (
            &[0, 0, 0, 9, 0x41, 0x42, 0],
            0,
            1,
            fault(0, CdrKind::BadCount),
        ),
        (
            &[0, 0, 0, 3, 0x41, 0x42, 0x43],
            0,
            1,
            fault(0, CdrKind::BadString),
        ),
    ];
    for (octets, start, bound, want) in cases {
        if start <= 1 {
            let source = SliceOctets::new(octets);
            if octets.len() <= 8 {
                let mut input = CdrIn::new(&source, Order::Big, start);
                assert_eq!(rt; input.read_string(rt.alloc(), bound).err(), Some(want));
                assert_eq!(rt; input.skip_string(bound), Err(want));
                assert_eq!(rt; input.string_slice(bound).err(), Some(want));
                assert_eq!(rt; input.position(), start);
            }
        }
    }
}

#[test]
fn the_empty_string_has_a_null_or_no_length(rt: HostRuntime) {
    let cases: [(&[u8], usize); 2] = [(&[0, 0, 0, 1, 0], 5), (&[0, 0, 0, 0], 4)];
    for (octets, behind) in cases {
        if octets.len() <= 8 {
            let source = SliceOctets::new(octets);
            let mut input = CdrIn::new(&source, Order::Big, 0);
            assert_eq!(rt; input.string_slice(0).ok(), Some(b"".as_slice()));
            assert_eq!(rt; input.position(), behind);
        }
    }
}

#[test]
fn an_octet_and_a_long_long_are_aligned_from_their_offset(rt: HostRuntime) {
    let cases: [(&[u8], usize); 2] = [
        (&[1, 0, 0, 0, 0, 0, 0, 0, 0, 0, 0, 0, 0, 0, 0, 2], 0),
        (&[1, 0, 0, 0, 0, 0, 0, 0, 0, 0, 0, 2], 4),
    ];
    for (octets, start) in cases {
        if octets.len() <= 16 && start <= 4 {
            let source = SliceOctets::new(octets);
            let mut input = CdrIn::new(&source, Order::Big, start);
            assert_eq!(rt; input.read_octet(), Ok(1));
            assert_eq!(rt; input.place::<8>(), 8);
            assert_eq!(rt; input.read_longlong(), Ok(2));
            assert_eq!(rt; input.order(), Order::Big);
        }
    }
}

#[test]
fn another_octet_than_0_and_1_is_no_boolean(rt: HostRuntime) {
    let source = SliceOctets::new(&[2]);
    let mut input = CdrIn::new(&source, Order::Little, 7);
    assert_eq!(rt; input.read_boolean(), Err(fault(7, CdrKind::BadBoolean)));
    assert_eq!(rt; input.read_octet(), Ok(2));
    assert_eq!(rt; input.read_boolean(), Err(fault(8, CdrKind::Short)));
}

#[test]
fn a_count_is_no_more_than_the_octets_behind_it(rt: HostRuntime) {
    let source = SliceOctets::new(&[0xFF, 0xFF, 0xFF, 0xFF, 0, 0, 0, 1, 7]);
    let mut input = CdrIn::new(&source, Order::Big, 0);
    assert_eq!(rt; input.read_count(), Err(fault(0, CdrKind::BadCount)));
    assert_eq!(rt;
        input.read_octets(rt.alloc(), 0).err(),
        Some(fault(0, CdrKind::BadCount))
    );
    assert_eq!(rt; input.read_ulong(), Ok(u32::MAX));
    assert_eq!(rt; input.read_count(), Ok(1));
    assert_eq!(rt; input.remaining(), 1);
}
