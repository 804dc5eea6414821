//! Encapsulations (CORBA 3.3 Part 2, 9.3.3): their own byte order and alignment, one inside
//! another.
use giop_cdr::{CdrFault, CdrIn, CdrKind, CdrOut, Order, SliceOctets};
use std::test::Fail;

#[test]
fn the_order_and_alignment_inside_end_with_the_encapsulation(rt: HostRuntime) -> Result<(), Fail> {
    let mut out = CdrOut::new(rt.alloc(), Order::Big, 0);
    let mark = out.begin_encapsulation(Order::Little)?;
    out.write_ulonglong(7)?;
    assert!(rt; out.can_end(&mark));
    out.end_encapsulation(mark);
    out.write_ushort(1)?;
    let want = [
        0x00, 0x00, 0x00, 0x10, 0x01, 0x00, 0x00, 0x00, 0x00, 0x00, 0x00, 0x00, 0x07, 0x00, 0x00,
        0x00, 0x00, 0x00, 0x00, 0x00, 0x00, 0x01,
    ];
    assert_eq!(rt; out.as_slice(), want.as_slice());

    let source = SliceOctets::new(&want);
    let mut input = CdrIn::new(&source, Order::Big, 0);
    let Ok(mut content) = input.open_encapsulation() else {
        return Err(Fail::from("not opened"));
    };
    assert_eq!(rt; content.order(), Order::Little);
    assert_eq!(rt; content.read_ulonglong(), Ok(7));
    assert_eq!(rt; content.remaining(), 0);
    assert_eq!(rt; input.read_ushort(), Ok(1));
    Ok(())
}

#[test]
fn an_encapsulation_inside_another_has_its_own_order(rt: HostRuntime) -> Result<(), Fail> {
    let mut out = CdrOut::new(rt.alloc(), Order::Little, 4);
    let outer = out.begin_encapsulation(Order::Big)?;
    out.write_octet(5)?;
    let inner = out.begin_encapsulation(Order::Little)?;
    out.write_ushort(258)?;
    assert!(rt; out.can_end(&inner));
    out.end_encapsulation(inner);
    out.write_ushort(258)?;
    assert!(rt; out.can_end(&outer));
    out.end_encapsulation(outer);
    out.write_ulong(258)?;
    // Outer length, order octet, 5, pads, inner length, order octet, pad, 258 little, 258 big; then
    // 258.
    let want = [
        14, 0, 0, 0, 0, 5, 0, 0, 0, 0, 0, 4, 1, 0, 2, 1, 1, 2, 0, 0, 2, 1, 0, 0,
    ];
    assert_eq!(rt; out.as_slice(), want.as_slice());
    Ok(())
}

#[test]
fn an_encapsulation_without_a_byte_order_is_refused_there(rt: HostRuntime) {
    let cases: [(&[u8], CdrFault); 4] = [
        (
            &[0, 0, 0, 1, 2],
            CdrFault {
                at: 4,
                kind: CdrKind::BadOrder,
            },
        ),
        (
            &[0, 0, 0, 0],
            CdrFault {
                at: 4,
                kind: CdrKind::Short,
            },
        ),
        (
            &[0, 0, 0, 2, 0],
            CdrFault {
                at: 0,
                kind: CdrKind::BadCount,
            },
        ),
        (
            &[0, 0, 0],
            CdrFault {
                at: 0,
                kind: CdrKind::Short,
            },
        ),
    ];
    for (octets, want) in cases {
        if octets.len() <= 8 {
            let source = SliceOctets::new(octets);
            let mut input = CdrIn::new(&source, Order::Big, 0);
            assert_eq!(rt; input.open_encapsulation().err(), Some(want));
            assert_eq!(rt; input.position(), 0);
        }
    }
}
