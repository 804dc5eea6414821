//! Sequences of longs, read and written at once: octets by the standard's rules (9.3.1.2, 9.3.2.5).
use giop_cdr::{CdrFault, CdrIn, CdrKind, CdrOut, Order, SliceOctets};
use std::test::Fail;

// The order, the offset of the first octet, the octets, and the longs that they are.
const SEQUENCES: [(Order, usize, &[u8], &[i32]); 5] = [
    (Order::Big, 0, &[0, 0, 0, 0], &[]),
    (
        Order::Big,
        12,
        &[
            0, 0, 0, 3, 0, 0, 0, 1, 0xFF, 0xFF, 0xFF, 0xFE, 0x80, 0, 0, 0,
        ],
        &[1, -2, i32::MIN],
    ),
    (
        Order::Little,
        0,
        &[2, 0, 0, 0, 1, 0, 0, 0, 0xFE, 0xFF, 0xFF, 0xFF],
        &[1, -2],
    ),
    (
        Order::Little,
        1,
        &[0, 0, 0, 1, 0, 0, 0, 0x0D, 0x0C, 0x0B, 0x0A],
        &[0x0A0B0C0D],
    ),
    (
        Order::Big,
        6,
        &[0, 0, 0, 0, 0, 1, 0x0A, 0x0B, 0x0C, 0x0D],
        &[0x0A0B0C0D],
    ),
];

// Big-endian octets from the offset 0 on, and why they are no sequence of longs.
const REFUSED: [(&[u8], usize, CdrKind); 5] = [
    (&[], 0, CdrKind::Short),
    (&[0, 0, 0], 0, CdrKind::Short),
    (&[0, 0, 0, 4, 0, 0, 0], 0, CdrKind::BadCount),
    (&[0, 0, 0, 1, 0, 0, 0], 4, CdrKind::Short),
    (
        &[0, 0, 0, 3, 0, 0, 0, 1, 0, 0, 0, 2, 0, 0],
        12,
        CdrKind::Short,
    ),
];

#[test]
fn longs_are_their_count_and_as_many(rt: HostRuntime) -> Result<(), Fail> {
    let alloc = rt.alloc();
    for (order, start, octets, longs) in SEQUENCES {
        let source = SliceOctets::new(octets);
        let mut input = CdrIn::new(&source, order, start);
        let read = input.read_longs(alloc)?;
        assert_eq!(rt; read.as_slice(), longs);
        assert_eq!(rt;
            (input.remaining(), input.position()),
            (0, start + octets.len())
        );
        let mut out = CdrOut::new(alloc, order, start);
        out.write_longs(read.as_slice())?;
        assert_eq!(rt; out.as_slice(), octets);
    }
    Ok(())
}

#[test]
fn the_first_long_that_is_not_there_is_told(rt: HostRuntime) -> Result<(), Fail> {
    for (octets, at, kind) in REFUSED {
        let source = SliceOctets::new(octets);
        let mut input = CdrIn::new(&source, Order::Big, 0);
        let fault = input.read_longs(rt.alloc()).err().ok_or("read")?;
        assert!(rt; fault == CdrFault { at, kind }, "{fault}");
        assert_eq!(rt; (input.remaining(), input.position()), (octets.len(), 0));
    }
    Ok(())
}
