//! Primitives and strings, written and compared with octets worked by hand.
use giop_cdr::{CdrOut, Order};
use std::alloc::AllocError;
use std::test::Fail;

fn write_values(out: &mut CdrOut) -> Result<(), AllocError> {
    out.write_boolean(true)?;
    out.write_char(0x41)?;
    out.write_short(-2)?;
    out.write_long(-1)?;
    out.write_ushort(1)?;
    out.write_octet(9)?;
    out.write_ulong(258)?;
    out.write_longlong(-1)?;
    out.write_ulonglong(1)?;
    out.write_string(b"a")?;
    out.align(4)?;
    out.write_octets(&[0xAA])
}

#[test]
fn each_primitive_is_written_in_big_endian(rt: HostRuntime) -> Result<(), Fail> {
    let mut out = CdrOut::new(rt.alloc(), Order::Big, 0);
    write_values(&mut out)?;
    assert_eq!(rt; out.position(), 45);
    assert_eq!(rt; out.order(), Order::Big);
    let want = [
        0x01, 0x41, 0xFF, 0xFE, 0xFF, 0xFF, 0xFF, 0xFF, 0x00, 0x01, 0x09, 0x00, 0x00, 0x00, 0x01,
        0x02, 0xFF, 0xFF, 0xFF, 0xFF, 0xFF, 0xFF, 0xFF, 0xFF, 0x00, 0x00, 0x00, 0x00, 0x00, 0x00,
        0x00, 0x01, 0x00, 0x00, 0x00, 0x02, 0x61, 0x00, 0x00, 0x00, 0x00, 0x00, 0x00, 0x01, 0xAA,
    ];
    assert_eq!(rt; out.as_slice(), want.as_slice());
    Ok(())
}

#[test]
fn each_primitive_is_written_in_little_endian(rt: HostRuntime) -> Result<(), Fail> {
    let mut out = CdrOut::new(rt.alloc(), Order::Little, 0);
    write_values(&mut out)?;
    let want = [
        0x01, 0x41, 0xFE, 0xFF, 0xFF, 0xFF, 0xFF, 0xFF, 0x01, 0x00, 0x09, 0x00, 0x02, 0x01, 0x00,
        0x00, 0xFF, 0xFF, 0xFF, 0xFF, 0xFF, 0xFF, 0xFF, 0xFF, 0x01, 0x00, 0x00, 0x00, 0x00, 0x00,
        0x00, 0x00, 0x02, 0x00, 0x00, 0x00, 0x61, 0x00, 0x00, 0x00, 0x01, 0x00, 0x00, 0x00, 0xAA,
    ];
    assert_eq!(rt; out.into_bytes().as_slice(), want.as_slice());
    Ok(())
}

#[test]
fn an_octet_and_a_long_long_are_aligned_from_their_offset(rt: HostRuntime) -> Result<(), Fail> {
    let rows: [(Order, usize, &[u8]); 3] = [
        (
            Order::Big,
            0,
            &[1, 0, 0, 0, 0, 0, 0, 0, 0, 0, 0, 0, 0, 0, 0, 2],
        ),
        (Order::Big, 4, &[1, 0, 0, 0, 0, 0, 0, 0, 0, 0, 0, 2]),
        (
            Order::Little,
            0,
            &[1, 0, 0, 0, 0, 0, 0, 0, 2, 0, 0, 0, 0, 0, 0, 0],
        ),
    ];
    for (order, start, want) in rows {
        if start <= 4 {
            let mut out = CdrOut::new(rt.alloc(), order, start);
            out.write_octet(1)?;
            out.write_longlong(2)?;
            assert_eq!(rt; out.as_slice(), want);
        }
    }
    Ok(())
}

#[test]
fn the_empty_string_is_written_with_its_null(rt: HostRuntime) -> Result<(), Fail> {
    let mut out = CdrOut::new(rt.alloc(), Order::Big, 0);
    out.write_string(b"")?;
    assert_eq!(rt; out.as_slice(), [0, 0, 0, 1, 0].as_slice());
    Ok(())
}

#[test]
fn what_came_after_a_checkpoint_is_taken_back(rt: HostRuntime) -> Result<(), Fail> {
    let mut out = CdrOut::new(rt.alloc(), Order::Big, 0);
    out.write_octet(7)?;
    let point = out.checkpoint();
    let mark = out.begin_encapsulation(Order::Little)?;
    assert_eq!(rt; out.can_end(&mark), true);
    assert!(rt; out.can_go_back(&point));
    out.back_to(point);
    assert_eq!(rt; (out.position(), out.order()), (1, Order::Big));
    out.write_ushort(1)?;
    assert_eq!(rt; out.as_slice(), [7, 0, 0, 1].as_slice());
    Ok(())
}
