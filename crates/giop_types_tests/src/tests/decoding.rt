//! What `decode` answers at an offset that isn't 0. The other rows are cases of the built program
//! (tests/cases/values).
use super::samples::{checked, pair, row};
use giop_cdr::{CdrFault, CdrIn, CdrKind, Order, SliceOctets};
use giop_types::{CheckedDesc, Desc, Value, decode};
use std::alloc::Global;
use std::test::Fail;

/// What is read of octets whose first has the offset `start`, and the offset behind it.
pub fn read(
    alloc: Global,
    desc: &CheckedDesc,
    octets: &[u8],
    order: Order,
    start: u16,
) -> Result<(Value, usize), CdrFault> {
    let octets = &octets[..octets.len().min(1 << 20)];
    let source = SliceOctets::new(octets);
    let mut input = CdrIn::new(&source, order, start as usize);
    let value = decode(alloc, &mut input, desc)?;
    Ok((value, input.position()))
}

#[test]
fn pads_and_places_count_from_offset_0(rt: HostRuntime) -> Result<(), Fail> {
    let alloc = rt.alloc();
    let octets = [1, 0, 0, 0, 0, 0, 0, 0, 0, 0, 0, 2];
    let members = vec![in alloc; Value::Octet(1), Value::LongLong(2)]?;
    let wanted = Ok((Value::Members(members), 16));
    let pair = checked(pair(alloc)?)?;
    assert_eq!(rt; read(alloc, &pair, &octets, Order::Big, 4), wanted);
    let ulongs = checked(row(alloc, Desc::ULong, 2)?)?;
    let wanted = Err(CdrFault {
        at: 3,
        kind: CdrKind::BadCount,
    });
    assert_eq!(rt; read(alloc, &ulongs, &[0], Order::Big, 3), wanted);
    Ok(())
}
