//! What a reader and a writer show of themselves, as a struct of their names shows by `{:?}`.
use giop_cdr::{CdrIn, CdrOut, Order, SliceOctets};
use std::test::Fail;

#[test]
fn a_writer_shows_its_octets(rt: HostRuntime) -> Result<(), Fail> {
    let alloc = rt.alloc();
    let mut out = CdrOut::new(alloc, Order::Big, 12);
    out.write_octet(7)?;
    out.write_ushort(258)?;
    let shown = format!(in alloc; "{out:?}")?;
    let wanted = "CdrOut { order: Big, position: 16, octets: [7, 0, 1, 2] }";
    assert_eq!(rt; shown.as_str(), wanted);
    Ok(())
}

#[test]
fn a_reader_shows_how_much_is_left(rt: HostRuntime) -> Result<(), Fail> {
    let alloc = rt.alloc();
    let source = SliceOctets::new(&[7, 0, 1, 2]);
    let mut input = CdrIn::new(&source, Order::Little, 12);
    assert_eq!(rt; input.read_octet(), Ok(7));
    let shown = format!(in alloc; "{input:?}")?;
    let wanted = "CdrIn { order: Little, position: 13, remaining: 3 }";
    assert_eq!(rt; shown.as_str(), wanted);
    Ok(())
}
