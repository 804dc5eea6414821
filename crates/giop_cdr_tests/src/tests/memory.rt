//! Refused allocations: a write, a beginning or a read that is out of memory changes nothing.
use giop_cdr::{CdrIn, CdrOut, OctetList, Order, SliceOctets};
use std::alloc::{AllocError, Global};
use std::process::Abort;
use std::test::Fail;

// Calls a step again where memory was wanting, which then left the output as it was.
fn insist<F: FnMut(&mut CdrOut) -> Result<(), AllocError>>(
    rt: &impl Abort,
    out: &mut CdrOut,
    mut step: F,
) -> Result<(), AllocError>
    requires { F.IsAlwaysCallable step }
{
    let before = out.as_slice().len();
    let at = out.position();
    let order = out.order();
    if step(out).is_ok() {
        return Ok(());
    }
    assert_eq!(rt; out.as_slice().len(), before);
    assert_eq!(rt; out.position(), at);
    assert_eq!(rt; out.order(), order);
    step(out)
}

#[test]
fn a_refused_write_changes_nothing(rt: HostRuntime) -> Result<(), Fail> {
    let mut out = CdrOut::new(rt.alloc(), Order::Big, 4);
    insist(&rt, &mut out, |out| out.write_octet(1))?;
    insist(&rt, &mut out, |out| out.write_longlong(2))?;
    insist(
        &rt,
        &mut out,
        |out| out.write_string(b"a text that wants more room than is there"),
    )?;
    insist(&rt, &mut out, |out| out.align(8))?;
    insist(&rt, &mut out, |out| out.write_octets(&[7; 100]))?;
    assert_eq!(rt; out.as_slice().len(), 164);
    assert_eq!(rt;
        &out.as_slice()[..12],
        [1, 0, 0, 0, 0, 0, 0, 0, 0, 0, 0, 2].as_slice()
    );
    assert_eq!(rt;
        &out.as_slice()[12..20],
        [0, 0, 0, 42, b'a', b' ', b't', b'e'].as_slice()
    );
    Ok(())
}

#[test]
fn a_refused_beginning_changes_nothing(rt: HostRuntime) -> Result<(), Fail> {
    let mut out = CdrOut::new(rt.alloc(), Order::Big, 1);
    let mark = match out.begin_encapsulation(Order::Little) {
        Ok(mark) => mark,
        Err(_) => {
            assert_eq!(rt; (out.position(), out.order()), (1, Order::Big));
            assert_eq!(rt; out.as_slice().len(), 0);
            out.begin_encapsulation(Order::Little)?
        }
    };
    insist(&rt, &mut out, |out| out.write_ulong(258))?;
    assert!(rt; out.can_end(&mark));
    out.end_encapsulation(mark);
    assert_eq!(rt;
        out.as_slice(),
        [0, 0, 0, 0, 0, 0, 8, 1, 0, 0, 0, 2, 1, 0, 0].as_slice()
    );
    Ok(())
}

fn read_twice(rt: &impl Abort, alloc: Global, input: &mut CdrIn<SliceOctets>) -> Option<Vec<u8>> {
    let position = input.position();
    if let Ok(text) = input.read_string(alloc, 0) {
        return Some(text);
    }
    assert_eq!(rt; input.position(), position);
    input.read_string(alloc, 0).ok()
}

#[test]
fn a_string_that_wants_memory_is_read_again(rt: HostRuntime) -> Result<(), Fail> {
    let source = SliceOctets::new(&[0, 0, 0, 3, b'a', b'b', 0]);
    let mut input = CdrIn::new(&source, Order::Big, 0);
    let text = read_twice(&rt, rt.alloc(), &mut input).ok_or("no text")?;
    assert_eq!(rt; text.as_slice(), b"ab".as_slice());
    Ok(())
}

fn list_of(alloc: Global, octets: &[u8]) -> Result<OctetList, AllocError> {
    match OctetList::from_slice(alloc, octets) {
        Ok(list) => Ok(list),
        Err(_) => OctetList::from_slice(alloc, octets),
    }
}

#[test]
fn a_list_of_octets_is_made_and_grows(rt: HostRuntime) -> Result<(), Fail> {
    let empty = OctetList::new(rt.alloc());
    assert_eq!(rt; (empty.len(), empty.is_empty()), (0, true));
    let mut list = list_of(rt.alloc(), &[1, 2])?;
    if list.extend_from_slice(&[3]).is_err() {
        assert_eq!(rt; list.as_slice(), [1, 2].as_slice());
        list.extend_from_slice(&[3])?;
    }
    assert_eq!(rt; list == list_of(rt.alloc(), &[1, 2, 3])?, true);
    assert_eq!(rt; list == empty, false);
    assert_eq!(rt;
        OctetList::from(list.into_vec()).as_slice(),
        [1, 2, 3].as_slice()
    );
    Ok(())
}
