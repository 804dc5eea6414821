//! Each allocation refused in turn: a call is told as it is with memory, or the observer is out of
//! memory and says so.
ghost use Rattle.std.specs.Prelude.{◌≤◌, ◌^◌, length, IfOk};

use giop_cdr::{OctetList, Order};
use giop_msg::{Kind, Msg, Version};
use giop_trace::{Direction, Heard, Observer};
use std::alloc::{AllocError, Global};
use std::test::Fail;

// The most octets of a message that is heard.
const MOST: usize = 1 << 62;

// A message of id 7, of which more is to come or not, and its octets behind the id.
fn message(alloc: Global, kind: Kind, more: bool, behind: &[u8]) -> Result<Msg, AllocError>
    ensures { IfOk result (λ message. length message.payload ≤ 2 ^ 62) }
{
    let mut payload = OctetList::new(alloc);
    payload.extend_from_slice(&Order::Big.ulong_octets(7))?;
    payload.extend_from_slice(behind)?;
    if payload.len() > MOST {
        return Err(AllocError);
    }
    Ok(Msg {
        version: Version::V12,
        order: Order::Big,
        more,
        kind,
        payload,
    })
}

// How many octets were joined of what was asked, and of its answer, where a call is over.
fn joined(heard: &Heard) -> Option<(usize, usize)> {
    let flow = heard.over.as_ref()?;
    let asked = flow.asked.as_ref()?;
    let answer = flow.answer.as_ref()?;
    Some((asked.payload.len(), answer.payload.len()))
}

#[test]
fn a_call_in_pieces_is_told_or_memory_is_out(rt: HostRuntime) -> Result<(), Fail> {
    let alloc = rt.alloc();
    let mut observer = Observer::new(alloc, false);
    let begun = message(alloc, Kind::Request, true, &[3, 0, 0, 0])?;
    assert!(rt; observer.hear(Direction::Client, begun)?.over.is_none());
    assert_eq!(rt; observer.ids(alloc)?.as_slice(), [7].as_slice());
    assert!(rt; observer.flow(7).is_some());
    let rest = message(alloc, Kind::Fragment, false, &[0; 28])?;
    assert!(rt; observer.hear(Direction::Client, rest)?.over.is_none());
    let reply = message(alloc, Kind::Reply, true, &[0; 8])?;
    assert!(rt; observer.hear(Direction::Server, reply)?.over.is_none());
    let last = message(alloc, Kind::Fragment, false, &[9])?;
    let heard = observer.hear(Direction::Server, last)?;
    assert_eq!(rt; (heard.id, joined(&heard)), (Some(7), Some((36, 13))));
    assert!(rt; observer.flow(7).is_none());
    Ok(())
}
