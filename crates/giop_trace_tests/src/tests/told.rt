//! Messages by a few words, and what an observer tells as a line.
ghost use Rattle.std.specs.Prelude.{◌≤◌, ◌^◌, length, IfOk};

use giop_cdr::{OctetList, Order};
use giop_msg::{Kind, Msg, Version};
use giop_trace::{Direction, Flow, Observer};
use std::alloc::{AllocError, Global};
use std::process::Abort;
use std::test::Fail;

// The most octets of a message that is heard.
const MOST: usize = 1 << 62;

/// A message behind its request id.
#[derive(Clone, Copy)]
pub struct Brought {
    pub by: Direction,
    pub kind: Kind,
    pub order: Order,
    pub more: bool,
    pub id: u32,
    pub behind: &'static [u8],
}

/// The octets of a Request of `ping` at the key `k` behind its id: with response flags 3, so that
/// it is answered, and with 0, so that it isn't.
pub const ASKED: [u8; 32] = [
    3, 0, 0, 0, 0, 0, 0, 0, 0, 0, 0, 1, b'k', 0, 0, 0, 0, 0, 0, 5, b'p', b'i', b'n', b'g', 0, 0, 0,
    0, 0, 0, 0, 0,
];

pub const ONEWAY: [u8; 32] = [
    0, 0, 0, 0, 0, 0, 0, 0, 0, 0, 0, 1, b'k', 0, 0, 0, 0, 0, 0, 5, b'p', b'i', b'n', b'g', 0, 0, 0,
    0, 0, 0, 0, 0,
];
/// The octets of a Reply behind its id: NO_EXCEPTION, and no contexts.
pub const DONE: [u8; 8] = [0; 8];

/// A whole big-endian message.
pub const fn whole(by: Direction, kind: Kind, id: u32, behind: &'static [u8]) -> Brought {
    Brought {
        by,
        kind,
        order: Order::Big,
        more: false,
        id,
        behind,
    }
}

/// One of which more is to come.
pub const fn first(by: Direction, kind: Kind, id: u32, behind: &'static [u8]) -> Brought {
    Brought {
        by,
        kind,
        order: Order::Big,
        more: true,
        id,
        behind,
    }
}

/// The message.
pub fn message(alloc: Global, brought: Brought) -> Result<Msg, AllocError>
    ensures { IfOk result (λ message. length message.payload ≤ 2 ^ 62) }
{
    let mut payload = OctetList::new(alloc);
    if brought.kind.has_request_id() {
        payload.extend_from_slice(&brought.order.ulong_octets(brought.id))?;
    }
    payload.extend_from_slice(brought.behind)?;
    if payload.len() > MOST {
        return Err(AllocError);
    }
    Ok(Msg {
        version: Version::V12,
        order: brought.order,
        more: brought.more,
        kind: brought.kind,
        payload,
    })
}

/// What is told of it: its id, the call before it, and the one that is over.
pub fn told(
    alloc: Global,
    observer: &mut Observer,
    brought: Brought,
) -> Result<String, AllocError> {
    let message = message(alloc, brought)?;
    let heard = observer.hear(brought.by, message)?;
    let mut line = match heard.id {
        Some(id) => format!(in alloc; "{id}")?,
        None => String::from_str(alloc, "-")?,
    };
    if let Some(flow) = &heard.earlier {
        line.push_str(" before")?;
        add_flow(alloc, &mut line, flow)?;
    }
    if let Some(flow) = &heard.over {
        line.push_str(" over")?;
        add_flow(alloc, &mut line, flow)?;
    }
    Ok(line)
}

fn add_flow(alloc: Global, line: &mut String, flow: &Flow) -> Result<(), AllocError> {
    add_message(alloc, line, " asked", &flow.asked)?;
    add_message(alloc, line, " answer", &flow.answer)?;
    if flow.cancelled {
        line.push_str(" cancelled")?;
    }
    Ok(())
}

// A message as the number of its joined octets, and `..` where more is to come.
fn add_message(
    alloc: Global,
    line: &mut String,
    name: &str,
    message: &Option<Msg>,
) -> Result<(), AllocError> {
    let Some(message) = message else {
        return Ok(());
    };
    line.push_str(name)?;
    let count = format!(in alloc; " {}", message.payload.len())?;
    line.push_str(count.as_str())?;
    if message.more {
        line.push_str("..")?;
    }
    Ok(())
}

/// Looks that of each message this is told, by an observer that is `alone` or not.
pub fn check(
    rt: &(impl Abort + AllocGlobal),
    alone: bool,
    rows: &[(Brought, &str)],
) -> Result<(), Fail> {
    let mut observer = Observer::new(rt.alloc(), alone);
    for (brought, line) in rows {
        assert_eq!(rt; told(rt.alloc(), &mut observer, *brought)?.as_str(), *line);
    }
    Ok(())
}
