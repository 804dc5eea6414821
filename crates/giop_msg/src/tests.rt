//! What no clause says: octets that the standard's rules give, worked by hand; the printed names;
//! and that each call succeeds with ample memory, and again after a refused allocation.

use crate::{Framer, Msg, WireFault, WireKind};
use std::process::Abort;
use std::test::Fail;

mod cutting;
mod framer;
mod header;
mod heads;
mod messages;
mod replies;
mod replies_written;
mod request_head;
mod request_id;

/// A Request of id 1 for the operation `ping`, big-endian: 48 octets.
const PING: [u8; 48] = [
    0x47, 0x49, 0x4F, 0x50, 1, 2, 0, 0, 0, 0, 0, 0x24, 0, 0, 0, 1, 3, 0, 0, 0, 0, 0, 0, 0, 0, 0, 0,
    1, 0x6B, 0, 0, 0, 0, 0, 0, 5, 0x70, 0x69, 0x6E, 0x67, 0, 0, 0, 0, 0, 0, 0, 0,
];

/// A CloseConnection.
const CLOSE: [u8; 12] = [0x47, 0x49, 0x4F, 0x50, 1, 2, 0, 5, 0, 0, 0, 0];

/// The greatest message size in these tests.
const LIMIT: u32 = 1024;

const NO_MEMORY: WireFault = WireFault {
    at: 0,
    kind: WireKind::NoMemory,
};

/// Feeds the octets. Where memory is refused, nothing has changed, and the same call then succeeds.
fn feed(rt: &impl Abort, framer: &mut Framer, octets: &[u8]) -> Result<(), Fail> {
    let rest = framer.rest();
    if let Err(fault) = framer.feed(octets) {
        assert_eq!(rt; fault, NO_MEMORY);
        assert_eq!(rt; framer.rest(), rest);
        framer.feed(octets)?;
    }
    Ok(())
}

/// The next message. Where memory is refused, nothing has changed, and the same call then succeeds.
fn next(rt: &impl Abort, framer: &mut Framer) -> Result<Option<Msg>, WireFault> {
    let rest = framer.rest();
    match framer.next() {
        Err(fault) if fault == NO_MEMORY => {
            assert_eq!(rt; framer.rest(), rest);
            framer.next()
        }
        found => found,
    }
}
