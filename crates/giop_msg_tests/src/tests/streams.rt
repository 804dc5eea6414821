//! Two messages, and a framer that is fed and asked again where memory was refused.
use giop_msg::{Framer, Msg, WireFault, WireKind};
use std::process::Abort;
use std::test::Fail;

/// A Request of id 1 for the operation `ping`, big-endian: 48 octets.
pub const PING: [u8; 48] = [
    0x47, 0x49, 0x4F, 0x50, 1, 2, 0, 0, 0, 0, 0, 0x24, 0, 0, 0, 1, 3, 0, 0, 0, 0, 0, 0, 0, 0, 0, 0,
    1, 0x6B, 0, 0, 0, 0, 0, 0, 5, 0x70, 0x69, 0x6E, 0x67, 0, 0, 0, 0, 0, 0, 0, 0,
];

/// A CloseConnection.
pub const CLOSE: [u8; 12] = [0x47, 0x49, 0x4F, 0x50, 1, 2, 0, 5, 0, 0, 0, 0];

/// The greatest message size in these tests.
pub const LIMIT: u32 = 1024;

pub const NO_MEMORY: WireFault = WireFault {
    at: 0,
    kind: WireKind::NoMemory,
};

/// Feeds the octets. Where memory is refused, nothing has changed, and the same call then succeeds.
pub fn feed(rt: &impl Abort, framer: &mut Framer, octets: &[u8]) -> Result<(), Fail> {
    let rest = framer.rest();
    if let Err(fault) = framer.feed(octets) {
        assert_eq!(rt; fault, NO_MEMORY);
        assert_eq!(rt; framer.rest(), rest);
        framer.feed(octets)?;
    }
    Ok(())
}

/// The next message. Where memory is refused, nothing has changed, and the same call then succeeds.
pub fn next(rt: &impl Abort, framer: &mut Framer) -> Result<Option<Msg>, WireFault> {
    let rest = framer.rest();
    match framer.next() {
        Err(fault) if fault == NO_MEMORY => {
            assert_eq!(rt; framer.rest(), rest);
            framer.next()
        }
        found => found,
    }
}
