//! Messages cut into fragments (CORBA 3.3 Part 2, 9.4.9), also where memory is refused.
use super::streams::{LIMIT, PING, feed, next};
use giop_cdr::Order;
use giop_msg::{Framer, Kind, Msg, Version, can_cut, cut};
use std::alloc::{AllocError, Global};
use std::test::Fail;

// A LocateRequest of id 6 for the key `k`.
const LOCATE: [u8; 25] = [
    0x47, 0x49, 0x4F, 0x50, 1, 2, 0, 3, 0, 0, 0, 13, 0, 0, 0, 6, 0, 0, 0, 0, 0, 0, 0, 1, 0x6B,
];

// The Request of id 1 in messages of 24 octets.
const PING_IN_FOUR: [u8; 96] = [
    0x47, 0x49, 0x4F, 0x50, 1, 2, 2, 0, 0, 0, 0, 12, 0, 0, 0, 1, 3, 0, 0, 0, 0, 0, 0, 0, 0x47,
    0x49, 0x4F, 0x50, 1, 2, 2, 7, 0, 0, 0, 12, 0, 0, 0, 1, 0, 0, 0, 1, 0x6B, 0, 0, 0, 0x47, 0x49,
    0x4F, 0x50, 1, 2, 2, 7, 0, 0, 0, 12, 0, 0, 0, 1, 0, 0, 0, 5, 0x70, 0x69, 0x6E, 0x67, 0x47,
    0x49, 0x4F, 0x50, 1, 2, 0, 7, 0, 0, 0, 12, 0, 0, 0, 1, 0, 0, 0, 0, 0, 0, 0, 0,
];

// The Request in messages of 40 octets, of which the last has 24.
const PING_IN_TWO: [u8; 64] = [
    0x47, 0x49, 0x4F, 0x50, 1, 2, 2, 0, 0, 0, 0, 28, 0, 0, 0, 1, 3, 0, 0, 0, 0, 0, 0, 0, 0, 0, 0,
    1, 0x6B, 0, 0, 0, 0, 0, 0, 5, 0x70, 0x69, 0x6E, 0x67, 0x47, 0x49, 0x4F, 0x50, 1, 2, 0, 7, 0, 0,
    0, 12, 0, 0, 0, 1, 0, 0, 0, 0, 0, 0, 0, 0,
];

// The LocateRequest in messages of 24 octets, of which the last has 17, the fewest that one may
// have.
const LOCATE_IN_TWO: [u8; 41] = [
    0x47, 0x49, 0x4F, 0x50, 1, 2, 2, 3, 0, 0, 0, 12, 0, 0, 0, 6, 0, 0, 0, 0, 0, 0, 0, 1, 0x47,
    0x49, 0x4F, 0x50, 1, 2, 0, 7, 0, 0, 0, 5, 0, 0, 0, 6, 0x6B,
];

// The messages, none where these can't be cut so; again where memory was wanting.
fn cut_again(
    alloc: Global,
    version: Version,
    kind: Kind,
    joined: &[u8],
    piece: u32,
) -> Result<Vec<Msg>, AllocError> {
    if !can_cut(kind, joined, piece) {
        return Ok(Vec::new(alloc));
    }
    match cut(alloc, version, kind, Order::Big, joined, piece) {
        Err(_) => cut(alloc, version, kind, Order::Big, joined, piece),
        messages => messages,
    }
}

// What was cut is what a framer reads of these octets.
fn is_stream(
    rt: &(impl AllocGlobal + std::process::Abort),
    messages: &[Msg],
    octets: &[u8],
) -> Result<(), Fail> {
    let mut framer = Framer::new(rt.alloc(), LIMIT);
    feed(rt, &mut framer, octets)?;
    for message in messages {
        let read = next(rt, &mut framer)?.ok_or("no message")?;
        assert!(rt; read == *message);
    }
    assert_eq!(rt; framer.rest(), 0);
    Ok(())
}

#[test]
fn a_message_is_cut_into_pieces_of_a_size(rt: HostRuntime) -> Result<(), Fail> {
    let rows: [(Kind, &[u8], u32, usize, &[u8]); 6] = [
        (Kind::Request, &PING, 48, 1, &PING),
        (Kind::Request, &PING, 1_048_584, 1, &PING),
        (Kind::Request, &PING, 40, 2, &PING_IN_TWO),
        (Kind::Request, &PING, 24, 4, &PING_IN_FOUR),
        (Kind::LocateRequest, &LOCATE, 24, 2, &LOCATE_IN_TWO),
        (Kind::LocateRequest, &LOCATE, 32, 1, &LOCATE),
    ];
    for (kind, message, piece, count, octets) in rows {
        let messages = cut_again(rt.alloc(), Version::V12, kind, &message[12..], piece)?;
        assert_eq!(rt; messages.len(), count, "{piece}");
        is_stream(&rt, messages.as_slice(), octets)?;
    }
    Ok(())
}
