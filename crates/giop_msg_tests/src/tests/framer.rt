//! A stream split into its messages, wherever it is cut, and where memory is refused.
use super::streams::{CLOSE, LIMIT, NO_MEMORY, PING, feed, next};
use giop_cdr::Order;
use giop_msg::{Framer, Header, Kind, Msg, Version, WireFault, WireKind, read_pieces};
use std::process::Abort;
use std::test::Fail;

/// The message is the Request of id 1.
fn is_ping(rt: &impl Abort, message: Option<Msg>) -> Result<(), Fail> {
    let message = message.ok_or("no message")?;
    let header = Header {
        version: Version::V12,
        order: Order::Big,
        more: false,
        kind: Kind::Request,
        size: 36,
    };
    assert_eq!(rt; message.payload.as_slice(), &PING[12..]);
    assert_eq!(rt; message.header(), header);
    assert_eq!(rt; message.request_id(), Some(Ok(1)));
    Ok(())
}

/// The message is the CloseConnection.
fn is_close(rt: &impl Abort, message: Option<Msg>) -> Result<(), Fail> {
    let message = message.ok_or("no message")?;
    assert_eq!(rt; message.kind, Kind::CloseConnection);
    assert_eq!(rt; message.payload.len(), 0);
    assert_eq!(rt; message.request_id(), None);
    Ok(())
}

/// Neither a message nor a fault is there, and so many octets are unread.
fn waits(rt: &impl Abort, framer: &mut Framer, rest: usize) -> Result<(), Fail> {
    assert!(rt; next(rt, framer)?.is_none());
    assert_eq!(rt; framer.rest(), rest);
    Ok(())
}

#[test]
fn a_request_and_a_close_behind_it(rt: HostRuntime) -> Result<(), Fail> {
    let mut framer = Framer::new(rt.alloc(), LIMIT);
    waits(&rt, &mut framer, 0)?;
    feed(&rt, &mut framer, &PING)?;
    feed(&rt, &mut framer, &CLOSE)?;
    is_ping(&rt, next(&rt, &mut framer)?)?;
    is_close(&rt, next(&rt, &mut framer)?)?;
    waits(&rt, &mut framer, 0)
}

#[test]
fn messages_before_a_fault_are_taken(rt: HostRuntime) -> Result<(), Fail> {
    let mut framer = Framer::new(rt.alloc(), LIMIT);
    feed(&rt, &mut framer, &PING)?;
    feed(&rt, &mut framer, &CLOSE)?;
    feed(
        &rt,
        &mut framer,
        &[0x47, 0x49, 0x4F, 0x51, 1, 2, 0, 5, 0, 0, 0, 0],
    )?;
    let mut messages = Vec::new(rt.alloc());
    let mut outcome = framer.take_messages(&mut messages);
    if outcome == Err(NO_MEMORY) {
        outcome = framer.take_messages(&mut messages);
    }
    let bad_magic = WireFault {
        at: 3,
        kind: WireKind::BadMagic,
    };
    assert_eq!(rt; outcome, Err(bad_magic));
    assert_eq!(rt; framer.rest(), 12);
    assert_eq!(rt; messages.len(), 2);
    is_close(&rt, messages.pop())?;
    is_ping(&rt, messages.pop())
}

#[test]
fn any_cut_of_a_stream_gives_its_one_split(rt: HostRuntime) -> Result<(), Fail> {
    let mut stream = [0; 60];
    stream[..48].copy_from_slice(&PING);
    stream[48..].copy_from_slice(&CLOSE);
    for cut in 0..61usize {
        let (front, back) = stream.split_at(cut);
        let mut outcome = read_pieces(rt.alloc(), LIMIT, &[front, back]);
        if let Err(fault) = &outcome {
            assert_eq!(rt; *fault, NO_MEMORY);
            outcome = read_pieces(rt.alloc(), LIMIT, &[front, back]);
        }
        let mut reading = outcome?;
        assert!(rt; reading.fault.is_none());
        assert_eq!(rt; reading.framer.rest(), 0);
        assert_eq!(rt; reading.messages.len(), 2, "cut at {cut}");
        is_close(&rt, reading.messages.pop())?;
        is_ping(&rt, reading.messages.pop())?;
    }
    Ok(())
}
