//! Refused allocations: a framer, a head or a message that is out of memory is as it was, and the
//! same call succeeds later.
use giop_cdr::{CdrOut, EncodeFault, Order, SliceOctets};
use giop_json::{FormFault, interface_from_json};
use giop_msg::{
    Framer, Kind, LocateReply, LocateRequest, Reply, ReplyHead, Request, RequestHead, Version,
    WireFault, WireKind, can_cut, cut, read_pieces,
};
use giop_types::Interface;
use std::alloc::Global;
use std::test::Fail;

const ADD_INTERFACE: &[u8] =
    b"{\"operations\":{\"add\":{\"ins\":[[\"a\",\"long\"],[\"b\",\"long\"]],\
    \"outs\":[[\"sum\",\"long\"]]}}}";

// A Request of id 4 for `add` of 2 and 5, with the context (9, AA): its head ends at 53, and its
// body stands at 56.
const ADD: [u8; 64] = [
    0x47, 0x49, 0x4F, 0x50, 1, 2, 0, 0, 0, 0, 0, 52, 0, 0, 0, 4, 3, 0, 0, 0, 0, 0, 0, 0, 0, 0, 0,
    1, 0x6B, 0, 0, 0, 0, 0, 0, 4, 0x61, 0x64, 0x64, 0, 0, 0, 0, 1, 0, 0, 0, 9, 0, 0, 0, 1, 0xAA, 0,
    0, 0, 0, 0, 0, 2, 0, 0, 0, 5,
];

// The Reply to it, with the context (9, AA): 7.
const SEVEN: [u8; 32] = [
    0, 0, 0, 4, 0, 0, 0, 0, 0, 0, 0, 1, 0, 0, 0, 9, 0, 0, 0, 1, 0xAA, 0, 0, 0, 0, 0, 0, 0, 0, 0, 0,
    7,
];

// A LocateRequest of id 6 for the key `k`, and the LocateReply that an object is forwarded.
const LOCATE: [u8; 13] = [0, 0, 0, 6, 0, 0, 0, 0, 0, 0, 0, 1, 0x6B];

const LOCATED: [u8; 11] = [0, 0, 0, 6, 0, 0, 0, 1, 7, 8, 9];

const NO_MEMORY: WireFault = WireFault {
    at: 0,
    kind: WireKind::NoMemory,
};

// What a step gives; of the same step once more, where memory was wanting.
fn again<T, E: Drop, F: FnMut() -> Result<T, E>>(mut step: F) -> Result<T, E>
    requires { F.IsAlwaysCallable step }
{
    match step() {
        Err(_) => step(),
        answer => answer,
    }
}

#[test]
fn a_framer_without_memory_is_as_it_was(rt: HostRuntime) -> Result<(), Fail> {
    let mut framer = Framer::new(rt.alloc(), 1024);
    for piece in [&ADD[..20], &ADD[20..]] {
        let rest = framer.rest();
        if let Err(fault) = framer.feed(piece) {
            assert_eq!(rt; (fault, framer.rest()), (NO_MEMORY, rest));
            framer.feed(piece)?;
        }
    }
    let found = match framer.next() {
        Err(fault) => {
            assert_eq!(rt; (fault, framer.rest()), (NO_MEMORY, 64));
            framer.next()?
        }
        Ok(found) => found,
    };
    let message = found.ok_or("no message")?;
    assert_eq!(rt; message.payload.as_slice(), &ADD[12..]);
    assert_eq!(rt; framer.rest(), 0);
    Ok(())
}

#[test]
fn messages_are_taken_again(rt: HostRuntime) -> Result<(), Fail> {
    let alloc = rt.alloc();
    let mut framer = Framer::new(alloc, 1024);
    let mut messages = Vec::new(alloc);
    again(|| framer.feed(&ADD))?;
    if let Err(fault) = framer.take_messages(&mut messages) {
        assert_eq!(rt; fault, NO_MEMORY);
        framer.take_messages(&mut messages)?;
    }
    let reading = again(|| read_pieces(alloc, 1024, &[&ADD[..30], &ADD[30..]]))?;
    assert!(rt; reading.messages == messages);
    assert_eq!(rt; (messages.len(), framer.rest()), (1, 0));
    Ok(())
}

#[test]
fn a_request_head_without_memory_is_not_written(rt: HostRuntime) -> Result<(), Fail> {
    let alloc = rt.alloc();
    let joined = SliceOctets::new(&ADD[12..]);
    let (head, _) = again(|| RequestHead::decode(alloc, &joined, Version::V12, Order::Big))?;
    let mut out = CdrOut::new(alloc, Order::Big, 12);
    if let Err(fault) = head.write(&mut out) {
        assert_eq!(rt; fault, EncodeFault::NoMemory);
        assert_eq!(rt; (out.as_slice().len(), out.position()), (0, 12));
        head.write(&mut out)?;
    }
    assert_eq!(rt; out.as_slice(), &ADD[12..53]);
    Ok(())
}

#[test]
fn a_reply_head_without_memory_is_not_written(rt: HostRuntime) -> Result<(), Fail> {
    let alloc = rt.alloc();
    let joined = SliceOctets::new(&SEVEN);
    let (head, _) = again(|| ReplyHead::decode(alloc, &joined, Version::V12, Order::Big))?;
    let mut out = CdrOut::new(alloc, Order::Big, 12);
    if let Err(fault) = head.write(&mut out) {
        assert_eq!(rt; fault, EncodeFault::NoMemory);
        assert_eq!(rt; (out.as_slice().len(), out.position()), (0, 12));
        head.write(&mut out)?;
    }
    assert_eq!(rt; out.as_slice(), &SEVEN[..21]);
    Ok(())
}

fn add_interface(alloc: Global) -> Result<Interface, FormFault> {
    again(|| interface_from_json(alloc, ADD_INTERFACE))
}

fn add_request(alloc: Global, interface: &Interface) -> Option<Request> {
    let joined = SliceOctets::new(&ADD[12..]);
    again(|| Request::decode(alloc, interface, &joined, Version::V12, Order::Big)).ok()
}

#[test]
fn a_request_is_decoded_and_encoded_again(rt: HostRuntime) -> Result<(), Fail> {
    let interface = add_interface(rt.alloc())?;
    let request = add_request(rt.alloc(), &interface).ok_or("no request")?;
    let octets = again(|| request.encode(rt.alloc(), &interface, Order::Big))?;
    assert_eq!(rt; octets.as_slice(), &ADD[12..]);
    Ok(())
}

// What the Reply `SEVEN` to the Request `ADD` says, written again.
fn reply_again(alloc: Global, interface: &Interface, request: Option<&Request>) -> Option<Vec<u8>> {
    let joined = SliceOctets::new(&SEVEN);
    let reply = again(|| Reply::decode(
        alloc,
        interface,
        request,
        &joined,
        Version::V12,
        Order::Big,
    ));
    let reply = reply.ok()?;
    again(|| reply.encode(alloc, interface, request, Order::Big)).ok()
}

#[test]
fn a_reply_is_decoded_and_encoded_again(rt: HostRuntime) -> Result<(), Fail> {
    let interface = add_interface(rt.alloc())?;
    let request = add_request(rt.alloc(), &interface);
    let octets = reply_again(rt.alloc(), &interface, request.as_ref()).ok_or("no reply")?;
    assert_eq!(rt; octets.as_slice(), SEVEN.as_slice());
    Ok(())
}

#[test]
fn a_reply_is_cut_again(rt: HostRuntime) -> Result<(), Fail> {
    assert!(rt; can_cut(Kind::Reply, &SEVEN, 24));
    if can_cut(Kind::Reply, &SEVEN, 24) {
        let (version, order) = (Version::V12, Order::Big);
        let messages = again(|| cut(rt.alloc(), version, Kind::Reply, order, &SEVEN, 24))?;
        assert_eq!(rt; messages.len(), 4);
    }
    Ok(())
}

#[test]
fn a_locate_request_is_decoded_and_encoded_again(rt: HostRuntime) -> Result<(), Fail> {
    let joined = SliceOctets::new(&LOCATE);
    let (version, order) = (Version::V12, Order::Big);
    let locate = again(|| LocateRequest::decode(rt.alloc(), &joined, version, order))?;
    let octets = again(|| locate.encode(rt.alloc(), order))?;
    assert_eq!(rt; octets.as_slice(), LOCATE.as_slice());
    Ok(())
}

#[test]
fn a_locate_reply_is_decoded_and_encoded_again(rt: HostRuntime) -> Result<(), Fail> {
    let joined = SliceOctets::new(&LOCATED);
    let (version, order) = (Version::V12, Order::Big);
    let located = again(|| LocateReply::decode(rt.alloc(), &joined, version, order))?;
    let octets = again(|| located.encode(rt.alloc(), order))?;
    assert_eq!(rt; octets.as_slice(), LOCATED.as_slice());
    Ok(())
}
