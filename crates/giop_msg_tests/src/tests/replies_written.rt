//! Replies that no octets spell. Those that are spelled are rows (tests/cases/replies).
use super::messages::decode;
use giop_cdr::{CdrFault, CdrKind, EncodeFault, OctetList, Order, SliceOctets};
use giop_msg::{Reply, ReplyBody, Request, Version};
use giop_types::{FormFault, Interface, Value, ValueList};
use std::alloc::{AllocError, Global};
use std::process::Abort;
use std::test::Fail;

const J: &[u8] =
    b"{\"operations\":{\"ping\":{},\"add\":{\"outs\":[[\"sum\",\"long\"]]}},\"exceptions\":{\"E\":[[\"why\",\"string\"],[\"code\",\"long\"]],\"N\":[]}}";

// Request 4 of 1.2 for `add`.
const ADD: &[u8] = &[
    0, 0, 0, 4, 3, 0, 0, 0, 0, 0, 0, 0, 0, 0, 0, 1, 0x6B, 0, 0, 0, 0, 0, 0, 4, 0x61, 0x64, 0x64, 0,
    0, 0, 0, 0,
];

// What stands behind a head of 12 octets, from offset 24 on.
const BARE: &[u8] = &[0, 0, 0, 2, 0x4E, 0];

const NOT_DONE: &[u8] = &[0, 0, 0, 2, 0x41, 0, 0, 0, 0, 0, 0, 7, 0, 0, 0, 1];

const PLACE: &[u8] = &[
    0, 0, 0, 2, 0x54, 0, 0, 0, 0, 0, 0, 1, 0, 0, 0, 5, 0, 0, 0, 2, 0xAB, 0xCD,
];

const MODE: &[u8] = &[0xFF, 0xFE];

const PLACE_LITTLE: &[u8] = &[
    2, 0, 0, 0, 0x54, 0, 0, 0, 1, 0, 0, 0, 5, 0, 0, 0, 2, 0, 0, 0, 0xAB, 0xCD,
];

const MODE_LITTLE: &[u8] = &[0xFE, 0xFF];

// Reads the interface, again where memory was wanting.
fn interface(alloc: Global) -> Result<Interface, FormFault> {
    match Interface::from_json(alloc, J) {
        Err(FormFault::NoMemory) => Interface::from_json(alloc, J),
        answer => answer,
    }
}

// Encodes, again where memory was wanting.
fn encode(
    alloc: Global,
    interface: &Interface,
    request: Option<&Request>,
    reply: &Reply,
    order: Order,
) -> Result<Vec<u8>, EncodeFault> {
    match reply.encode(alloc, interface, request, order) {
        Err(EncodeFault::NoMemory) => reply.encode(alloc, interface, request, order),
        answer => answer,
    }
}

// A head without contexts and a body: Reply 4, as 1.2 has it, or the versions before it.
fn joined(version: Version, order: Order, status: u8, body: &[u8]) -> [u8; 40] {
    let mut octets = [0; 40];
    let low = match order {
        Order::Big => 3,
        Order::Little => 0,
    };
    let (id, at) = match version {
        Version::V10 | Version::V11 => (4, 8),
        Version::V12 => (0, 4),
    };
    octets[id + low] = 4;
    octets[at + low] = status;
    let len = body.len().min(28);
    octets[12..12 + len].copy_from_slice(&body[..len]);
    octets
}

// The first octets of these.
fn front(octets: &[u8], len: usize) -> &[u8] {
    &octets[..len.min(octets.len())]
}

// Decodes, again where memory was wanting.
fn again(
    alloc: Global,
    interface: &Interface,
    request: Option<&Request>,
    octets: &[u8],
    version: Version,
    order: Order,
) -> Result<Reply, CdrFault> {
    let joined = SliceOctets::new(&octets[..octets.len().min(64)]);
    match Reply::decode(alloc, interface, request, &joined, version, order) {
        Err(fault) if fault.kind == CdrKind::NoMemory => {
            Reply::decode(alloc, interface, request, &joined, version, order)
        }
        answer => answer,
    }
}

// Decodes these octets and encodes what they are: the same octets.
fn goes_both_ways(
    rt: &impl Abort,
    alloc: Global,
    interface: &Interface,
    request: Option<&Request>,
    octets: &[u8],
    version: Version,
    order: Order,
) -> Result<Reply, Fail> {
    let reply = again(alloc, interface, request, octets, version, order)?;
    assert!(rt; reply.is_writable(interface, request));
    let written = encode(alloc, interface, request, &reply, order)
        .ok()
        .ok_or("not encoded")?;
    assert_eq!(rt; written.as_slice(), octets);
    Ok(reply)
}

#[test]
fn statuses_4_and_5_are_of_1_2_alone(rt: HostRuntime) -> Result<(), Fail> {
    let interface = interface(rt.alloc())?;
    let request = decode(rt.alloc(), &interface, ADD, Version::V12)
        .ok()
        .ok_or("no request")?;
    let cases: [(u8, Order, &[u8]); 4] = [
        (4, Order::Big, PLACE),
        (4, Order::Little, PLACE_LITTLE),
        (5, Order::Big, MODE),
        (5, Order::Little, MODE_LITTLE),
    ];
    for (status, order, body) in cases {
        let octets = joined(Version::V12, order, status, body);
        let mut reply = goes_both_ways(
            &rt,
            rt.alloc(),
            &interface,
            Some(&request),
            front(&octets, 12 + body.len().min(28)),
            Version::V12,
            order,
        )?;
        assert_eq!(rt; reply.body.status(), status as u32);
        for early in [Version::V10, Version::V11] {
            reply.version = early;
            let refused = encode(rt.alloc(), &interface, Some(&request), &reply, order).err();
            assert_eq!(rt; refused, Some(EncodeFault::Unfit));
        }
    }
    Ok(())
}

// Octets on their own, again where memory was wanting.
fn octets(alloc: Global, from: &[u8]) -> Result<OctetList, AllocError> {
    match OctetList::from_slice(alloc, from) {
        Ok(list) => Ok(list),
        Err(_) => OctetList::from_slice(alloc, from),
    }
}

#[test]
fn a_reply_that_no_octets_spell_is_unfit(rt: HostRuntime) -> Result<(), Fail> {
    let interface = interface(rt.alloc())?;
    let request = decode(rt.alloc(), &interface, ADD, Version::V12)
        .ok()
        .ok_or("no request")?;
    let raised = joined(Version::V12, Order::Big, 1, BARE);
    let mut reply = goes_both_ways(
        &rt,
        rt.alloc(),
        &interface,
        Some(&request),
        front(&raised, 18),
        Version::V12,
        Order::Big,
    )?;
    // An exception that the interface hasn't, one without its members, and a sum that isn't there.
    for id in [b"X", b"E"] {
        reply.body = ReplyBody::UserException {
            id: octets(rt.alloc(), id)?,
            members: ValueList::new(rt.alloc()),
        };
        let refused = encode(rt.alloc(), &interface, Some(&request), &reply, Order::Big).err();
        assert_eq!(rt; refused, Some(EncodeFault::Unfit));
    }
    reply.body = ReplyBody::NoException(ValueList::new(rt.alloc()));
    let refused = encode(rt.alloc(), &interface, Some(&request), &reply, Order::Big).err();
    assert_eq!(rt; refused, Some(EncodeFault::Unfit));
    Ok(())
}

#[test]
fn without_a_request_a_system_exception_alone_is_a_reply(rt: HostRuntime) -> Result<(), Fail> {
    let interface = interface(rt.alloc())?;
    let raised = joined(Version::V12, Order::Big, 2, NOT_DONE);
    let mut reply = goes_both_ways(
        &rt,
        rt.alloc(),
        &interface,
        None,
        front(&raised, 28),
        Version::V12,
        Order::Big,
    )?;
    assert_eq!(rt; reply.body.status(), 2);
    reply.body = ReplyBody::NoException(ValueList::new(rt.alloc()));
    let refused = encode(rt.alloc(), &interface, None, &reply, Order::Big).err();
    assert_eq!(rt; refused, Some(EncodeFault::Unfit));
    let sum = joined(Version::V12, Order::Big, 3, PLACE);
    let from = front(&sum, 34);
    let fault = again(rt.alloc(), &interface, None, from, Version::V12, Order::Big).err();
    assert_eq!(rt; fault, Some(super::messages::at(24, CdrKind::BadLabel)));
    Ok(())
}
