//! Whole messages that are read and written again. Bodies that are read, and each refusal, are cases of
//! the built program (tests/cases/bodies).
use giop_cdr::{CdrFault, CdrKind, EncodeFault, Order, SliceOctets};
use giop_msg::{LocateReply, LocateRequest, Request, RequestFault, Version};
use giop_types::{FormFault, Interface, Value, ValueList};
use std::alloc::Global;
use std::process::Abort;
use std::test::Fail;

const J: &[u8] =
    b"{\"operations\":{\"ping\":{},\"add\":{\"ins\":[[\"a\",\"long\"],[\"b\",\"long\"]],\"outs\":[[\"sum\",\"long\"]]},\"list\":{\"ins\":[[\"items\",{\"sequence\":\"long\"}]]},\"tell\":{\"oneway\":true,\"ins\":[[\"t\",\"string\"]]}}}";

// Request 4 of 1.2: `add` of 2 and 5, whose head ends at 44 and whose body stands at 48.
pub const ADD: &[u8] = &[
    0, 0, 0, 4, 3, 0, 0, 0, 0, 0, 0, 0, 0, 0, 0, 1, 0x6B, 0, 0, 0, 0, 0, 0, 4, 0x61, 0x64, 0x64, 0,
    0, 0, 0, 0, 0, 0, 0, 0, 0, 0, 0, 2, 0, 0, 0, 5,
];

// Request 1 of 1.0 and of 1.1: the same, whose body stands right behind the head, at 44.
const EARLY_ADD: &[u8] = &[
    0, 0, 0, 0, 0, 0, 0, 1, 1, 0, 0, 0, 0, 0, 0, 1, 0x6B, 0, 0, 0, 0, 0, 0, 4, 0x61, 0x64, 0x64, 0,
    0, 0, 0, 0, 0, 0, 0, 2, 0, 0, 0, 5,
];

// Reads the interface, again where memory was wanting.
pub fn interface(alloc: Global) -> Result<Interface, FormFault> {
    match Interface::from_json(alloc, J) {
        Err(FormFault::NoMemory) => Interface::from_json(alloc, J),
        answer => answer,
    }
}

// Whether memory was wanting.
fn is_want(fault: &RequestFault) -> bool {
    match fault {
        RequestFault::Header(fault) => fault.kind == CdrKind::NoMemory,
        RequestFault::Operation => false,
        RequestFault::Body(fault) => fault.kind == CdrKind::NoMemory,
    }
}

// Decodes, again where memory was wanting.
pub fn decode(
    alloc: Global,
    interface: &Interface,
    octets: &[u8],
    version: Version,
) -> Result<Request, RequestFault> {
    let octets = SliceOctets::new(&octets[..octets.len().min(64)]);
    match Request::decode(alloc, interface, &octets, version, Order::Big) {
        Err(fault) if is_want(&fault) => {
            Request::decode(alloc, interface, &octets, version, Order::Big)
        }
        answer => answer,
    }
}

// Encodes, again where memory was wanting.
fn encode(
    alloc: Global,
    interface: &Interface,
    request: &Request,
    order: Order,
) -> Result<Vec<u8>, EncodeFault> {
    match request.encode(alloc, interface, order) {
        Err(EncodeFault::NoMemory) => request.encode(alloc, interface, order),
        answer => answer,
    }
}

fn reply(alloc: Global, octets: &[u8]) -> Result<LocateReply, CdrFault> {
    let joined = SliceOctets::new(&octets[..octets.len().min(64)]);
    match LocateReply::decode(alloc, &joined, Version::V12, Order::Big) {
        Err(fault) if fault.kind == CdrKind::NoMemory => {
            LocateReply::decode(alloc, &joined, Version::V12, Order::Big)
        }
        answer => answer,
    }
}

fn locate(alloc: Global, octets: &[u8]) -> Result<LocateRequest, CdrFault> {
    let joined = SliceOctets::new(&octets[..octets.len().min(64)]);
    match LocateRequest::decode(alloc, &joined, Version::V12, Order::Big) {
        Err(fault) if fault.kind == CdrKind::NoMemory => {
            LocateRequest::decode(alloc, &joined, Version::V12, Order::Big)
        }
        answer => answer,
    }
}

pub fn at(at: usize, kind: CdrKind) -> CdrFault {
    CdrFault { at, kind }
}

#[test]
fn a_request_of_each_version_is_decoded_and_encoded(rt: HostRuntime) -> Result<(), Fail> {
    let interface = interface(rt.alloc())?;
    let cases: [(Version, &[u8], u32); 3] = [
        (Version::V10, EARLY_ADD, 1),
        (Version::V11, EARLY_ADD, 1),
        (Version::V12, ADD, 4),
    ];
    for (version, octets, id) in cases {
        let request = decode(rt.alloc(), &interface, octets, version)
            .ok()
            .ok_or("no request")?;
        assert_eq!(rt; (request.head.id, request.head.flags), (id, 3));
        assert_eq!(rt; request.head.operation.as_slice(), b"add".as_slice());
        assert_eq!(rt; request.body.len(), 2);
        assert_eq!(rt; request.body.as_slice()[0], Value::Long(2));
        assert_eq!(rt; request.body.as_slice()[1], Value::Long(5));
        assert!(rt; request.is_writable(&interface));
        let again = encode(rt.alloc(), &interface, &request, Order::Big)
            .ok()
            .ok_or("not encoded")?;
        assert_eq!(rt; again.as_slice(), octets);
    }
    Ok(())
}

#[test]
fn a_request_that_no_octets_spell_is_unfit(rt: HostRuntime) -> Result<(), Fail> {
    let interface = interface(rt.alloc())?;
    let mut request = decode(rt.alloc(), &interface, ADD, Version::V12)
        .ok()
        .ok_or("no request")?;
    request.head.version = Version::V10;
    request.head.flags = 1;
    let flags = encode(rt.alloc(), &interface, &request, Order::Big).err();
    assert_eq!(rt; flags, Some(EncodeFault::Unfit));
    request.head.flags = 0;
    request.body = ValueList::new(rt.alloc());
    let values = encode(rt.alloc(), &interface, &request, Order::Little).err();
    assert_eq!(rt; values, Some(EncodeFault::Unfit));
    Ok(())
}

#[test]
fn a_locate_reply_keeps_the_octets_behind_its_status(rt: HostRuntime) -> Result<(), Fail> {
    let reply = reply(rt.alloc(), &[0, 0, 0, 6, 0, 0, 0, 1, 7, 8, 9])
        .ok()
        .ok_or("no reply")?;
    assert_eq!(rt; (reply.head.id, reply.head.status), (6, 1));
    assert_eq!(rt; reply.rest.as_slice(), [7, 8, 9].as_slice());
    let again = match reply.encode(rt.alloc(), Order::Little) {
        Ok(again) => again,
        Err(_) => reply.encode(rt.alloc(), Order::Little)?,
    };
    assert_eq!(rt;
        again.as_slice(),
        [6, 0, 0, 0, 1, 0, 0, 0, 7, 8, 9].as_slice()
    );
    Ok(())
}

#[test]
fn a_locate_request_is_encoded(rt: HostRuntime) -> Result<(), Fail> {
    let octets = [0, 0, 0, 6, 0, 0, 0, 0, 0, 0, 0, 1, 0x6B];
    let request = locate(rt.alloc(), &octets).ok().ok_or("no request")?;
    let again = match request.encode(rt.alloc(), Order::Big) {
        Ok(again) => again,
        Err(_) => request.encode(rt.alloc(), Order::Big)?,
    };
    assert_eq!(rt; again.as_slice(), octets.as_slice());
    Ok(())
}
