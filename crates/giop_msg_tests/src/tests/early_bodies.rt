// Bodies before 1.2: they stand right behind the head, on no multiple of 8, and each value is
// aligned from the message's first octet. The octets are worked by hand.
use super::replies_written::goes_both_ways;
use giop_cdr::{CdrKind, EncodeFault, Order, SliceOctets};
use giop_msg::{ReplyBody, Request, RequestFault, Version};
use giop_types::{FormFault, Interface, Value};
use std::alloc::Global;
use std::process::Abort;
use std::test::Fail;

const J: &[u8] =
    b"{\"operations\":{\"put\":{\"ins\":[[\"mark\",\"octet\"],[\"size\",\"longlong\"]]}},\"exceptions\":{\"E\":[[\"why\",\"string\"],[\"code\",\"longlong\"]]}}";

// Request 2 of 1.0 and of 1.1, `put` of 9 and 258: the head ends at 44, where the octet stands, and
// the long long stands at 48. From 48 on, as in 1.2, they would stand at 48 and 56.
const PUT: &[u8] = &[
    0, 0, 0, 0, 0, 0, 0, 2, 1, 0, 0, 0, 0, 0, 0, 1, 0x6B, 0, 0, 0, 0, 0, 0, 4, 0x70, 0x75, 0x74, 0,
    0, 0, 0, 0, 9, 0, 0, 0, 0, 0, 0, 0, 0, 0, 1, 2,
];

const PUT_LITTLE: &[u8] = &[
    0, 0, 0, 0, 2, 0, 0, 0, 1, 0, 0, 0, 1, 0, 0, 0, 0x6B, 0, 0, 0, 4, 0, 0, 0, 0x70, 0x75, 0x74, 0,
    0, 0, 0, 0, 9, 0, 0, 0, 2, 1, 0, 0, 0, 0, 0, 0,
];

// The same with a principal of three octets: the octet stands at 47, right behind it.
const PUT_BY_A_PRINCIPAL: &[u8] = &[
    0, 0, 0, 0, 0, 0, 0, 2, 1, 0, 0, 0, 0, 0, 0, 1, 0x6B, 0, 0, 0, 0, 0, 0, 4, 0x70, 0x75, 0x74, 0,
    0, 0, 0, 3, 0x61, 0x62, 0x63, 9, 0, 0, 0, 0, 0, 0, 1, 2,
];

// Reply 2 with a context (9, AA), whose head ends at 36, and the exception `E` of "no" and -2: its
// id stands at 36, the text at 44 up to 51, and the long long at 56.
const RAISED: &[u8] = &[
    0, 0, 0, 1, 0, 0, 0, 9, 0, 0, 0, 1, 0xAA, 0, 0, 0, 0, 0, 0, 2, 0, 0, 0, 1, 0, 0, 0, 2, 0x45, 0,
    0, 0, 0, 0, 0, 3, 0x6E, 0x6F, 0, 0, 0, 0, 0, 0, 0xFF, 0xFF, 0xFF, 0xFF, 0xFF, 0xFF, 0xFF, 0xFE,
];

const RAISED_LITTLE: &[u8] = &[
    1, 0, 0, 0, 9, 0, 0, 0, 1, 0, 0, 0, 0xAA, 0, 0, 0, 2, 0, 0, 0, 1, 0, 0, 0, 2, 0, 0, 0, 0x45, 0,
    0, 0, 3, 0, 0, 0, 0x6E, 0x6F, 0, 0, 0, 0, 0, 0, 0xFE, 0xFF, 0xFF, 0xFF, 0xFF, 0xFF, 0xFF, 0xFF,
];

// Reads the interface, again where memory was wanting.
fn interface(alloc: Global) -> Result<Interface, FormFault> {
    match Interface::from_json(alloc, J) {
        Err(FormFault::NoMemory) => Interface::from_json(alloc, J),
        answer => answer,
    }
}

// Whether memory was wanting.
fn is_want(fault: &RequestFault) -> bool {
    match fault {
        RequestFault::Header(fault) | RequestFault::Body(fault) => fault.kind == CdrKind::NoMemory,
        RequestFault::Operation => false,
    }
}

// Decodes, again where memory was wanting.
fn decode(
    alloc: Global,
    interface: &Interface,
    octets: &[u8],
    version: Version,
    order: Order,
) -> Result<Request, RequestFault> {
    let octets = SliceOctets::new(&octets[..octets.len().min(64)]);
    match Request::decode(alloc, interface, &octets, version, order) {
        Err(fault) if is_want(&fault) => {
            Request::decode(alloc, interface, &octets, version, order)
        }
        answer => answer,
    }
}

// Encodes, again where memory was wanting.
fn encode(
    alloc: Global,
    interface: &Interface,
    request: &Request,
    order: Order,
) -> Result<Vec<u8>, EncodeFault> {
    match request.encode(alloc, interface, order) {
        Err(EncodeFault::NoMemory) => request.encode(alloc, interface, order),
        answer => answer,
    }
}

// These octets are Request 2, `put` of 9 and 258, which is written as those.
fn is_put(
    rt: &impl Abort,
    alloc: Global,
    octets: &[u8],
    version: Version,
    order: Order,
    written: &[u8],
) -> Result<(), Fail> {
    let interface = interface(alloc)?;
    let request = decode(alloc, &interface, octets, version, order)
        .ok()
        .ok_or("no request")?;
    assert_eq!(rt; (request.head.version, request.head.id), (version, 2));
    assert_eq!(rt; request.body.len(), 2);
    assert_eq!(rt; request.body.as_slice()[0], Value::Octet(9));
    assert_eq!(rt; request.body.as_slice()[1], Value::LongLong(258));
    let again = encode(alloc, &interface, &request, order)
        .ok()
        .ok_or("not encoded")?;
    assert_eq!(rt; again.as_slice(), written);
    Ok(())
}

#[test]
fn the_body_of_an_early_request_stands_right_behind_its_head(rt: HostRuntime) -> Result<(), Fail> {
    for version in [Version::V10, Version::V11] {
        is_put(&rt, rt.alloc(), PUT, version, Order::Big, PUT)?;
        is_put(
            &rt,
            rt.alloc(),
            PUT_LITTLE,
            version,
            Order::Little,
            PUT_LITTLE,
        )?;
        is_put(
            &rt,
            rt.alloc(),
            PUT_BY_A_PRINCIPAL,
            version,
            Order::Big,
            PUT,
        )?;
    }
    Ok(())
}

// These octets are Reply 2, the exception `E` of a text and -2, both ways.
fn is_raised(
    rt: &impl Abort,
    alloc: Global,
    octets: &[u8],
    version: Version,
    order: Order,
) -> Result<(), Fail> {
    let interface = interface(alloc)?;
    let request = decode(alloc, &interface, PUT, version, Order::Big)
        .ok()
        .ok_or("no request")?;
    let reply = goes_both_ways(
        rt,
        alloc,
        &interface,
        Some(&request),
        octets,
        version,
        order,
    )?;
    let ReplyBody::UserException { id, members } = &reply.body else {
        return Err("another body")?;
    };
    assert_eq!(rt; (reply.id, id.as_slice()), (2, b"E".as_slice()));
    assert_eq!(rt; members.len(), 2);
    assert_eq!(rt; members.as_slice()[1], Value::LongLong(-2));
    Ok(())
}

#[test]
fn the_exception_of_an_early_reply_stands_right_behind_its_head(
    rt: HostRuntime,
) -> Result<(), Fail> {
    for version in [Version::V10, Version::V11] {
        is_raised(&rt, rt.alloc(), RAISED, version, Order::Big)?;
        is_raised(&rt, rt.alloc(), RAISED_LITTLE, version, Order::Little)?;
    }
    Ok(())
}
