//! Faults that stand behind what takes memory: they are told whether memory is there or not.
use giop_cdr::{CdrFault, CdrKind, Order, SliceOctets};
use giop_json::{FormFault, interface_from_json};
use giop_msg::{Reply, Request, RequestFault, Version};
use giop_types::Interface;
use std::alloc::Global;
use std::test::Fail;

const PUT: &[u8] = b"{\"operations\":{\"put\":{\"ins\":[[\"a\",\"string\"],[\"b\",\"string\"]]}}}";

// Request 4 of 1.2: `put`, whose head ends at 44 and whose body stands at 48. The first string is
// `a`; the second, at 56, has no null at its end.
const UNENDED: &[u8] = &[
    0, 0, 0, 4, 3, 0, 0, 0, 0, 0, 0, 0, 0, 0, 0, 1, 0x6B, 0, 0, 0, 0, 0, 0, 4, 0x70, 0x75, 0x74, 0,
    0, 0, 0, 0, 0, 0, 0, 0, 0, 0, 0, 2, 0x61, 0, 0, 0, 0, 0, 0, 2, 0x62, 0x63,
];

// Request 4 of 1.2: `get`, which the interface hasn't.
const UNKNOWN: &[u8] = &[
    0, 0, 0, 4, 3, 0, 0, 0, 0, 0, 0, 0, 0, 0, 0, 1, 0x6B, 0, 0, 0, 0, 0, 0, 4, 0x67, 0x65, 0x74, 0,
    0, 0, 0, 0,
];

// Reply 4 of 1.2: the system exception `E`, minor code 0, not completed; and an octet behind it, at
// 40.
const OCTET_BEHIND: &[u8] = &[
    0, 0, 0, 4, 0, 0, 0, 2, 0, 0, 0, 0, 0, 0, 0, 2, 0x45, 0, 0, 0, 0, 0, 0, 0, 0, 0, 0, 1, 9,
];

// Reads the interface, again where memory was wanting.
fn interface(alloc: Global) -> Result<Interface, FormFault> {
    match interface_from_json(alloc, PUT) {
        Err(FormFault::NoMemory) => interface_from_json(alloc, PUT),
        answer => answer,
    }
}

fn refusal(alloc: Global, octets: &[u8]) -> Result<Option<RequestFault>, FormFault> {
    let interface = interface(alloc)?;
    if octets.len() > 100 {
        return Ok(None);
    }
    let joined = SliceOctets::new(octets);
    let answer = Request::decode(alloc, &interface, &joined, Version::V12, Order::Big);
    Ok(answer.err())
}

#[test]
fn a_fault_of_a_body_is_told_whether_memory_is_there_or_not(rt: HostRuntime) -> Result<(), Fail> {
    let unended = RequestFault::Body(CdrFault {
        at: 56,
        kind: CdrKind::BadString,
    });
    assert_eq!(rt; refusal(rt.alloc(), UNENDED)?, Some(unended));
    Ok(())
}

#[test]
fn an_unknown_operation_is_told_whether_memory_is_there_or_not(
    rt: HostRuntime,
) -> Result<(), Fail> {
    assert_eq!(rt;
        refusal(rt.alloc(), UNKNOWN)?,
        Some(RequestFault::Operation)
    );
    Ok(())
}

#[test]
fn an_octet_behind_a_reply_is_told_whether_memory_is_there_or_not(
    rt: HostRuntime,
) -> Result<(), Fail> {
    let interface = interface(rt.alloc())?;
    let joined = SliceOctets::new(OCTET_BEHIND);
    let answer = Reply::decode(
        rt.alloc(),
        &interface,
        None,
        &joined,
        Version::V12,
        Order::Big,
    );
    let behind = CdrFault {
        at: 40,
        kind: CdrKind::Trailing,
    };
    assert_eq!(rt; answer.err(), Some(behind));
    Ok(())
}
