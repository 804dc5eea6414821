// Whole Replies: worked octets by status, and each refusal.
use super::messages::{ADD, at, decode, interface};
use giop_cdr::{CdrFault, CdrKind, Order, SliceOctets};
use giop_msg::{Completion, Reply, ReplyBody, Request, Version};
use giop_types::{Interface, Value};
use std::alloc::Global;
use std::test::Fail;

// Decodes, again where memory was wanting.
pub fn again(
    alloc: Global,
    interface: &Interface,
    request: Option<&Request>,
    octets: &[u8],
    version: Version,
    order: Order,
) -> Result<Reply, CdrFault> {
    let joined = SliceOctets::new(&octets[..octets.len().min(64)]);
    match Reply::decode(alloc, interface, request, &joined, version, order) {
        Err(fault) if fault.kind == CdrKind::NoMemory => {
            Reply::decode(alloc, interface, request, &joined, version, order)
        }
        answer => answer,
    }
}

// Decodes a reply to `add`, again where memory was wanting.
fn reply(
    alloc: Global,
    interface: &Interface,
    request: &Request,
    octets: &[u8],
    version: Version,
) -> Result<Reply, CdrFault> {
    again(alloc, interface, Some(request), octets, version, Order::Big)
}

// Whether it is the reply 7 under this id.
fn is_seven(reply: &Reply, id: u32) -> bool {
    match &reply.body {
        ReplyBody::NoException(values) => {
            reply.id == id && values.as_slice() == [Value::Long(7)].as_slice()
        }
        _ => false,
    }
}

#[test]
fn a_reply_of_each_version_brings_the_outs(rt: HostRuntime) -> Result<(), Fail> {
    let alloc = rt.alloc();
    let interface = interface(alloc)?;
    let request = decode(alloc, &interface, ADD, Version::V12)?;
    let octets = [0, 0, 0, 4, 0, 0, 0, 0, 0, 0, 0, 0, 0, 0, 0, 7];
    let found = reply(alloc, &interface, &request, &octets, Version::V12)?;
    assert!(rt; is_seven(&found, 4));
    let early = [0, 0, 0, 0, 0, 0, 0, 1, 0, 0, 0, 0, 0, 0, 0, 7];
    for version in [Version::V10, Version::V11] {
        let found = reply(alloc, &interface, &request, &early, version)?;
        assert!(rt; is_seven(&found, 1));
    }
    Ok(())
}

#[test]
fn exceptions_and_the_addressing_mode_are_read(rt: HostRuntime) -> Result<(), Fail> {
    let alloc = rt.alloc();
    let interface = interface(alloc)?;
    let request = decode(alloc, &interface, ADD, Version::V12)?;
    let raised = [
        0, 0, 0, 4, 0, 0, 0, 2, 0, 0, 0, 0, 0, 0, 0, 2, 0x41, 0, 0, 0, 0, 0, 0, 7, 0, 0, 0, 1,
    ];
    let found = reply(alloc, &interface, &request, &raised, Version::V12)?;
    assert!(rt;
        matches!(
            &found.body,
            ReplyBody::SystemException {
                minor: 7,
                completion: Completion::No,
                ..
            }
        )
    );
    let mode = [0, 0, 0, 1, 0, 0, 0, 5, 0, 0, 0, 0, 0, 0];
    let found = reply(alloc, &interface, &request, &mode, Version::V12)?;
    assert!(rt; matches!(&found.body, ReplyBody::NeedsAddressing(0)));
    Ok(())
}

// The fault of octets that are no reply to `add`.
fn fault(
    alloc: Global,
    interface: &Interface,
    request: &Request,
    octets: &[u8],
) -> Option<CdrFault> {
    match reply(alloc, interface, request, octets, Version::V12) {
        Ok(_reply) => None,
        Err(fault) => Some(fault),
    }
}

#[test]
fn each_refusal_of_a_reply_has_its_place(rt: HostRuntime) -> Result<(), Fail> {
    let alloc = rt.alloc();
    let interface = interface(alloc)?;
    let request = decode(alloc, &interface, ADD, Version::V12)?;
    let status = [0, 0, 0, 4, 0, 0, 0, 6, 0, 0, 0, 0];
    assert_eq!(rt;
        fault(alloc, &interface, &request, &status),
        Some(at(16, CdrKind::BadLabel))
    );
    let unknown = [0, 0, 0, 4, 0, 0, 0, 1, 0, 0, 0, 0, 0, 0, 0, 2, 0x58, 0];
    assert_eq!(rt;
        fault(alloc, &interface, &request, &unknown),
        Some(at(24, CdrKind::BadLabel))
    );
    let completion = [
        0, 0, 0, 4, 0, 0, 0, 2, 0, 0, 0, 0, 0, 0, 0, 2, 0x41, 0, 0, 0, 0, 0, 0, 7, 0, 0, 0, 3,
    ];
    assert_eq!(rt;
        fault(alloc, &interface, &request, &completion),
        Some(at(36, CdrKind::BadLabel))
    );
    let longer = [0, 0, 0, 4, 0, 0, 0, 0, 0, 0, 0, 0, 0, 0, 0, 7, 0];
    assert_eq!(rt;
        fault(alloc, &interface, &request, &longer),
        Some(at(28, CdrKind::Trailing))
    );
    Ok(())
}
