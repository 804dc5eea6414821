//! The head of a Request (CORBA 3.3 Part 2, 9.4.2), viewed, decoded and written.
ghost use Rattle.std.specs.Prelude.{◌≤◌, ◌^◌, length};

use super::streams::PING;
use giop_cdr::{CdrFault, CdrKind, CdrOut, EncodeFault, OctetList, Order, SliceOctets};
use giop_msg::{RequestHead, ServiceContext, ServiceContexts, Target, Version};
use std::alloc::{AllocError, Global};
use std::process::Abort;
use std::test::Fail;

// The joined octets of a Request with one context (9, AA), whose body is the long 7, little-endian.
// Pads and reserved octets aren't zero.
const WITH_CONTEXT: [u8; 44] = [
    2, 0, 0, 0, 1, 0xEE, 0xEE, 0xEE, 0, 0, 0xEE, 0xEE, 0, 0, 0, 0, 2, 0, 0, 0, 0x61, 0, 0xEE, 0xEE,
    1, 0, 0, 0, 9, 0, 0, 0, 1, 0, 0, 0, 0xAA, 0xEE, 0xEE, 0xEE, 7, 0, 0, 0,
];

// Decodes, again where memory was wanting.
fn decode(
    alloc: Global,
    octets: &SliceOctets,
    order: Order,
) -> Result<(RequestHead, usize), CdrFault>
    requires { length octets.now ≤ 2 ^ 62 }
{
    match RequestHead::decode(alloc, octets, Version::V12, order) {
        Err(fault) if fault.kind == CdrKind::NoMemory => {
            RequestHead::decode(alloc, octets, Version::V12, order)
        }
        answer => answer,
    }
}

#[test]
fn the_head_of_ping_is_decoded(rt: HostRuntime) -> Result<(), Fail> {
    let octets = SliceOctets::new(&PING[12..]);
    let (head, body) = decode(rt.alloc(), &octets, Order::Big)
        .ok()
        .ok_or("no head")?;
    assert_eq!(rt; (head.id, head.flags, body), (1, 3, 48));
    let Target::Key(key) = &head.target else {
        return Err("no key".into());
    };
    assert_eq!(rt; key.as_slice(), [0x6B].as_slice());
    assert_eq!(rt; head.operation.as_slice(), b"ping".as_slice());
    assert_eq!(rt; (head.contexts.len(), head.contexts.is_empty()), (0, true));
    Ok(())
}

#[test]
fn pads_and_reserved_octets_may_be_any(rt: HostRuntime) -> Result<(), Fail> {
    let octets = SliceOctets::new(&WITH_CONTEXT);
    let (head, body) = decode(rt.alloc(), &octets, Order::Little)
        .ok()
        .ok_or("no head")?;
    assert_eq!(rt; (head.id, head.flags, body), (2, 1, 56));
    let contexts = head.contexts.as_slice();
    assert_eq!(rt; contexts.len(), 1);
    assert_eq!(rt; contexts[0].id, 9);
    assert_eq!(rt; contexts[0].octets.as_slice(), [0xAA].as_slice());
    Ok(())
}

#[test]
fn a_view_of_a_head_lies_in_the_joined_octets(rt: HostRuntime) -> Result<(), Fail> {
    let octets = SliceOctets::new(&WITH_CONTEXT);
    let (head, body) = RequestHead::view(&octets, Version::V12, Order::Little)
        .ok()
        .ok_or("no head")?;
    assert_eq!(rt; (head.id, head.flags, body), (2, 1, 56));
    let Target::Key(key) = &head.target else {
        return Err("no key".into());
    };
    assert_eq!(rt; key.as_slice().len(), 0);
    assert_eq!(rt; head.operation.as_slice(), b"a".as_slice());
    assert_eq!(rt; head.contexts.len(), 1);
    for context in head.contexts.iter() {
        assert_eq!(rt; context.tag, 9);
        assert_eq!(rt; context.octets.as_slice(), [0xAA].as_slice());
    }
    let again = match head.to_owned(rt.alloc()) {
        Err(_) => head.to_owned(rt.alloc())?,
        Ok(again) => again,
    };
    assert_eq!(rt; again.contexts.as_slice()[0].id, 9);
    Ok(())
}

// What each proper prefix of the ping Request lacks first, by its number of octets, the header
// counted.
fn lacks(octets: usize) -> CdrFault {
    let (at, kind) = match octets {
        12..=15 => (12, CdrKind::Short),
        16..=19 => (octets, CdrKind::Short),
        20..=21 => (20, CdrKind::Short),
        22..=27 => (24, CdrKind::Short),
        28 => (24, CdrKind::BadCount),
        29..=35 => (32, CdrKind::Short),
        36..=40 => (32, CdrKind::BadCount),
        _ => (44, CdrKind::Short),
    };
    CdrFault { at, kind }
}

#[test]
fn a_head_cut_short_is_refused_at_the_field_that_lacks_octets(rt: HostRuntime) {
    for octets in 12..48usize {
        let cut = SliceOctets::new(&PING[12..octets]);
        let refused = RequestHead::decode(rt.alloc(), &cut, Version::V12, Order::Big).err();
        assert_eq!(rt; refused, Some(lacks(octets)), "at {octets}");
        let unseen = RequestHead::view(&cut, Version::V12, Order::Big).err();
        assert_eq!(rt; unseen, Some(lacks(octets)), "at {octets}");
    }
}

#[test]
fn a_wrong_octet_is_refused_at_its_field(rt: HostRuntime) {
    let cases: [(usize, u8, CdrFault); 6] = [
        (
            16,
            2,
            CdrFault {
                at: 16,
                kind: CdrKind::BadLabel,
            },
        ),
        (
            16,
            0x83,
            CdrFault {
                at: 16,
                kind: CdrKind::BadLabel,
            },
        ),
        (
            21,
            3,
            CdrFault {
                at: 20,
                kind: CdrKind::BadLabel,
            },
        ),
        (
            20,
            0xFF,
            CdrFault {
                at: 20,
                kind: CdrKind::BadLabel,
            },
        ),
        (
            32,
            0xFF,
            CdrFault {
                at: 32,
                kind: CdrKind::BadCount,
            },
        ),
        (
            37,
            0,
            CdrFault {
                at: 32,
                kind: CdrKind::BadString,
            },
        ),
    ];
    for (at, octet, want) in cases {
        let mut octets = PING;
        if at < 48 {
            octets[at] = octet;
        }
        let joined = SliceOctets::new(&octets[12..]);
        assert_eq!(rt;
            RequestHead::decode(rt.alloc(), &joined, Version::V12, Order::Big).err(),
            Some(want)
        );
    }
}

fn ping_head(alloc: Global, flags: u8, operation: &[u8]) -> Result<RequestHead, AllocError> {
    Ok(RequestHead {
        version: Version::V12,
        id: 1,
        flags,
        target: Target::Key(OctetList::from_slice(alloc, &[0x6B])?),
        operation: OctetList::from_slice(alloc, operation)?,
        contexts: ServiceContexts::new(alloc),
    })
}

// Writes behind the header, again where memory was wanting, which then changed nothing.
fn write_behind_header(
    rt: &impl Abort,
    alloc: Global,
    head: &RequestHead,
) -> Result<CdrOut, EncodeFault> {
    let mut out = CdrOut::new(alloc, Order::Big, 12);
    if let Err(EncodeFault::NoMemory) = head.write(&mut out) {
        assert_eq!(rt; (out.as_slice().len(), out.position()), (0, 12));
        head.write(&mut out)?;
    }
    Ok(out)
}

#[test]
fn the_head_of_ping_is_written_behind_its_header(rt: HostRuntime) -> Result<(), Fail> {
    let head = ping_head(rt.alloc(), 3, b"ping")?;
    assert_eq!(rt; head.is_writable(), true);
    let out = write_behind_header(&rt, rt.alloc(), &head)
        .ok()
        .ok_or("not written")?;
    assert_eq!(rt; out.as_slice(), &PING[12..]);
    Ok(())
}

#[test]
fn a_context_is_written_and_pads_are_zeros(rt: HostRuntime) -> Result<(), Fail> {
    let octets = SliceOctets::new(&WITH_CONTEXT);
    let (head, _) = decode(rt.alloc(), &octets, Order::Little)
        .ok()
        .ok_or("no head")?;
    let mut out = CdrOut::new(rt.alloc(), Order::Little, 12);
    assert_eq!(rt; head.write(&mut out), Ok(()));
    let want = [
        2, 0, 0, 0, 1, 0, 0, 0, 0, 0, 0, 0, 0, 0, 0, 0, 2, 0, 0, 0, 0x61, 0, 0, 0, 1, 0, 0, 0, 9,
        0, 0, 0, 1, 0, 0, 0, 0xAA,
    ];
    assert_eq!(rt; out.as_slice(), want.as_slice());
    Ok(())
}

#[test]
fn a_head_that_does_not_fit_is_not_written(rt: HostRuntime) -> Result<(), Fail> {
    for (flags, operation) in [(2, b"ping"), (3, b"pi\0g"), (4, b"ping")] {
        let head = ping_head(rt.alloc(), flags, operation)?;
        let mut out = CdrOut::new(rt.alloc(), Order::Big, 12);
        assert_eq!(rt; head.is_writable(), false);
        assert_eq!(rt; head.write(&mut out), Err(EncodeFault::Unfit));
        assert_eq!(rt; out.as_slice().len(), 0);
    }
    Ok(())
}

#[test]
fn contexts_are_made_of_a_vec_and_give_it_back(rt: HostRuntime) -> Result<(), Fail> {
    let mut list = Vec::new(rt.alloc());
    list.push(ServiceContext {
        id: 5,
        octets: OctetList::new(rt.alloc()),
    })?;
    let contexts = ServiceContexts::from(list);
    assert_eq!(rt; contexts.len(), 1);
    let list = contexts.into_vec();
    assert_eq!(rt; list.len(), 1);
    assert_eq!(rt; list[0].id, 5);
    Ok(())
}
