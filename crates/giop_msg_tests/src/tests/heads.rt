//! Heads that are read and written again. Heads that are read, and each of their faults, are cases of
//! the built program (tests/cases/heads).
use giop_cdr::{CdrFault, CdrKind, CdrOut, EncodeFault, OctetList, Order, SliceOctets};
use giop_ior::{Ior, Sequence, TaggedProfile};
use giop_msg::{
    LocateReplyHead, LocateRequest, ReplyHead, RequestHead, ServiceContexts, Target, Version,
};
use std::alloc::Global;
use std::process::Abort;
use std::test::Fail;

// A Request of 1.0 and 1.1 behind its header: id 1, a response is expected, key `6b`, `add`, no
// principal, and the longs 2 and 5. In 1.0 the octets behind 01 are padding, in 1.1 they are
// reserved.
const ADD: [u8; 40] = [
    0, 0, 0, 0, 0, 0, 0, 1, 1, 0, 0, 0, 0, 0, 0, 1, 0x6B, 0, 0, 0, 0, 0, 0, 4, 0x61, 0x64, 0x64, 0,
    0, 0, 0, 0, 0, 0, 0, 2, 0, 0, 0, 5,
];

// A Request of 1.2 with the octets AA of profile 1 as its target.
const BY_PROFILE: [u8; 40] = [
    0, 0, 0, 8, 3, 0, 0, 0, 0, 1, 0, 0, 0, 0, 0, 1, 0, 0, 0, 1, 0xAA, 0, 0, 0, 0, 0, 0, 5, 0x70,
    0x69, 0x6E, 0x67, 0, 0, 0, 0, 0, 0, 0, 0,
];

// A LocateRequest of 1.2 with profile 3 of the nil reference as its target.
const BY_REFERENCE: [u8; 24] = [
    0, 0, 0, 7, 0, 2, 0, 0, 0, 0, 0, 3, 0, 0, 0, 1, 0, 0, 0, 0, 0, 0, 0, 0,
];

// A Reply of 1.2 with the context (9, AA); the body stands at 40, behind seven octets of padding.
const WITH_CONTEXT: [u8; 32] = [
    0, 0, 0, 1, 0, 0, 0, 0, 0, 0, 0, 1, 0, 0, 0, 9, 0, 0, 0, 1, 0xAA, 0xFF, 0xFF, 0xFF, 0xFF, 0xFF,
    0xFF, 0xFF, 0, 0, 0, 7,
];

fn bad(at: usize, kind: CdrKind) -> CdrFault {
    CdrFault { at, kind }
}

// The head and the place of the body; again where memory was wanting.
fn request(
    alloc: Global,
    octets: &[u8],
    version: Version,
) -> Result<(RequestHead, usize), CdrFault> {
    let joined = SliceOctets::new(&octets[..octets.len().min(64)]);
    match RequestHead::decode(alloc, &joined, version, Order::Big) {
        Err(fault) if fault.kind == CdrKind::NoMemory => {
            RequestHead::decode(alloc, &joined, version, Order::Big)
        }
        answer => answer,
    }
}

fn reply(alloc: Global, octets: &[u8], version: Version) -> Result<(ReplyHead, usize), CdrFault> {
    let joined = SliceOctets::new(&octets[..octets.len().min(64)]);
    match ReplyHead::decode(alloc, &joined, version, Order::Big) {
        Err(fault) if fault.kind == CdrKind::NoMemory => {
            ReplyHead::decode(alloc, &joined, version, Order::Big)
        }
        answer => answer,
    }
}

fn locate(alloc: Global, octets: &[u8], version: Version) -> Result<LocateRequest, CdrFault> {
    let joined = SliceOctets::new(&octets[..octets.len().min(64)]);
    match LocateRequest::decode(alloc, &joined, version, Order::Big) {
        Err(fault) if fault.kind == CdrKind::NoMemory => {
            LocateRequest::decode(alloc, &joined, version, Order::Big)
        }
        answer => answer,
    }
}

fn located(octets: &[u8], version: Version) -> Result<(LocateReplyHead, usize), CdrFault> {
    let joined = SliceOctets::new(&octets[..octets.len().min(64)]);
    LocateReplyHead::view(&joined, version, Order::Big)
}

// What is written of a head behind a header; again where memory was wanting.
fn written(alloc: Global, head: &RequestHead) -> Result<CdrOut, EncodeFault> {
    let mut out = CdrOut::new(alloc, Order::Big, 12);
    match head.write(&mut out) {
        Err(EncodeFault::NoMemory) => head.write(&mut out)?,
        answer => answer?,
    }
    Ok(out)
}

fn written_reply(alloc: Global, head: &ReplyHead) -> Result<CdrOut, EncodeFault> {
    let mut out = CdrOut::new(alloc, Order::Big, 12);
    match head.write(&mut out) {
        Err(EncodeFault::NoMemory) => head.write(&mut out)?,
        answer => answer?,
    }
    Ok(out)
}

fn written_locate(alloc: Global, head: &LocateRequest) -> Result<CdrOut, EncodeFault> {
    let mut out = CdrOut::new(alloc, Order::Big, 12);
    match head.write(&mut out) {
        Err(EncodeFault::NoMemory) => head.write(&mut out)?,
        answer => answer?,
    }
    Ok(out)
}

fn written_located(alloc: Global, head: &LocateReplyHead) -> Result<CdrOut, EncodeFault> {
    let mut out = CdrOut::new(alloc, Order::Big, 12);
    match head.write(&mut out) {
        Err(EncodeFault::NoMemory) => head.write(&mut out)?,
        answer => answer?,
    }
    Ok(out)
}

fn is_key(rt: &impl Abort, target: &Target) {
    match target {
        Target::Key(key) => assert_eq!(rt; key.as_slice(), [0x6B].as_slice()),
        _ => assert!(rt; false),
    }
}

#[test]
fn a_request_before_1_2_is_read_and_written(rt: HostRuntime) -> Result<(), Fail> {
    for version in [Version::V10, Version::V11] {
        let (head, body) = request(rt.alloc(), &ADD, version).ok().ok_or("no head")?;
        assert_eq!(rt;
            (head.version, head.id, head.flags, body),
            (version, 1, 3, 44)
        );
        is_key(&rt, &head.target);
        assert_eq!(rt; head.operation.as_slice(), b"add".as_slice());
        assert_eq!(rt; head.contexts.len(), 0);
        let out = written(rt.alloc(), &head).ok().ok_or("not written")?;
        assert_eq!(rt; out.as_slice(), &ADD[..32]);
    }
    Ok(())
}

#[test]
fn a_principal_is_dropped_and_no_response_is_expected(rt: HostRuntime) -> Result<(), Fail> {
    let mut octets = ADD;
    octets[8] = 0;
    octets[31] = 3;
    let (head, body) = request(rt.alloc(), &octets, Version::V10)
        .ok()
        .ok_or("no head")?;
    // The body stands right behind the three octets of the principal.
    assert_eq!(rt; (head.flags, body), (0, 47));
    let out = written(rt.alloc(), &head).ok().ok_or("not written")?;
    octets[31] = 0;
    assert_eq!(rt; out.as_slice(), &octets[..32]);
    octets[8] = 2;
    let refused = request(rt.alloc(), &octets, Version::V10).err();
    assert_eq!(rt; refused, Some(bad(20, CdrKind::BadBoolean)));
    Ok(())
}

#[test]
fn a_target_is_a_key_a_profile_or_a_reference(rt: HostRuntime) -> Result<(), Fail> {
    let (head, body) = request(rt.alloc(), &BY_PROFILE, Version::V12)
        .ok()
        .ok_or("no head")?;
    assert_eq!(rt; (head.id, body), (8, 56));
    let Target::Profile(profile) = &head.target else {
        return Err("no profile".into());
    };
    assert_eq!(rt; profile.tag, 1);
    assert_eq!(rt; profile.octets.as_slice(), [0xAA].as_slice());
    let out = written(rt.alloc(), &head).ok().ok_or("not written")?;
    assert_eq!(rt; out.as_slice(), BY_PROFILE.as_slice());

    let request = locate(rt.alloc(), &BY_REFERENCE, Version::V12)
        .ok()
        .ok_or("no locate")?;
    assert_eq!(rt; request.id, 7);
    let Target::Reference { index, ior } = &request.target else {
        return Err("no reference".into());
    };
    assert_eq!(rt; *index, 3);
    assert_eq!(rt; (ior.type_id.len(), ior.profiles.len()), (0, 0));
    let out = written_locate(rt.alloc(), &request)
        .ok()
        .ok_or("not written")?;
    assert_eq!(rt; out.as_slice(), BY_REFERENCE.as_slice());
    Ok(())
}

#[test]
fn a_reply_is_read_and_written(rt: HostRuntime) -> Result<(), Fail> {
    let (head, body) = reply(rt.alloc(), &WITH_CONTEXT, Version::V12)
        .ok()
        .ok_or("no head")?;
    assert_eq!(rt; (head.id, head.status, body), (1, 0, 40));
    let contexts = head.contexts.as_slice();
    assert_eq!(rt; contexts.len(), 1);
    assert_eq!(rt; contexts[0].id, 9);
    let out = written_reply(rt.alloc(), &head).ok().ok_or("not written")?;
    assert_eq!(rt; out.as_slice(), &WITH_CONTEXT[..21]);
    // Before 1.2 the contexts come first, and the body right behind the status.
    let early = [0, 0, 0, 0, 0, 0, 0, 1, 0, 0, 0, 3, 0, 0, 0, 7];
    for version in [Version::V10, Version::V11] {
        let (head, body) = reply(rt.alloc(), &early, version).ok().ok_or("no head")?;
        assert_eq!(rt;
            (head.version, head.id, head.status, body),
            (version, 1, 3, 24)
        );
        let out = written_reply(rt.alloc(), &head).ok().ok_or("not written")?;
        assert_eq!(rt; out.as_slice(), &early[..12]);
    }
    Ok(())
}

#[test]
fn a_locate_request_is_its_target_and_nothing_else(rt: HostRuntime) -> Result<(), Fail> {
    let octets = [0, 0, 0, 6, 0, 0, 0, 0, 0, 0, 0, 1, 0x6B, 0xEE];
    let request = locate(rt.alloc(), &octets[..13], Version::V12)
        .ok()
        .ok_or("no locate")?;
    assert_eq!(rt; (request.version, request.id), (Version::V12, 6));
    is_key(&rt, &request.target);
    let out = written_locate(rt.alloc(), &request)
        .ok()
        .ok_or("not written")?;
    assert_eq!(rt; out.as_slice(), &octets[..13]);
    let refused = locate(rt.alloc(), &octets, Version::V12).err();
    assert_eq!(rt; refused, Some(bad(25, CdrKind::Trailing)));
    // Before 1.2 there is no disposition.
    let early = [0, 0, 0, 6, 0, 0, 0, 1, 0x6B, 0xEE];
    let request = locate(rt.alloc(), &early[..9], Version::V10)
        .ok()
        .ok_or("no locate")?;
    is_key(&rt, &request.target);
    let out = written_locate(rt.alloc(), &request)
        .ok()
        .ok_or("not written")?;
    assert_eq!(rt; out.as_slice(), &early[..9]);
    let refused = locate(rt.alloc(), &early, Version::V11).err();
    assert_eq!(rt; refused, Some(bad(21, CdrKind::Trailing)));
    Ok(())
}

#[test]
fn a_locate_reply_has_its_octets_behind_the_status(rt: HostRuntime) -> Result<(), Fail> {
    let octets = [0, 0, 0, 6, 0, 0, 0, 1, 0xEE];
    for version in [Version::V10, Version::V11, Version::V12] {
        let (head, behind) = located(&octets, version).ok().ok_or("no head")?;
        assert_eq!(rt;
            (head.version, head.id, head.status, behind),
            (version, 6, 1, 20)
        );
        let out = written_located(rt.alloc(), &head)
            .ok()
            .ok_or("not written")?;
        assert_eq!(rt; out.as_slice(), &octets[..8]);
    }
    Ok(())
}

#[test]
fn what_a_version_has_no_octets_for_is_not_written(rt: HostRuntime) -> Result<(), Fail> {
    let (mut head, _) = request(rt.alloc(), &ADD, Version::V10)
        .ok()
        .ok_or("no head")?;
    head.flags = 1;
    let unfit = Some(EncodeFault::Unfit);
    assert_eq!(rt; written(rt.alloc(), &head).err(), unfit);
    head.flags = 3;
    head.target = Target::Profile(TaggedProfile {
        tag: 0,
        octets: OctetList::new(rt.alloc()),
    });
    assert_eq!(rt; written(rt.alloc(), &head).err(), unfit);
    let target = Target::Reference {
        index: 0,
        ior: Ior {
            type_id: OctetList::new(rt.alloc()),
            profiles: Sequence::new(rt.alloc()),
        },
    };
    let request = LocateRequest {
        version: Version::V11,
        id: 1,
        target,
    };
    assert_eq!(rt; request.is_writable(), false);
    assert_eq!(rt; written_locate(rt.alloc(), &request).err(), unfit);
    for (version, status, located_status) in [
        (Version::V10, 4, 3),
        (Version::V11, 4, 3),
        (Version::V12, 6, 6),
    ] {
        let head = ReplyHead {
            version,
            id: 1,
            status,
            contexts: ServiceContexts::new(rt.alloc()),
        };
        assert_eq!(rt; written_reply(rt.alloc(), &head).err(), unfit);
        let head = LocateReplyHead {
            version,
            id: 1,
            status: located_status,
        };
        assert_eq!(rt; written_located(rt.alloc(), &head).err(), unfit);
    }
    Ok(())
}
