use giop_cdr::{CdrFault, CdrKind, OctetList, Order};
use giop_msg::{Kind, Msg, Version};
use std::alloc::Global;
use std::test::Fail;

// The payload of a Request of 1.0: the context (9, AA), id 5 behind it.
const WITH_CONTEXT: [u8; 20] = [
    0, 0, 0, 1, 0, 0, 0, 9, 0, 0, 0, 1, 0xAA, 0xEE, 0xEE, 0xEE, 0, 0, 0, 5,
];

// What is answered for a message of these octets, which are copied again where memory was wanting.
fn id_of(
    alloc: Global,
    version: Version,
    kind: Kind,
    octets: &[u8],
) -> Result<Option<Result<u32, CdrFault>>, Fail> {
    let payload = match OctetList::from_slice(alloc, octets) {
        Ok(payload) => payload,
        Err(_) => OctetList::from_slice(alloc, octets)?,
    };
    if payload.len() > 20 {
        return Ok(None);
    }
    let message = Msg {
        version,
        order: Order::Big,
        more: false,
        kind,
        payload,
    };
    Ok(message.request_id())
}

#[test]
fn an_id_stands_at_offset_12_or_behind_contexts(rt: HostRuntime) -> Result<(), Fail> {
    let rows = [
        (Version::V12, Kind::Request, Some(Ok(1))),
        (Version::V11, Kind::Request, Some(Ok(5))),
        (Version::V10, Kind::Request, Some(Ok(5))),
        (Version::V12, Kind::Reply, Some(Ok(1))),
        (Version::V11, Kind::Reply, Some(Ok(5))),
        (Version::V10, Kind::Reply, Some(Ok(5))),
        (Version::V10, Kind::CancelRequest, Some(Ok(1))),
        (Version::V11, Kind::LocateRequest, Some(Ok(1))),
        (Version::V10, Kind::LocateReply, Some(Ok(1))),
        (Version::V12, Kind::Fragment, Some(Ok(1))),
        (Version::V10, Kind::CloseConnection, None),
        (Version::V12, Kind::MessageError, None),
    ];
    for (version, kind, want) in rows {
        let id = id_of(rt.alloc(), version, kind, &WITH_CONTEXT)?;
        assert_eq!(rt; id, want, "{version:?} {kind}");
    }
    Ok(())
}

#[test]
fn octets_before_an_id_are_refused_at_their_field(rt: HostRuntime) -> Result<(), Fail> {
    let rows = [
        (3, 12, CdrKind::Short),
        (4, 12, CdrKind::BadCount),
        (7, 16, CdrKind::Short),
        (11, 20, CdrKind::Short),
        (12, 20, CdrKind::BadCount),
        (13, 28, CdrKind::Short),
        (19, 28, CdrKind::Short),
    ];
    for (octets, at, kind) in rows {
        let front = &WITH_CONTEXT[..octets];
        let id = id_of(rt.alloc(), Version::V10, Kind::Reply, front)?;
        let want = CdrFault { at, kind };
        assert_eq!(rt; id, Some(Err(want)), "{octets} octets");
    }
    // A count of contexts that no message holds.
    let claimed = [0xFF, 0xFF, 0xFF, 0xFF, 0, 0, 0, 1];
    let id = id_of(rt.alloc(), Version::V10, Kind::Request, &claimed)?;
    let want = CdrFault {
        at: 12,
        kind: CdrKind::BadCount,
    };
    assert_eq!(rt; id, Some(Err(want)));
    Ok(())
}
