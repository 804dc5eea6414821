//! Headers that are made, and names. Headers that are read, and each fault of one, are cases of the
//! built program (tests/cases/headers).
use giop_cdr::Order;
use giop_msg::{Header, Kind, Version, WireFault, WireKind};
use std::fmt;
use std::test::Fail;

/// A header: magic, version 1.2, flags, message type, and the four octets of the size.
const fn front(flags: u8, kind: u8, size: [u8; 4]) -> [u8; 12] {
    front_of(2, flags, kind, size)
}

/// The same of version 1 and a minor number.
const fn front_of(minor: u8, flags: u8, kind: u8, size: [u8; 4]) -> [u8; 12] {
    let [a, b, c, d] = size;
    [0x47, 0x49, 0x4F, 0x50, 1, minor, flags, kind, a, b, c, d]
}

/// What is printed of the value. Where memory is refused, it is printed again.
fn printed(rt: &impl AllocGlobal, value: &impl fmt::Display) -> Result<String, Fail> {
    match format!(in rt.alloc(); "{value}") {
        Ok(text) => Ok(text),
        Err(_) => Ok(format!(in rt.alloc(); "{value}")?),
    }
}

#[test]
fn a_header_is_its_twelve_octets(rt: HostRuntime) {
    let request = Header {
        version: Version::V12,
        order: Order::Big,
        more: true,
        kind: Kind::Request,
        size: 0x0102_030C,
    };
    assert_eq!(rt; request.octets(), front(2, 0, [1, 2, 3, 12]));
    let fragment = Header {
        version: Version::V12,
        order: Order::Little,
        more: false,
        kind: Kind::Fragment,
        size: 0x0102_030C,
    };
    assert_eq!(rt; fragment.octets(), front(1, 7, [12, 3, 2, 1]));
    let versions = [(Version::V10, 0), (Version::V11, 1), (Version::V12, 2)];
    for (version, minor) in versions {
        let header = Header {
            version,
            ..fragment
        };
        assert_eq!(rt; header.octets(), front_of(minor, 1, 7, [12, 3, 2, 1]));
        assert_eq!(rt; version.minor(), minor);
        assert_eq!(rt; version.has_fragments(), minor == 2);
    }
}

#[test]
fn kinds_have_their_types_and_names(rt: HostRuntime) -> Result<(), Fail> {
    // The kind, its name, whether it has a request id, whether Fragments continue it.
    let rows = [
        (Kind::Request, "Request", true, true),
        (Kind::Reply, "Reply", true, true),
        (Kind::CancelRequest, "CancelRequest", true, false),
        (Kind::LocateRequest, "LocateRequest", true, true),
        (Kind::LocateReply, "LocateReply", true, true),
        (Kind::CloseConnection, "CloseConnection", false, false),
        (Kind::MessageError, "MessageError", false, false),
        (Kind::Fragment, "Fragment", true, true),
    ];
    let mut number = 0u8;
    for (kind, name, has_id, continued) in rows {
        assert_eq!(rt; kind.number(), number);
        assert_eq!(rt; printed(&rt, &kind)?.as_str(), name);
        assert_eq!(rt; kind.has_request_id(), has_id, "{name}");
        assert_eq!(rt; kind.is_fragmentable(), continued, "{name}");
        number = number.wrapping_add(1);
    }
    Ok(())
}

#[test]
fn faults_have_their_numbers_and_names(rt: HostRuntime) -> Result<(), Fail> {
    let rows = [
        (WireKind::BadMagic, "BadMagic"),
        (WireKind::BadVersion, "BadVersion"),
        (WireKind::ReservedFlags, "ReservedFlags"),
        (WireKind::BadKind, "BadKind"),
        (WireKind::TooLarge, "TooLarge"),
        (WireKind::BadSize, "BadSize"),
        (WireKind::FragmentSize, "FragmentSize"),
        (WireKind::NotFragmentable, "NotFragmentable"),
        (WireKind::NoMemory, "NoMemory"),
    ];
    let mut number = 1u8;
    for (kind, name) in rows {
        let fault = WireFault { at: 6, kind };
        assert_eq!(rt; fault.number(), number);
        assert_eq!(rt; kind.number(), number);
        let placed = format!(in rt.alloc(); "{name} at 6")?;
        assert_eq!(rt; printed(&rt, &fault)?.as_str(), placed.as_str());
        assert_eq!(rt; printed(&rt, &kind)?.as_str(), name);
        number = number.wrapping_add(1);
    }
    Ok(())
}
