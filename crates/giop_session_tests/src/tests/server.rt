//! What a server's end makes of octets within other limits, and what is taken out. What it makes of
//! octets within the default limits is cases of the built program (tests/cases/check).
use super::sessions::{fed, interface, table};
use giop_calls::{CallFault, ServerEntry};
use giop_session::{ClientEnd, Limits, ServerEnd, SessionFault};
use giop_types::Value;
use std::test::Fail;

// A Request of `ping` in four pieces, as id 1 and big-endian.
const ONE_1: &str = "47494f50010202000000000c000000010300000000000000";

const ONE_2: &str = "47494f50010202070000000c00000001000000016b000000";

const ONE_3: &str = "47494f50010202070000000c000000010000000570696e67";

const ONE_4: &str = "47494f50010200070000000c000000010000000000000000";

// The same as id 2 and little-endian.
const TWO_1: &str = "47494f50010203000c000000020000000300000000000000";

const TWO_2: &str = "47494f50010203070c00000002000000010000006b000000";

const TWO_3: &str = "47494f50010203070c000000020000000500000070696e67";

const TWO_4: &str = "47494f50010201070c000000020000000000000000000000";

// The same in one piece, as id 1.
const PING: &str =
    "47494f500102000000000024000000010300000000000000000000016b0000000000000570696e670000000000000000";

// `add` of 2 and 5, as id 4.
const ADD: &str =
    "47494f50010200000000002c000000040300000000000000000000016b000000000000046164640000000000000000000000000200000005";

// A CancelRequest of id 1.
const CANCEL_1: &str = "47494f50010200020000000400000001";

// A Reply.
const REPLY: &str = "47494f50010200010000000c000000010000000000000000";

#[test]
fn limits_are_met_where_they_would_be_passed(rt: HostRuntime) -> Result<(), Fail> {
    let alloc = rt.alloc();
    let one = Limits {
        calls: 1,
        ..Limits::default()
    };
    // The first three pieces have 28 octets together, the last one eight more.
    let just = Limits {
        gathered: 36,
        ..Limits::default()
    };
    let less = Limits {
        gathered: 35,
        ..Limits::default()
    };
    let rows: [(Limits, &[&str], &str); 6] = [
        (one, &[PING, ADD], "1 Asked, fault 4 too many calls"),
        (one, &[CANCEL_1, PING], "1 Asked, rest 0"),
        (one, &[ONE_1, TWO_1], "1 Gathering, fault 4 too many calls"),
        (just, &[ONE_1, ONE_2, ONE_3, ONE_4], "1 Asked, rest 0"),
        (
            less,
            &[ONE_1, ONE_2, ONE_3, ONE_4],
            "1 Gathering, fault 5 too many gathered octets",
        ),
        (
            less,
            &[ONE_1, ONE_2, ONE_3, PING],
            "1 Gathering, fault 2 call 1: IdInUse",
        ),
    ];
    for (limits, pieces, expected) in &rows {
        let text = fed(alloc, *limits, pieces)?;
        assert_eq!(rt; text.as_str(), *expected);
    }
    Ok(())
}

#[test]
fn reads_of_one_octet_give_the_same_table(rt: HostRuntime) -> Result<(), Fail> {
    let alloc = rt.alloc();
    let interface = interface(alloc)?;
    let mut end = ServerEnd::new(alloc, &interface, Limits::default());
    for piece in [ONE_1, TWO_1, TWO_2, ONE_2, ONE_3, TWO_3, TWO_4, ONE_4, ADD] {
        let octets = hex::decode(alloc, piece)?;
        for octet in &octets {
            end.feed(&[*octet])?;
        }
    }
    assert_eq!(rt;
        table(alloc, &end)?.as_str(),
        "1 Asked, 2 Asked, 4 Asked, rest 0"
    );
    assert!(rt; is_add(end.entry(4)));
    Ok(())
}

// The entry is that of `add` with 2 and 5.
fn is_add(entry: Option<&ServerEntry>) -> bool {
    let Some(ServerEntry::Asked { request }) = entry else {
        return false;
    };
    let ins = request.body.as_slice();
    request.head.operation.as_slice() == b"add".as_slice()
        && matches!(ins, [Value::Long(2), Value::Long(5)])
}

#[test]
fn a_failed_end_stays_failed(rt: HostRuntime) -> Result<(), Fail> {
    let alloc = rt.alloc();
    let interface = interface(alloc)?;
    let mut end = ServerEnd::new(alloc, &interface, Limits::default());
    assert_eq!(rt; end.error_message(), None);
    let reply = hex::decode(alloc, REPLY)?;
    let ping = hex::decode(alloc, PING)?;
    assert_eq!(rt; end.feed(&reply), Err(SessionFault::WrongDirection));
    assert_eq!(rt; end.feed(&ping), Err(SessionFault::WrongDirection));
    assert!(rt; end.entry(1).is_none());
    assert!(rt; matches!(end.take(1), Err(SessionFault::WrongDirection)));
    assert_eq!(rt;
        end.error_message(),
        Some(*b"GIOP\x01\x02\x00\x06\x00\x00\x00\x00")
    );
    Ok(())
}

#[test]
fn what_is_over_is_taken_out(rt: HostRuntime) -> Result<(), Fail> {
    let alloc = rt.alloc();
    let interface = interface(alloc)?;
    let mut end = ServerEnd::new(alloc, &interface, Limits::default());
    let ping = hex::decode(alloc, PING)?;
    let cancel = hex::decode(alloc, CANCEL_1)?;
    end.feed(&ping)?;
    assert!(rt; matches!(end.take(1), Err(SessionFault::StillOpen)));
    end.feed(&cancel)?;
    assert!(rt; matches!(end.take(1), Ok(Some(ServerEntry::Cancelled { .. }))));
    assert!(rt; matches!(end.take(1), Ok(None)));
    end.feed(&ping)?;
    assert_eq!(rt; table(alloc, &end)?.as_str(), "1 Asked, rest 0");
    Ok(())
}

#[test]
fn a_client_without_calls_hears_no_reply(rt: HostRuntime) -> Result<(), Fail> {
    let alloc = rt.alloc();
    let interface = interface(alloc)?;
    let reply = hex::decode(alloc, REPLY)?;
    let mut end = ClientEnd::new(alloc, &interface, Limits::default());
    let unknown = SessionFault::Call {
        id: 1,
        fault: CallFault::UnknownReply,
    };
    assert_eq!(rt; end.feed(&reply), Err(unknown));
    let ping = hex::decode(alloc, PING)?;
    let mut end = ClientEnd::new(alloc, &interface, Limits::default());
    assert_eq!(rt; end.feed(&ping), Err(SessionFault::WrongDirection));
    Ok(())
}
