//! Calls: when each is over, and what came of it.
use super::told::{ASKED, Brought, DONE, ONEWAY, check, first, message, whole};
use giop_cdr::Order;
use giop_msg::Kind;
use giop_trace::{Direction, Observer};
use std::test::Fail;

const CLIENT: Direction = Direction::Client;

const SERVER: Direction = Direction::Server;

// The octets of a Request of `ping` behind its response flags.
const BEHIND_FLAGS: [u8; 28] = [
    0, 0, 0, 0, 0, 0, 0, 1, b'k', 0, 0, 0, 0, 0, 0, 5, b'p', b'i', b'n', b'g', 0, 0, 0, 0, 0, 0, 0,
    0,
];

#[test]
fn a_call_is_over_when_its_reply_is_whole(rt: HostRuntime) -> Result<(), Fail> {
    check(
        &rt,
        false,
        &[
            (whole(CLIENT, Kind::Request, 7, &ASKED), "7"),
            (whole(CLIENT, Kind::LocateRequest, 9, &[0; 12]), "9"),
            (
                whole(SERVER, Kind::LocateReply, 9, &[0, 0, 0, 1]),
                "9 over asked 16 answer 8",
            ),
            (
                whole(SERVER, Kind::Reply, 7, &DONE),
                "7 over asked 36 answer 12",
            ),
        ],
    )
}

#[test]
fn a_oneway_is_over_when_it_is_whole(rt: HostRuntime) -> Result<(), Fail> {
    check(
        &rt,
        false,
        &[
            (whole(CLIENT, Kind::Request, 7, &ONEWAY), "7 over asked 36"),
            (first(CLIENT, Kind::Request, 8, &[0, 0, 0, 0]), "8"),
            (
                whole(CLIENT, Kind::Fragment, 8, &BEHIND_FLAGS),
                "8 over asked 36",
            ),
            (first(CLIENT, Kind::Request, 9, &[3, 0, 0, 0]), "9"),
            (whole(CLIENT, Kind::Fragment, 9, &BEHIND_FLAGS), "9"),
            (first(CLIENT, Kind::Request, 10, &[0, 0, 0, 0]), "10"),
            (whole(CLIENT, Kind::Fragment, 10, &[0, 0]), "10"),
        ],
    )
}

#[test]
fn fragments_of_both_directions_interleave(rt: HostRuntime) -> Result<(), Fail> {
    check(
        &rt,
        false,
        &[
            (first(CLIENT, Kind::Request, 1, &[3, 0, 0, 0]), "1"),
            (first(CLIENT, Kind::Request, 2, &[3, 0, 0, 0]), "2"),
            (first(CLIENT, Kind::Fragment, 1, &[0, 0, 0, 0]), "1"),
            (whole(CLIENT, Kind::Fragment, 2, &[0, 0]), "2"),
            (first(SERVER, Kind::Reply, 2, &DONE), "2"),
            (whole(CLIENT, Kind::Fragment, 1, &[5, 5]), "1"),
            (first(SERVER, Kind::Reply, 1, &DONE), "1"),
            (
                whole(SERVER, Kind::Fragment, 2, &[9]),
                "2 over asked 10 answer 13",
            ),
            (
                whole(SERVER, Kind::Fragment, 1, &[]),
                "1 over asked 14 answer 12",
            ),
        ],
    )
}

#[test]
fn an_id_used_again_is_a_new_call(rt: HostRuntime) -> Result<(), Fail> {
    check(
        &rt,
        false,
        &[
            (whole(CLIENT, Kind::Request, 7, &ASKED), "7"),
            (
                whole(SERVER, Kind::Reply, 7, &DONE),
                "7 over asked 36 answer 12",
            ),
            (whole(CLIENT, Kind::Request, 7, &ASKED), "7"),
            (
                whole(CLIENT, Kind::Request, 7, &ONEWAY),
                "7 before asked 36 over asked 36",
            ),
            (first(CLIENT, Kind::Request, 7, &[3]), "7"),
            (
                whole(CLIENT, Kind::LocateRequest, 7, &[0; 12]),
                "7 before asked 5..",
            ),
            (
                whole(SERVER, Kind::LocateReply, 7, &[0, 0, 0, 1]),
                "7 over asked 16 answer 8",
            ),
        ],
    )
}

#[test]
fn a_cancelled_call_may_be_answered_still(rt: HostRuntime) -> Result<(), Fail> {
    check(
        &rt,
        false,
        &[
            (whole(CLIENT, Kind::Request, 7, &ASKED), "7"),
            (whole(CLIENT, Kind::CancelRequest, 7, &[]), "7"),
            (
                whole(SERVER, Kind::Reply, 7, &DONE),
                "7 over asked 36 answer 12 cancelled",
            ),
            (whole(CLIENT, Kind::CancelRequest, 7, &[]), "7"),
            (first(CLIENT, Kind::Request, 8, &[3, 0, 0, 0]), "8"),
            (
                whole(CLIENT, Kind::CancelRequest, 8, &[]),
                "8 over asked 8.. cancelled",
            ),
        ],
    )
}

#[test]
fn a_client_heard_alone_is_told_at_once(rt: HostRuntime) -> Result<(), Fail> {
    check(
        &rt,
        true,
        &[
            (whole(CLIENT, Kind::Request, 7, &ASKED), "7 over asked 36"),
            (first(CLIENT, Kind::LocateRequest, 8, &[0; 4]), "8"),
            (whole(CLIENT, Kind::CancelRequest, 7, &[]), "7"),
            (whole(CLIENT, Kind::Fragment, 8, &[0; 8]), "8 over asked 16"),
        ],
    )
}

#[test]
fn open_calls_are_listed_ascending(rt: HostRuntime) -> Result<(), Fail> {
    let mut observer = Observer::new(rt.alloc(), false);
    for id in [9, 4, 7] {
        let request = message(rt.alloc(), whole(CLIENT, Kind::Request, id, &ASKED))?;
        observer.hear(CLIENT, request)?;
    }
    let reply = message(rt.alloc(), whole(SERVER, Kind::Reply, 7, &DONE))?;
    observer.hear(SERVER, reply)?;
    assert_eq!(rt; observer.ids(rt.alloc())?.as_slice(), [4, 9].as_slice());
    assert!(rt; observer.flow(9).is_some());
    assert!(rt; observer.flow(7).is_none());
    Ok(())
}

#[test]
fn an_answer_is_early_before_its_request_is_whole(rt: HostRuntime) -> Result<(), Fail> {
    let mut observer = Observer::new(rt.alloc(), false);
    let reply = message(rt.alloc(), whole(SERVER, Kind::Reply, 7, &DONE))?;
    let fragment = message(rt.alloc(), whole(SERVER, Kind::Fragment, 7, &DONE))?;
    assert!(rt; observer.is_early(&reply));
    assert!(rt; !observer.is_early(&fragment));
    let begun = message(rt.alloc(), first(CLIENT, Kind::Request, 7, &[3, 0, 0, 0]))?;
    observer.hear(CLIENT, begun)?;
    assert!(rt; observer.is_early(&reply));
    let rest = message(rt.alloc(), whole(CLIENT, Kind::Fragment, 7, &[0; 28]))?;
    observer.hear(CLIENT, rest)?;
    assert!(rt; !observer.is_early(&reply));
    observer.hear(SERVER, reply)?;
    let again = message(rt.alloc(), whole(SERVER, Kind::Reply, 7, &DONE))?;
    assert!(rt; observer.is_early(&again));
    Ok(())
}

#[test]
fn both_byte_orders_stand_side_by_side(rt: HostRuntime) -> Result<(), Fail> {
    let asked = Brought {
        order: Order::Little,
        ..whole(CLIENT, Kind::Request, 7, &[3, 0, 0, 0])
    };
    let answer = Brought {
        order: Order::Little,
        ..whole(SERVER, Kind::Reply, 8, &DONE)
    };
    check(
        &rt,
        false,
        &[
            (asked, "7"),
            (whole(CLIENT, Kind::Request, 8, &ASKED), "8"),
            (
                whole(SERVER, Kind::Reply, 7, &DONE),
                "7 over asked 8 answer 12",
            ),
            (answer, "8 over asked 36 answer 12"),
        ],
    )
}
