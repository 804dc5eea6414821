//! Messages that have no place in a call.
use super::told::{ASKED, Brought, DONE, check, first, whole};
use giop_cdr::Order;
use giop_msg::Kind;
use giop_trace::Direction;
use std::test::Fail;

const CLIENT: Direction = Direction::Client;

const SERVER: Direction = Direction::Server;

#[test]
fn a_reply_that_no_one_asked_for_is_told(rt: HostRuntime) -> Result<(), Fail> {
    check(
        &rt,
        false,
        &[
            (whole(SERVER, Kind::Reply, 7, &DONE), "7 over answer 12"),
            (first(SERVER, Kind::Reply, 8, &DONE), "8"),
            (
                whole(SERVER, Kind::Fragment, 8, &[1, 2]),
                "8 over answer 14",
            ),
            (whole(CLIENT, Kind::Request, 9, &ASKED), "9"),
            (first(SERVER, Kind::Reply, 9, &DONE), "9"),
            (
                whole(SERVER, Kind::Reply, 9, &DONE),
                "9 before asked 36 answer 12.. over answer 12",
            ),
        ],
    )
}

#[test]
fn a_fragment_that_continues_nothing_is_told_by_itself(rt: HostRuntime) -> Result<(), Fail> {
    let other_order = Brought {
        order: Order::Little,
        ..whole(CLIENT, Kind::Fragment, 7, &[1])
    };
    check(
        &rt,
        false,
        &[
            (whole(CLIENT, Kind::Fragment, 7, &[1]), "7 over asked 5"),
            (whole(SERVER, Kind::Fragment, 7, &[1]), "7 over answer 5"),
            (first(CLIENT, Kind::Request, 7, &[3, 0, 0, 0]), "7"),
            (whole(SERVER, Kind::Fragment, 7, &[1]), "7 over answer 5"),
            (other_order, "7 over asked 5"),
            (whole(CLIENT, Kind::Fragment, 7, &[1]), "7"),
            (whole(CLIENT, Kind::Fragment, 7, &[1]), "7 over asked 5"),
            (
                whole(SERVER, Kind::Reply, 7, &DONE),
                "7 over asked 9 answer 12",
            ),
        ],
    )
}

#[test]
fn a_message_of_the_other_direction_is_told_by_itself(rt: HostRuntime) -> Result<(), Fail> {
    check(
        &rt,
        false,
        &[
            (whole(CLIENT, Kind::Request, 7, &ASKED), "7"),
            (whole(CLIENT, Kind::Reply, 7, &DONE), "7 over asked 12"),
            (
                whole(CLIENT, Kind::LocateReply, 7, &DONE),
                "7 over asked 12",
            ),
            (whole(SERVER, Kind::Request, 7, &ASKED), "7 over answer 36"),
            (
                whole(SERVER, Kind::LocateRequest, 7, &DONE),
                "7 over answer 12",
            ),
            (
                whole(SERVER, Kind::CancelRequest, 7, &[]),
                "7 over answer 4",
            ),
            (
                whole(SERVER, Kind::Reply, 7, &DONE),
                "7 over asked 36 answer 12",
            ),
        ],
    )
}

#[test]
fn a_message_without_an_id_is_told_by_itself(rt: HostRuntime) -> Result<(), Fail> {
    check(
        &rt,
        false,
        &[
            (whole(CLIENT, Kind::Request, 7, &ASKED), "7"),
            (
                whole(SERVER, Kind::CloseConnection, 0, &[]),
                "- over answer 0",
            ),
            (
                whole(CLIENT, Kind::CloseConnection, 0, &[]),
                "- over asked 0",
            ),
            (whole(CLIENT, Kind::MessageError, 0, &[]), "- over asked 0"),
            (whole(SERVER, Kind::MessageError, 0, &[]), "- over answer 0"),
            (
                whole(SERVER, Kind::Reply, 7, &DONE),
                "7 over asked 36 answer 12",
            ),
        ],
    )
}
