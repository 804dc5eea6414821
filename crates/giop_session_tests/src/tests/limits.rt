//! Each limit of an end, met just where the next event would pass it.
use super::clients::{Client, all_go as all_go_at_client};
use super::messages::{ADD as ASKS_ADD, Asks, NOTHING, PING as ASKS_PING, SEVEN};
use super::octets::{
    ADD, ADD_1, ADD_2, ADD_3, ADD_4, ADD_5, ADD_48, CANCEL_1, CANCEL_4, CANCEL_5, DONE_1, LOCATE_1,
    LOCATE_2, ONE_1, ONE_2, ONE_3, ONE_4, PING, PING_2, SEVEN_4, SEVEN_4_1, SEVEN_4_2,
};
use super::servers::Server::{Answer, Hear, Take};
use super::servers::all_go;
use giop_cdr::Order::Big;
use giop_session::Limits;
use std::test::Fail;

const FULL: &str = "too many gathered octets";

#[test]
fn an_entry_that_is_taken_makes_room_for_another(rt: HostRuntime) -> Result<(), Fail> {
    let one = Limits {
        calls: 1,
        ..Limits::default()
    };
    all_go(
        &rt,
        rt.alloc(),
        one,
        &[
            (Hear(CANCEL_5), "", "", "open"),
            (Hear(PING), "", "", "1 Asked ping, open"),
            (Hear(CANCEL_5), "", "", "1 Asked ping, open"),
            (
                Answer(1, NOTHING, Big, 24),
                "",
                DONE_1,
                "1 Answered 0 left 0, open",
            ),
            (Take(1), "", "", "open"),
            (Hear(PING_2), "", "", "2 Asked ping, open"),
            (
                Hear(PING),
                "too many calls",
                "",
                "2 Asked ping, too many calls",
            ),
        ],
    )?;
    // A call that is over counts until it is taken out or its id is used again.
    all_go(
        &rt,
        rt.alloc(),
        one,
        &[
            (Hear(PING), "", "", "1 Asked ping, open"),
            (
                Answer(1, NOTHING, Big, 24),
                "",
                DONE_1,
                "1 Answered 0 left 0, open",
            ),
            (Hear(PING), "", "", "1 Asked ping, open"),
            (Hear(CANCEL_1), "", "", "1 Cancelled false 0, open"),
            (
                Hear(PING_2),
                "too many calls",
                "",
                "1 Cancelled false 0, too many calls",
            ),
        ],
    )
}

#[test]
fn a_message_of_the_largest_size_is_taken_and_sent(rt: HostRuntime) -> Result<(), Fail> {
    let just = Limits {
        message: 36,
        ..Limits::default()
    };
    all_go(
        &rt,
        rt.alloc(),
        just,
        &[
            (Hear(PING), "", "", "1 Asked ping, open"),
            (Hear(ADD_48), "", "", "1 Asked ping, 4 Gathering, open"),
            (Hear(ADD_5), "", "", "1 Asked ping, 4 Asked add 2 5, open"),
            (
                Hear(ADD),
                "no message: TooLarge at 8",
                "",
                "1 Asked ping, 4 Asked add 2 5, no message: TooLarge at 8",
            ),
        ],
    )?;
    let other = Asks { id: 5, ..ASKS_ADD };
    all_go_at_client(
        &rt,
        rt.alloc(),
        just,
        &[
            (
                Client::Call(ASKS_PING, Big, 4096),
                "",
                PING,
                "1 Waiting, open",
            ),
            (
                Client::Call(ASKS_ADD, Big, 4096),
                "call 4: Unfit",
                "",
                "1 Waiting, open",
            ),
            (
                Client::Call(ASKS_ADD, Big, 56),
                "call 4: Unfit",
                "",
                "1 Waiting, open",
            ),
            (
                Client::Call(ASKS_ADD, Big, 48),
                "",
                ADD_48,
                "1 Waiting, 4 Sending 1, open",
            ),
            (Client::Send(4), "", ADD_5, "1 Waiting, 4 Waiting, open"),
            (
                Client::Call(other, Big, 56),
                "call 5: Unfit",
                "",
                "1 Waiting, 4 Waiting, open",
            ),
        ],
    )
}

#[test]
fn a_call_of_the_most_octets_is_gathered_and_sent(rt: HostRuntime) -> Result<(), Fail> {
    let just = Limits {
        gathered: 44,
        ..Limits::default()
    };
    let less = Limits {
        gathered: 43,
        ..just
    };
    all_go(
        &rt,
        rt.alloc(),
        just,
        &[
            (Hear(ADD_48), "", "", "4 Gathering, open"),
            (Hear(ADD_5), "", "", "4 Asked add 2 5, open"),
        ],
    )?;
    all_go(
        &rt,
        rt.alloc(),
        less,
        &[
            (Hear(ADD_48), "", "", "4 Gathering, open"),
            (
                Hear(ADD_5),
                FULL,
                "",
                "4 Gathering, too many gathered octets",
            ),
        ],
    )?;
    all_go_at_client(
        &rt,
        rt.alloc(),
        just,
        &[(
            Client::Call(ASKS_ADD, Big, 4096),
            "",
            ADD,
            "4 Waiting, open",
        )],
    )?;
    all_go_at_client(
        &rt,
        rt.alloc(),
        less,
        &[
            (
                Client::Call(ASKS_ADD, Big, 4096),
                "call 4: Unfit",
                "",
                "open",
            ),
            (Client::Call(ASKS_ADD, Big, 24), "call 4: Unfit", "", "open"),
        ],
    )
}

// The first pieces of `ping` bring 12, 8 and 8 octets, those of the LocateRequest 12 and 1, and
// those of `add` 12 and four times 8.
#[test]
fn octets_of_all_calls_count_until_their_last_piece(rt: HostRuntime) -> Result<(), Fail> {
    let limits = Limits {
        gathered: 48,
        ..Limits::default()
    };
    all_go(
        &rt,
        rt.alloc(),
        limits,
        &[
            (Hear(ONE_1), "", "", "1 Gathering, open"),
            (Hear(ONE_2), "", "", "1 Gathering, open"),
            (Hear(ONE_3), "", "", "1 Gathering, open"),
            (Hear(LOCATE_1), "", "", "1 Gathering, 6 Gathering, open"),
            (Hear(ONE_4), "", "", "1 Asked ping, 6 Gathering, open"),
            (
                Hear(ADD_1),
                "",
                "",
                "1 Asked ping, 4 Gathering, 6 Gathering, open",
            ),
            (
                Hear(ADD_2),
                "",
                "",
                "1 Asked ping, 4 Gathering, 6 Gathering, open",
            ),
            (
                Hear(LOCATE_2),
                "",
                "",
                "1 Asked ping, 4 Gathering, 6 LocateAsked, open",
            ),
            (
                Hear(ADD_3),
                "",
                "",
                "1 Asked ping, 4 Gathering, 6 LocateAsked, open",
            ),
            (
                Hear(ADD_4),
                "",
                "",
                "1 Asked ping, 4 Gathering, 6 LocateAsked, open",
            ),
            (
                Hear(LOCATE_1),
                "call 6: IdInUse",
                "",
                "1 Asked ping, 4 Gathering, 6 LocateAsked, call 6: IdInUse",
            ),
        ],
    )?;
    // What a cancel drops counts no longer.
    all_go(
        &rt,
        rt.alloc(),
        limits,
        &[
            (Hear(ADD_48), "", "", "4 Gathering, open"),
            (Hear(ONE_1), "", "", "1 Gathering, 4 Gathering, open"),
            (
                Hear(CANCEL_4),
                "",
                "",
                "1 Gathering, 4 Cancelled false 0, open",
            ),
            (Hear(ADD_48), "", "", "1 Gathering, 4 Gathering, open"),
            (
                Hear(ONE_2),
                FULL,
                "",
                "1 Gathering, 4 Gathering, too many gathered octets",
            ),
        ],
    )
}

#[test]
fn octets_of_replies_are_gathered_within_the_limit(rt: HostRuntime) -> Result<(), Fail> {
    let limits = Limits {
        gathered: 44,
        ..Limits::default()
    };
    let other = Asks { id: 5, ..ASKS_ADD };
    let add_5 =
        "47494f50010200000000002c000000050300000000000000000000016b000000000000046164640000000000000000000000000200000005";
    let long =
        "47494f5001020201000000240000000500000000000000010000000900000014aabbccddaabbccddaabbccddaabbccdd";
    all_go_at_client(
        &rt,
        rt.alloc(),
        limits,
        &[
            (
                Client::Call(ASKS_ADD, Big, 4096),
                "",
                ADD,
                "4 Waiting, open",
            ),
            (
                Client::Call(other, Big, 4096),
                "",
                add_5,
                "4 Waiting, 5 Waiting, open",
            ),
            (
                Client::Hear(SEVEN_4_1),
                "",
                "",
                "4 Gathering, 5 Waiting, open",
            ),
            (
                Client::Hear(SEVEN_4_2),
                "",
                "",
                "4 Done 0 7, 5 Waiting, open",
            ),
            (
                Client::Call(ASKS_ADD, Big, 4096),
                "",
                ADD,
                "4 Waiting, 5 Waiting, open",
            ),
            (Client::Hear(long), "", "", "4 Waiting, 5 Gathering, open"),
            (
                Client::Hear(SEVEN_4),
                "",
                "",
                "4 Done 0 7, 5 Gathering, open",
            ),
            (
                Client::Call(ASKS_ADD, Big, 4096),
                "",
                ADD,
                "4 Waiting, 5 Gathering, open",
            ),
            (
                Client::Hear(SEVEN_4_1),
                FULL,
                "",
                "4 Waiting, 5 Gathering, too many gathered octets",
            ),
        ],
    )
}
