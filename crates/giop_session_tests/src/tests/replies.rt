//! What a client makes of what its peer answers.
use super::clients::Client::{Call, Cancel, Hear, Locate, Send, Take};
use super::clients::all_go;
use super::messages::{ADD as ASKS_ADD, Asks, PING as ASKS_PING};
use super::octets::{
    ADD, ADD_1, ADD_V10, BARE_1, BARE_4, CANCEL_4, CLOSE, DONE_1, DONE_6, ERROR, HERE_4, HERE_6,
    LOCATE, ONE_1, ONE_4, PADDED_1, PADDED_4, PING, PONG_7, SEVEN_1, SEVEN_4, SEVEN_4_1, SEVEN_4_2,
    SEVEN_4_2_LITTLE, SEVEN_4_CONTEXT, SYSTEM_7, SYSTEM_7_1, SYSTEM_7_2, SYSTEM_7_3,
};
use giop_cdr::Order::Big;
use giop_msg::Version;
use giop_session::Limits;
use std::test::Fail;

#[test]
fn a_reply_is_read_as_one_to_its_request(rt: HostRuntime) -> Result<(), Fail> {
    all_go(
        &rt,
        rt.alloc(),
        Limits::default(),
        &[
            (Call(ASKS_ADD, Big, 56), "", ADD, "4 Waiting, open"),
            (Hear(SEVEN_4), "", "", "4 Done 0 7, open"),
            (Call(ASKS_ADD, Big, 56), "", ADD, "4 Waiting, open"),
            (Hear(SEVEN_4_CONTEXT), "", "", "4 Done 0 7, open"),
            (Call(ASKS_ADD, Big, 56), "", ADD, "4 Waiting, open"),
            (Hear(BARE_4), "", "", "4 Undecoded Short at 40, open"),
            (Call(ASKS_ADD, Big, 56), "", ADD, "4 Waiting, open"),
            (Hear(PADDED_4), "", "", "4 Undecoded Short at 40, open"),
            (Take(4), "", "", "open"),
            (Call(ASKS_PING, Big, 56), "", PING, "1 Waiting, open"),
            (Hear(BARE_1), "", "", "1 Done 0, open"),
            (Call(ASKS_PING, Big, 56), "", PING, "1 Waiting, open"),
            (Hear(PADDED_1), "", "", "1 Done 0, open"),
            (Call(ASKS_PING, Big, 56), "", PING, "1 Waiting, open"),
            (Hear(SEVEN_1), "", "", "1 Undecoded Trailing at 24, open"),
        ],
    )
}

#[test]
fn a_reply_in_pieces_is_that_of_all_of_them(rt: HostRuntime) -> Result<(), Fail> {
    let pong = Asks { id: 7, ..ASKS_PING };
    let ping_7 =
        "47494f500102000000000024000000070300000000000000000000016b0000000000000570696e670000000000000000";
    all_go(
        &rt,
        rt.alloc(),
        Limits::default(),
        &[
            (Call(ASKS_ADD, Big, 56), "", ADD, "4 Waiting, open"),
            (
                Call(pong, Big, 56),
                "",
                ping_7,
                "4 Waiting, 7 Waiting, open",
            ),
            (Hear(SYSTEM_7_1), "", "", "4 Waiting, 7 Gathering, open"),
            (Hear(SEVEN_4_1), "", "", "4 Gathering, 7 Gathering, open"),
            (Hear(SYSTEM_7_2), "", "", "4 Gathering, 7 Gathering, open"),
            (
                Take(7),
                "the call is open",
                "",
                "4 Gathering, 7 Gathering, open",
            ),
            (
                Call(pong, Big, 56),
                "call 7: IdInUse",
                "",
                "4 Gathering, 7 Gathering, open",
            ),
            (Hear(SEVEN_4_2), "", "", "4 Done 0 7, 7 Gathering, open"),
            (Hear(SYSTEM_7_3), "", "", "4 Done 0 7, 7 Done 2, open"),
            (
                Call(pong, Big, 56),
                "",
                ping_7,
                "4 Done 0 7, 7 Waiting, open",
            ),
            (Hear(SYSTEM_7), "", "", "4 Done 0 7, 7 Done 2, open"),
        ],
    )
}

#[test]
fn a_reply_that_answers_no_call_fails_the_client(rt: HostRuntime) -> Result<(), Fail> {
    let limits = Limits::default();
    let old = Asks {
        id: 1,
        version: Version::V10,
        ..ASKS_ADD
    };
    all_go(
        &rt,
        rt.alloc(),
        limits,
        &[
            (Call(ASKS_ADD, Big, 24), "", ADD_1, "4 Sending 4, open"),
            (
                Hear(SEVEN_4),
                "call 4: UnknownReply",
                "",
                "4 Sending 4, call 4: UnknownReply",
            ),
            (
                Send(4),
                "call 4: UnknownReply",
                "",
                "4 Sending 4, call 4: UnknownReply",
            ),
        ],
    )?;
    all_go(
        &rt,
        rt.alloc(),
        limits,
        &[
            (Call(ASKS_ADD, Big, 56), "", ADD, "4 Waiting, open"),
            (
                Hear(HERE_4),
                "call 4: WrongKind",
                "",
                "4 Waiting, call 4: WrongKind",
            ),
            (
                Take(4),
                "call 4: WrongKind",
                "",
                "4 Waiting, call 4: WrongKind",
            ),
        ],
    )?;
    all_go(
        &rt,
        rt.alloc(),
        limits,
        &[
            (
                Locate(Version::V12, 6, Big, 32),
                "",
                LOCATE,
                "6 Waiting, open",
            ),
            (
                Hear(DONE_6),
                "call 6: WrongKind",
                "",
                "6 Waiting, call 6: WrongKind",
            ),
            (
                Cancel(6, Big),
                "call 6: WrongKind",
                "",
                "6 Waiting, call 6: WrongKind",
            ),
        ],
    )?;
    all_go(
        &rt,
        rt.alloc(),
        limits,
        &[
            (Call(old, Big, 24), "", ADD_V10, "1 Waiting, open"),
            (
                Hear(SEVEN_1),
                "call 1: WrongKind",
                "",
                "1 Waiting, call 1: WrongKind",
            ),
            (
                Call(ASKS_ADD, Big, 24),
                "call 1: WrongKind",
                "",
                "1 Waiting, call 1: WrongKind",
            ),
        ],
    )?;
    all_go(
        &rt,
        rt.alloc(),
        limits,
        &[
            (Call(ASKS_ADD, Big, 56), "", ADD, "4 Waiting, open"),
            (Hear(SEVEN_4), "", "", "4 Done 0 7, open"),
            (
                Hear(SEVEN_4),
                "call 4: UnknownReply",
                "",
                "4 Done 0 7, call 4: UnknownReply",
            ),
        ],
    )
}

#[test]
fn a_piece_that_continues_no_reply_fails_the_client(rt: HostRuntime) -> Result<(), Fail> {
    let limits = Limits::default();
    all_go(
        &rt,
        rt.alloc(),
        limits,
        &[
            (Call(ASKS_ADD, Big, 56), "", ADD, "4 Waiting, open"),
            (
                Hear(SEVEN_4_2),
                "call 4: Stray",
                "",
                "4 Waiting, call 4: Stray",
            ),
        ],
    )?;
    all_go(
        &rt,
        rt.alloc(),
        limits,
        &[
            (Call(ASKS_ADD, Big, 56), "", ADD, "4 Waiting, open"),
            (Hear(SEVEN_4_1), "", "", "4 Gathering, open"),
            (
                Hear(SEVEN_4_2_LITTLE),
                "call 4: OrderDiffers",
                "",
                "4 Gathering, call 4: OrderDiffers",
            ),
        ],
    )?;
    all_go(
        &rt,
        rt.alloc(),
        limits,
        &[(Hear(SEVEN_4_2), "call 4: Stray", "", "call 4: Stray")],
    )
}

#[test]
fn a_late_reply_to_a_cancelled_call_is_dropped(rt: HostRuntime) -> Result<(), Fail> {
    let limits = Limits::default();
    all_go(
        &rt,
        rt.alloc(),
        limits,
        &[
            (Call(ASKS_ADD, Big, 56), "", ADD, "4 Waiting, open"),
            (Cancel(4, Big), "", CANCEL_4, "4 Cancelled None, open"),
            (Hear(SEVEN_4_2_LITTLE), "", "", "4 Cancelled None, open"),
            (Hear(SEVEN_4_1), "", "", "4 Cancelled Begun, open"),
            (
                Call(ASKS_ADD, Big, 56),
                "call 4: IdInUse",
                "",
                "4 Cancelled Begun, open",
            ),
            (Hear(SEVEN_4_2_LITTLE), "", "", "4 Cancelled Seen, open"),
            (Hear(SEVEN_4_2), "", "", "4 Cancelled Seen, open"),
            (
                Hear(SEVEN_4),
                "call 4: UnknownReply",
                "",
                "4 Cancelled Seen, call 4: UnknownReply",
            ),
        ],
    )?;
    all_go(
        &rt,
        rt.alloc(),
        limits,
        &[
            (Call(ASKS_ADD, Big, 56), "", ADD, "4 Waiting, open"),
            (Cancel(4, Big), "", CANCEL_4, "4 Cancelled None, open"),
            (Hear(HERE_4), "", "", "4 Cancelled Seen, open"),
            (Call(ASKS_ADD, Big, 56), "", ADD, "4 Waiting, open"),
            (Hear(SEVEN_4), "", "", "4 Done 0 7, open"),
        ],
    )
}

#[test]
fn the_end_of_a_connection_leaves_the_calls(rt: HostRuntime) -> Result<(), Fail> {
    let limits = Limits::default();
    let closed = "the connection is closed";
    all_go(
        &rt,
        rt.alloc(),
        limits,
        &[
            (Call(ASKS_PING, Big, 48), "", PING, "1 Waiting, open"),
            (
                Hear(CLOSE),
                closed,
                "",
                "1 Waiting, the connection is closed",
            ),
            (
                Hear(DONE_1),
                closed,
                "",
                "1 Waiting, the connection is closed",
            ),
        ],
    )?;
    all_go(
        &rt,
        rt.alloc(),
        limits,
        &[
            (Call(ASKS_PING, Big, 24), "", ONE_1, "1 Sending 3, open"),
            (
                Hear(ERROR),
                "the peer tells an error",
                "",
                "1 Sending 3, the peer tells an error",
            ),
            (
                Send(1),
                "the peer tells an error",
                "",
                "1 Sending 3, the peer tells an error",
            ),
        ],
    )?;
    for request in [PONG_7, LOCATE, CANCEL_4] {
        let wrong = "a message of the wrong direction";
        all_go(
            &rt,
            rt.alloc(),
            limits,
            &[(Hear(request), wrong, "", wrong)],
        )?;
    }
    all_go(
        &rt,
        rt.alloc(),
        limits,
        &[(
            Hear(HERE_6),
            "call 6: UnknownReply",
            "",
            "call 6: UnknownReply",
        )],
    )?;
    all_go(
        &rt,
        rt.alloc(),
        limits,
        &[(Hear(ONE_4), "call 1: Stray", "", "call 1: Stray")],
    )
}
