//! What a client puts out for a call and for a cancel, and how each is refused.
use super::clients::Client::{Call, Cancel, Hear, Locate, Send, Take};
use super::clients::all_go;
use super::messages::{ADD as ASKS_ADD, Asks, Holds, PING as ASKS_PING, TELL as ASKS_TELL};
use super::octets::{
    ADD, ADD_1, ADD_2, ADD_5, ADD_48, ADD_V10, ADD_V11_LITTLE, CANCEL_1, CANCEL_1_V10_LITTLE,
    CANCEL_1_V11, CANCEL_4, CANCEL_5, CANCEL_5_LITTLE, LIST_LITTLE, ONE_1, ONE_2, ONE_3, ONE_4,
    ONE_40, PING, PING_5 as PING_5_OCTETS, SEVEN_4_1, TELL, TELL_1, TELL_2, TELL_3, TELL_4, TELL_5,
    TELL_V10, TWO_1, TWO_2, TWO_3, TWO_4,
};
use giop_cdr::Order::{Big, Little};
use giop_msg::Version;
use giop_session::Limits;
use std::test::Fail;

const PING_2: Asks = Asks { id: 2, ..ASKS_PING };

const PING_5: Asks = Asks { id: 5, ..ASKS_PING };

#[test]
fn a_call_goes_out_piece_by_piece(rt: HostRuntime) -> Result<(), Fail> {
    all_go(
        &rt,
        rt.alloc(),
        Limits::default(),
        &[
            (Call(ASKS_PING, Big, 24), "", ONE_1, "1 Sending 3, open"),
            (Send(1), "", ONE_2, "1 Sending 2, open"),
            (Send(1), "", ONE_3, "1 Sending 1, open"),
            (Send(1), "", ONE_4, "1 Waiting, open"),
            (Send(1), "call 1: NothingToSend", "", "1 Waiting, open"),
            (Send(7), "call 7: NothingToSend", "", "1 Waiting, open"),
        ],
    )
}

#[test]
fn pieces_of_two_calls_go_out_each_in_its_order(rt: HostRuntime) -> Result<(), Fail> {
    all_go(
        &rt,
        rt.alloc(),
        Limits::default(),
        &[
            (Call(PING_2, Little, 24), "", TWO_1, "2 Sending 3, open"),
            (
                Call(ASKS_PING, Big, 24),
                "",
                ONE_1,
                "1 Sending 3, 2 Sending 3, open",
            ),
            (Send(2), "", TWO_2, "1 Sending 3, 2 Sending 2, open"),
            (Send(1), "", ONE_2, "1 Sending 2, 2 Sending 2, open"),
            (Send(1), "", ONE_3, "1 Sending 1, 2 Sending 2, open"),
            (Send(2), "", TWO_3, "1 Sending 1, 2 Sending 1, open"),
            (Send(2), "", TWO_4, "1 Sending 1, 2 Waiting, open"),
            (Send(1), "", ONE_4, "1 Waiting, 2 Waiting, open"),
        ],
    )
}

#[test]
fn a_call_goes_out_in_as_few_pieces_as_its_form_lets(rt: HostRuntime) -> Result<(), Fail> {
    let list = Asks {
        id: 3,
        operation: b"list",
        ins: Holds::List(&[1, -1]),
        ..ASKS_PING
    };
    all_go(
        &rt,
        rt.alloc(),
        Limits::default(),
        &[
            (Call(ASKS_PING, Big, 40), "", ONE_40, "1 Sending 1, open"),
            (Send(1), "", ONE_4, "1 Waiting, open"),
            (
                Call(PING_5, Big, 48),
                "",
                PING_5_OCTETS,
                "1 Waiting, 5 Waiting, open",
            ),
            (
                Call(ASKS_ADD, Big, 56),
                "",
                ADD,
                "1 Waiting, 4 Waiting, 5 Waiting, open",
            ),
            (
                Call(list, Little, 4096),
                "",
                LIST_LITTLE,
                "1 Waiting, 3 Waiting, 4 Waiting, 5 Waiting, open",
            ),
        ],
    )
}

#[test]
fn a_call_without_a_reply_is_over_when_it_is_sent(rt: HostRuntime) -> Result<(), Fail> {
    let asked = Asks {
        flags: 3,
        ..ASKS_TELL
    };
    all_go(
        &rt,
        rt.alloc(),
        Limits::default(),
        &[
            (Call(ASKS_TELL, Big, 4096), "", TELL, "8 OnewaySent, open"),
            (Call(ASKS_TELL, Big, 24), "", TELL_1, "8 Sending 4, open"),
            (Take(8), "the call is open", "", "8 Sending 4, open"),
            (Send(8), "", TELL_2, "8 Sending 3, open"),
            (Send(8), "", TELL_3, "8 Sending 2, open"),
            (Send(8), "", TELL_4, "8 Sending 1, open"),
            (Send(8), "", TELL_5, "8 OnewaySent, open"),
            (Send(8), "call 8: NothingToSend", "", "8 OnewaySent, open"),
            (Cancel(8, Big), "call 8: NotOpen", "", "8 OnewaySent, open"),
            (Take(8), "", "", "open"),
            (Call(asked, Big, 4096), "", TELL_ASKED, "8 Waiting, open"),
        ],
    )
}

// `tell` with flags 3.
const TELL_ASKED: &str =
    "47494f50010200000000002a000000080300000000000000000000016b0000000000000574656c6c0000000000000000000000027800";

#[test]
fn a_call_before_1_2_goes_out_in_one_piece(rt: HostRuntime) -> Result<(), Fail> {
    let old = Asks {
        version: Version::V10,
        id: 1,
        ..ASKS_ADD
    };
    let newer = Asks {
        version: Version::V11,
        ..old
    };
    let brief = Asks { flags: 1, ..old };
    let tell = Asks {
        version: Version::V10,
        ..ASKS_TELL
    };
    all_go(
        &rt,
        rt.alloc(),
        Limits::default(),
        &[
            (Call(brief, Big, 24), "call 1: Unfit", "", "open"),
            (Call(old, Big, 24), "", ADD_V10, "1 Waiting, open"),
            (
                Cancel(1, Little),
                "",
                CANCEL_1_V10_LITTLE,
                "1 Cancelled None, open",
            ),
            (
                Call(tell, Big, 24),
                "",
                TELL_V10,
                "1 Cancelled None, 8 OnewaySent, open",
            ),
        ],
    )?;
    all_go(
        &rt,
        rt.alloc(),
        Limits::default(),
        &[
            (
                Call(newer, Little, 24),
                "",
                ADD_V11_LITTLE,
                "1 Waiting, open",
            ),
            (Cancel(1, Big), "", CANCEL_1_V11, "1 Cancelled None, open"),
        ],
    )
}

#[test]
fn a_call_is_refused_by_the_first_fault_and_leaves_nothing(rt: HostRuntime) -> Result<(), Fail> {
    let one = Limits {
        calls: 1,
        ..Limits::default()
    };
    let all_wrong = Asks {
        operation: b"pong",
        flags: 2,
        ..ASKS_PING
    };
    let unknown = Asks { id: 2, ..all_wrong };
    let flags = Asks { flags: 2, ..PING_2 };
    let few = Asks {
        id: 2,
        ins: Holds::Longs(&[2]),
        ..ASKS_ADD
    };
    let many = Asks {
        ins: Holds::Longs(&[2]),
        ..PING_2
    };
    let other = Asks {
        id: 2,
        ins: Holds::Text(b"25"),
        ..ASKS_ADD
    };
    let null = Asks {
        id: 2,
        ins: Holds::Text(b"a\0b"),
        ..ASKS_TELL
    };
    all_go(
        &rt,
        rt.alloc(),
        one,
        &[
            (Call(ASKS_PING, Big, 48), "", PING, "1 Waiting, open"),
            (
                Call(all_wrong, Big, 24),
                "call 1: IdInUse",
                "",
                "1 Waiting, open",
            ),
            (
                Call(unknown, Big, 24),
                "call 2: UnknownOperation",
                "",
                "1 Waiting, open",
            ),
            (Call(flags, Big, 24), "call 2: Unfit", "", "1 Waiting, open"),
            (Call(few, Big, 24), "call 2: Unfit", "", "1 Waiting, open"),
            (Call(many, Big, 24), "call 2: Unfit", "", "1 Waiting, open"),
            (Call(other, Big, 24), "call 2: Unfit", "", "1 Waiting, open"),
            (Call(null, Big, 24), "call 2: Unfit", "", "1 Waiting, open"),
            (
                Call(PING_2, Big, 24),
                "too many calls",
                "",
                "1 Waiting, open",
            ),
            (Send(2), "call 2: NothingToSend", "", "1 Waiting, open"),
            (Cancel(2, Big), "call 2: NotOpen", "", "1 Waiting, open"),
            (
                Locate(Version::V12, 1, Big, 24),
                "call 1: IdInUse",
                "",
                "1 Waiting, open",
            ),
            (
                Locate(Version::V12, 2, Big, 24),
                "too many calls",
                "",
                "1 Waiting, open",
            ),
            (Take(2), "", "", "1 Waiting, open"),
        ],
    )
}

#[test]
fn a_cancel_goes_out_for_an_open_call_alone(rt: HostRuntime) -> Result<(), Fail> {
    all_go(
        &rt,
        rt.alloc(),
        Limits::default(),
        &[
            (Cancel(5, Little), "call 5: NotOpen", "", "open"),
            (Call(PING_5, Big, 48), "", PING_5_OCTETS, "5 Waiting, open"),
            (
                Cancel(5, Little),
                "",
                CANCEL_5_LITTLE,
                "5 Cancelled None, open",
            ),
            (
                Cancel(5, Little),
                "call 5: NotOpen",
                "",
                "5 Cancelled None, open",
            ),
            (
                Call(PING_5, Big, 48),
                "call 5: IdInUse",
                "",
                "5 Cancelled None, open",
            ),
            (Take(5), "the call is open", "", "5 Cancelled None, open"),
        ],
    )?;
    all_go(
        &rt,
        rt.alloc(),
        Limits::default(),
        &[
            (Call(PING_5, Big, 48), "", PING_5_OCTETS, "5 Waiting, open"),
            (Cancel(5, Big), "", CANCEL_5, "5 Cancelled None, open"),
        ],
    )
}

#[test]
fn no_further_piece_of_a_cancelled_call_goes_out(rt: HostRuntime) -> Result<(), Fail> {
    all_go(
        &rt,
        rt.alloc(),
        Limits::default(),
        &[
            (Call(ASKS_PING, Big, 24), "", ONE_1, "1 Sending 3, open"),
            (
                Call(ASKS_ADD, Big, 24),
                "",
                ADD_1,
                "1 Sending 3, 4 Sending 4, open",
            ),
            (Send(1), "", ONE_2, "1 Sending 2, 4 Sending 4, open"),
            (
                Cancel(1, Big),
                "",
                CANCEL_1,
                "1 Cancelled None, 4 Sending 4, open",
            ),
            (
                Send(1),
                "call 1: NothingToSend",
                "",
                "1 Cancelled None, 4 Sending 4, open",
            ),
            (Send(4), "", ADD_2, "1 Cancelled None, 4 Sending 3, open"),
        ],
    )
}

#[test]
fn a_call_is_cancelled_while_its_reply_comes(rt: HostRuntime) -> Result<(), Fail> {
    all_go(
        &rt,
        rt.alloc(),
        Limits::default(),
        &[
            (Call(ASKS_ADD, Big, 48), "", ADD_48, "4 Sending 1, open"),
            (Send(4), "", ADD_5, "4 Waiting, open"),
            (Hear(SEVEN_4_1), "", "", "4 Gathering, open"),
            (Cancel(4, Big), "", CANCEL_4, "4 Cancelled Begun, open"),
            (
                Cancel(4, Big),
                "call 4: NotOpen",
                "",
                "4 Cancelled Begun, open",
            ),
        ],
    )
}
