//! What a client puts out to ask where an object is, and what becomes of it.
use super::clients::Client::{Call, Cancel, Hear, Locate, Send, Take};
use super::clients::all_go;
use super::messages::{Asks, PING};
use super::octets::{
    HERE_6, HERE_6_V10_LITTLE, LOCATE, LOCATE_1, LOCATE_2, LOCATE_V10_LITTLE, LOCATE_V11,
    UNKNOWN_6_LITTLE,
};
use giop_cdr::Order::{Big, Little};
use giop_msg::Version::{V10, V11, V12};
use giop_session::Limits;
use std::test::Fail;

#[test]
fn a_locate_request_goes_out_in_one_piece_or_in_two(rt: HostRuntime) -> Result<(), Fail> {
    all_go(
        &rt,
        rt.alloc(),
        Limits::default(),
        &[
            (Locate(V12, 6, Big, 32), "", LOCATE, "6 Waiting, open"),
            (
                Locate(V12, 6, Big, 32),
                "call 6: IdInUse",
                "",
                "6 Waiting, open",
            ),
            (Hear(HERE_6), "", "", "6 LocateDone 1, open"),
            (
                Cancel(6, Big),
                "call 6: NotOpen",
                "",
                "6 LocateDone 1, open",
            ),
            (Locate(V12, 6, Big, 24), "", LOCATE_1, "6 Sending 1, open"),
            (Send(6), "", LOCATE_2, "6 Waiting, open"),
            (Send(6), "call 6: NothingToSend", "", "6 Waiting, open"),
            (Hear(UNKNOWN_6_LITTLE), "", "", "6 LocateDone 0, open"),
            (Take(6), "", "", "open"),
        ],
    )
}

#[test]
fn a_locate_request_before_1_2_goes_out_in_one_piece(rt: HostRuntime) -> Result<(), Fail> {
    all_go(
        &rt,
        rt.alloc(),
        Limits::default(),
        &[
            (Locate(V11, 6, Big, 24), "", LOCATE_V11, "6 Waiting, open"),
            (
                Cancel(6, Big),
                "",
                "47494f50010100020000000400000006",
                "6 Cancelled None, open",
            ),
        ],
    )?;
    all_go(
        &rt,
        rt.alloc(),
        Limits::default(),
        &[
            (
                Locate(V10, 6, Little, 24),
                "",
                LOCATE_V10_LITTLE,
                "6 Waiting, open",
            ),
            (Hear(HERE_6_V10_LITTLE), "", "", "6 LocateDone 1, open"),
        ],
    )
}

// What is too large as a whole or as a piece is Unfit, before the table is asked for room.
#[test]
fn a_locate_request_is_refused_by_the_first_fault(rt: HostRuntime) -> Result<(), Fail> {
    let gathers_less = Limits {
        calls: 0,
        message: 13,
        gathered: 12,
    };
    let takes_less = Limits {
        gathered: 13,
        message: 12,
        ..gathers_less
    };
    let takes_it = Limits {
        message: 13,
        ..takes_less
    };
    let ping = Asks { id: 6, ..PING };
    all_go(
        &rt,
        rt.alloc(),
        gathers_less,
        &[
            (Locate(V12, 6, Big, 32), "call 6: Unfit", "", "open"),
            (Locate(V12, 6, Big, 24), "call 6: Unfit", "", "open"),
            (Locate(V10, 6, Big, 24), "too many calls", "", "open"),
            (Call(ping, Big, 24), "call 6: Unfit", "", "open"),
        ],
    )?;
    all_go(
        &rt,
        rt.alloc(),
        takes_less,
        &[
            (Locate(V12, 6, Big, 32), "call 6: Unfit", "", "open"),
            (Locate(V12, 6, Big, 24), "too many calls", "", "open"),
        ],
    )?;
    all_go(
        &rt,
        rt.alloc(),
        takes_it,
        &[(Locate(V12, 6, Big, 32), "too many calls", "", "open")],
    )
}
