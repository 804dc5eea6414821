//! An end that met a fault. Each fault, with its place, is a case of the built program
//! (tests/cases/check).
use super::interfaces::interface;
use super::octets::{CANCEL_5, DONE_1, ONE_4, PING};
use super::servers::Server::Hear;
use super::servers::{all_go, server_end};
use giop_session::Limits;
use std::test::Fail;

#[test]
fn a_damaged_end_answers_its_fault_for_good(rt: HostRuntime) -> Result<(), Fail> {
    let limits = Limits::default();
    let asked = "1 Asked ping, open";
    let rows: [(&str, &str, &str); 3] = [
        (PING, "call 1: IdInUse", "1 Asked ping, call 1: IdInUse"),
        (ONE_4, "call 1: Stray", "1 Asked ping, call 1: Stray"),
        (
            DONE_1,
            "a message of the wrong direction",
            "1 Asked ping, a message of the wrong direction",
        ),
    ];
    for (octets, told, left) in rows {
        all_go(
            &rt,
            rt.alloc(),
            limits,
            &[
                (Hear(PING), "", "", asked),
                (Hear(octets), told, "", left),
                (Hear(CANCEL_5), told, "", left),
            ],
        )?;
    }
    Ok(())
}

#[test]
fn a_peer_is_told_of_its_own_faults_alone(rt: HostRuntime) -> Result<(), Fail> {
    let alloc = rt.alloc();
    let interface = interface(alloc)?;
    let ping = hex::decode(alloc, PING)?;
    let message_error = Some(*b"GIOP\x01\x02\x00\x06\x00\x00\x00\x00");
    // What comes behind `ping`: octets that are no message; its id again; a Reply; a Request of 1.0
    // whose contexts end before its id; a CloseConnection; a MessageError.
    let rows: [(&str, Option<[u8; 12]>); 6] = [
        ("47494f510102000000000024", message_error),
        (PING, message_error),
        (DONE_1, message_error),
        ("47494f50010000000000000400000001", message_error),
        ("47494f500102000500000000", None),
        ("47494f500102000600000000", None),
    ];
    for (digits, told) in rows {
        let octets = hex::decode(alloc, digits)?;
        let mut end = server_end(alloc, &interface, Limits::default());
        assert_eq!(rt; end.feed(&ping), Ok(()));
        assert!(rt; end.feed(&octets).is_err(), "{digits}");
        assert_eq!(rt; end.error_message(), told, "behind {digits}");
    }
    Ok(())
}
