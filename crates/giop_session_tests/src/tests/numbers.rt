//! What no program says of faults and forms: numbers by the tables of docs/PROFILE.md, and defaults.
use giop_calls::CallFault;
use giop_cdr::{CdrFault, CdrKind, Order};
use giop_msg::{WireFault, WireKind};
use giop_session::{Form, PumpFault, SessionFault};

#[test]
fn each_fault_of_a_session_has_its_number(rt: HostRuntime) {
    let wire = WireFault {
        at: 3,
        kind: WireKind::BadMagic,
    };
    let call = SessionFault::Call {
        id: 1,
        fault: CallFault::IdInUse,
    };
    let id = CdrFault {
        at: 12,
        kind: CdrKind::Short,
    };
    let faults = [
        (SessionFault::Wire(wire), 1),
        (call, 2),
        (SessionFault::WrongDirection, 3),
        (SessionFault::TooManyCalls, 4),
        (SessionFault::GatherFull, 5),
        (SessionFault::PeerError, 6),
        (SessionFault::Closed, 7),
        (SessionFault::NoMemory, 8),
        (SessionFault::StillOpen, 9),
        (SessionFault::NoId(id), 10),
    ];
    for (fault, number) in faults {
        assert_eq!(rt; fault.number(), number, "{fault}");
    }
}

#[test]
fn turns_that_are_spent_have_the_number_4(rt: HostRuntime) {
    assert_eq!(rt; PumpFault::TurnsSpent.number(), 4);
}

#[test]
fn messages_are_big_endian_in_pieces_of_4096_octets_by_default(rt: HostRuntime) {
    let form = Form::default();
    assert_eq!(rt; form.order, Order::Big);
    assert_eq!(rt; form.piece, 4096);
}
