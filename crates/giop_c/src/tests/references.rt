//! References, profiles and corbalocs, made and told. One reference is what omniNames of omniORB
//! 4.2.5 printed, the other octets are worked by hand from CORBA 3.3 Part 2, 7.6 and 9.7.2.
//! tests/clib has the same calls from C, each with its allocations refused in turn.

use crate::corbaloc_calls::giop_reference_corbaloc;
use crate::making_calls::{
    giop_iiop_octets, giop_iiop_reference, giop_reference_octets, giop_reference_text,
    giop_reference_type_id,
};
use crate::reference_calls::giop_corbaloc_reference;
use crate::status::{FAULT, OK, SMALL, WAITS};
use crate::{EndFault, Fault};
use std::alloc::Global;

// IIOP 1.2 at h, port 2809, key k, no components; and a reference of the type id I with it alone.
const PROFILE: [u8; 24] = [
    0, 1, 2, 0, 0, 0, 0, 2, b'h', 0, 0x0A, 0xF9, 0, 0, 0, 1, b'k', 0, 0, 0, 0, 0, 0, 0,
];

const MADE: &[u8] = b"IOR:0000000000000002490000000000000100000000000000180001020000000002\
68000af9000000016b00000000000000";

// What omniNames printed, started with -ORBendPointPublish
// giop:tcp:printer.example:2809,giop:tcp:printer2.example:2810.
const PRINTED: &[u8] = b"IOR:010000002b00000049444c3a6f6d672e6f72672f436f734e616d696e672f4e616d69\
6e67436f6e746578744578743a312e300000010000000000000098000000010102001000\
00007072696e7465722e6578616d706c6500f90a00000b0000004e616d65536572766963\
65000400000000000000080000000100000000545441010000001c000000010000000100\
01000100000001000105090101000100000009010100030000001c000000010000001100\
00007072696e746572322e6578616d706c650000fa0a035454410800000019c9096b0100\
733a";

// The nil reference, and its octets.
const NIL: &[u8] = b"IOR:00000000000000010000000000000000";

const NIL_OCTETS: [u8; 16] = [0, 0, 0, 0, 0, 0, 0, 1, 0, 0, 0, 0, 0, 0, 0, 0];

const UNTOLD: EndFault = EndFault {
    at: 77,
    number: 77,
    part: 77,
    id: 77,
};

// Whether a call answered OK and copied just these octets, in front of what was there.
fn copied(status: u32, buffer: &[u8; 256], size: usize, wanted: &[u8]) -> bool {
    let n = wanted.len();
    status == OK && size == n && n < 256 && &buffer[..n] == wanted && buffer[n] == 9
}

#[test]
fn a_profile_and_a_reference_are_made(rt: HostRuntime) {
    let alloc = rt.alloc();
    let (mut buffer, mut size) = ([9; 256], 99);
    let status = giop_iiop_octets(alloc, 2, b"h", 2809, b"k", &mut buffer, &mut size);
    assert!(rt; copied(status, &buffer, size, &PROFILE));
    let (mut buffer, mut size) = ([9; 256], 99);
    let status = giop_iiop_reference(alloc, b"I", 2, b"h", 2809, b"k", &mut buffer, &mut size);
    assert!(rt; copied(status, &buffer, size, MADE));
    // a null in the host, or in the type id; then no room
    let (mut buffer, mut size) = ([9; 256], 99);
    let status = giop_iiop_octets(alloc, 2, b"h\0", 2809, b"k", &mut buffer, &mut size);
    assert_eq!(rt; (status, size), (FAULT, 99));
    let status = giop_iiop_reference(alloc, b"\0", 2, b"h", 2809, b"k", &mut buffer, &mut size);
    assert_eq!(rt; (status, size), (FAULT, 99));
    let status = giop_iiop_octets(alloc, 2, b"h", 2809, b"k", &mut buffer[..23], &mut size);
    assert_eq!(rt; (status, size, buffer[0]), (SMALL, 24, 9));
}

#[test]
fn a_reference_has_a_type_id_and_octets(rt: HostRuntime) {
    let alloc = rt.alloc();
    let mut fault = UNTOLD;
    let (mut buffer, mut size) = ([9; 256], 99);
    let status = giop_reference_type_id(alloc, PRINTED, &mut buffer, &mut size, &mut fault);
    let type_id = b"IDL:omg.org/CosNaming/NamingContextExt:1.0";
    assert!(rt; copied(status, &buffer, size, type_id));
    let (mut buffer, mut size) = ([9; 256], 99);
    let status = giop_reference_octets(alloc, NIL, &mut buffer, &mut size, &mut fault);
    assert!(rt; copied(status, &buffer, size, &NIL_OCTETS));
    let (mut buffer, mut size) = ([9; 256], 99);
    let status = giop_reference_text(alloc, &NIL_OCTETS, &mut buffer, &mut size, &mut fault);
    assert!(rt; copied(status, &buffer, size, NIL));
    assert_eq!(rt; fault, UNTOLD);
    // the octets end within the count of the type id, which begins at 4: Short, which is 1
    let status = giop_reference_text(alloc, &NIL_OCTETS[..6], &mut buffer, &mut size, &mut fault);
    assert_eq!(rt; (status, fault.at, fault.part), (FAULT, 4, 1));
}

#[test]
fn a_reference_is_said_as_a_corbaloc(rt: HostRuntime) {
    let alloc = rt.alloc();
    let (mut fault, mut wrong) = (UNTOLD, Fault { at: 77, number: 77 });
    let (mut buffer, mut size) = ([9; 256], 99);
    let status = giop_reference_corbaloc(alloc, PRINTED, &mut buffer, &mut size, &mut fault);
    let said = b"corbaloc:iiop:1.2@printer.example:2809/NameService";
    assert!(rt; copied(status, &buffer, size, said));
    let (mut buffer, mut size) = ([9; 256], 99);
    let status = giop_reference_corbaloc(alloc, NIL, &mut buffer, &mut size, &mut fault);
    assert_eq!(rt; (status, size, fault), (WAITS, 99, UNTOLD));
    let status = giop_corbaloc_reference(
        alloc,
        b"corbaloc::1.2@h/k",
        &mut buffer,
        &mut size,
        &mut wrong,
    );
    let made = b"IOR:0000000000000001000000000000000100000000000000180001020000000002\
68000af9000000016b00000000000000";
    assert!(rt; copied(status, &buffer, size, made));
    // an address begins neither with : nor with iiop:, which is BadProtocol, 2
    let status = giop_corbaloc_reference(alloc, b"corbaloc:h", &mut buffer, &mut size, &mut wrong);
    assert_eq!(rt; (status, wrong), (FAULT, Fault { at: 9, number: 2 }));
}
