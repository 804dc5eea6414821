use crate::commands::dump_octets;
use crate::status::Status;
use std::test::Fail;

// Recorded from omniORB 4.2.5: what a client sent that calls the operations ping, add, echo, sum,
// tell (oneway) and fail of one object, and what the server answered. Pads hold what was left in
// the sender's buffer, and the first Request has a service context.
const CLIENT: &str = "47494F5001020103100000000200000000001E000400000063616C63\
    47494F5001020100380000000400000003000000000000000400000063616C6305000000\
    70696E670000280001000000010000000C000000010000000100010009010100\
    47494F50010201002C0000000600000003000000000000000400000063616C6304000000\
    6164640000000000010000000200000005000000\
    47494F5001020100310000000800000003000000000000000400000063616C6305000000\
    6563686F0000000000000000090000006120737472696E6700\
    47494F50010201003C0000000A00000003000000000000000400000063616C6304000000\
    73756D000000000000000000050000000000000001000000020000000300000004000000\
    47494F50010201002E0000000C00000000000000000000000400000063616C6305000000\
    74656C6C00000000000000000600000068656C6C6F00\
    47494F5001020100240000000E00000003000000000000000400000063616C6305000000\
    6661696C0000000000000000\
    47494F500102010500000000";

const SERVER: &str = "47494F5001020104080000000200000001000000\
    47494F50010201010C000000040000000000000000000000\
    47494F50010201011000000006000000000000000000000007000000\
    47494F500102010119000000080000000000000000000000090000006120737472696E67\
    00\
    47494F5001020101100000000A00000000000000000000000A000000\
    47494F5001020101280000000E00000001000000000000001100000049444C3A44656D6F\
    2F4261643A312E300000000007000000";

const CLIENT_TEXT: &str = "0 LocateRequest LE size 16 id 2\n  key 63616c63\n\
    28 Request LE size 56 id 4\n  \
    flags 3 key 63616c63 operation ping contexts 1 body 0\n\
    96 Request LE size 44 id 6\n  \
    flags 3 key 63616c63 operation add contexts 0 body 8\n\
    152 Request LE size 49 id 8\n  \
    flags 3 key 63616c63 operation echo contexts 0 body 13\n\
    213 Request LE size 60 id 10\n  \
    flags 3 key 63616c63 operation sum contexts 0 body 24\n\
    285 Request LE size 46 id 12\n  \
    flags 0 key 63616c63 operation tell contexts 0 body 10\n\
    343 Request LE size 36 id 14\n  \
    flags 3 key 63616c63 operation fail contexts 0 body 0\n\
    391 CloseConnection LE size 0\nrest 0\n";

const SERVER_TEXT: &str = "0 LocateReply LE size 8 id 2\n  status 1 body 0\n\
    20 Reply LE size 12 id 4\n  status 0 contexts 0 body 0\n\
    44 Reply LE size 16 id 6\n  status 0 contexts 0 body 4\n\
    72 Reply LE size 25 id 8\n  status 0 contexts 0 body 13\n\
    109 Reply LE size 16 id 10\n  status 0 contexts 0 body 4\n\
    137 Reply LE size 40 id 14\n  status 1 contexts 0 body 28\nrest 0\n";

#[test]
fn a_session_of_another_broker_is_shown(rt: HostRuntime) -> Result<(), Fail> {
    for (octets, text) in [(CLIENT, CLIENT_TEXT), (SERVER, SERVER_TEXT)] {
        let octets = hex::decode(rt.alloc(), octets)?;
        let mut written: Vec<u8> = Vec::new(rt.alloc());
        let status = dump_octets(rt.alloc(), octets.as_slice(), &mut written);
        assert_eq!(rt; written.as_slice(), text.as_bytes());
        assert_eq!(rt; status, Status::Done);
    }
    Ok(())
}
