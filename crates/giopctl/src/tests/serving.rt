use crate::answers::{Answers, answers_from_json};
use crate::commands::serve_session;
use crate::status::Status;
use crate::tests::session_files::interface;
use giop_cdr::Order;
use giop_session::Form;
use giop_types::Interface;
use std::alloc::Global;
use std::io;
use std::io::{ErrorKind, Read, Write};
use std::process::Abort;
use std::test::Fail;

const KEY: &[u8] = b"k";

const ANSWERS: &str = "{\"ping\":{\"ok\":[]},\"add\":{\"ok\":[7]},\"list\":{\"ok\":[]}}";

const RAISES: &str = "{\"ping\":{\"ok\":[]},\
    \"add\":{\"user\":\"IDL:Demo/Bad:1.0\",\"members\":[3]},\"list\":{\"ok\":[]}}";

fn answers(alloc: Global, interface: &Interface, text: &str) -> Result<Answers, Fail> {
    match answers_from_json(alloc, interface, text.as_bytes()) {
        Ok(answers) => Ok(answers),
        Err(_) => Err(Fail::new("the answers are refused")),
    }
}

// Big-endian, in pieces of so many octets.
fn pieces(piece: u32) -> Form {
    let order = Order::Big;
    Form { order, piece }
}

// What is read; what is written; what is told, and the status.
type Row = (&'static str, &'static str, &'static str, Status);

fn check(rt: &(impl Abort + AllocGlobal), given: &str, piece: u32, row: Row) -> Result<(), Fail> {
    let (read, wanted, text, status) = row;
    let alloc = rt.alloc();
    let interface = interface(alloc)?;
    let answers = answers(alloc, &interface, given)?;
    let form = pieces(piece);
    if !form.is_valid() {
        return Err(Fail::new("the form is none"));
    }
    let octets = hex::decode(alloc, read)?;
    let wanted = hex::decode(alloc, wanted)?;
    let mut reader = octets.as_slice();
    let mut written: Vec<u8> = Vec::new(alloc);
    let mut out: Vec<u8> = Vec::new(alloc);
    let ended = serve_session(
        alloc,
        1,
        &interface,
        &answers,
        KEY,
        form,
        &mut reader,
        &mut written,
        &mut out,
    );
    assert_eq!(rt; out.as_slice(), text.as_bytes());
    assert_eq!(rt; written.as_slice(), wanted.as_slice());
    assert_eq!(rt; ended, status);
    Ok(())
}

const SERVED: [Row; 24] = [
    // ping, and add with 2 and 5.
    (
        "47494F500102000000000024000000010300000000000000000000016B00000000000005\
        70696E670000000000000000",
        "47494F50010200010000000C000000010000000000000000",
        "connection 1\n1 Answered 0\n",
        Status::Done,
    ),
    (
        "47494F50010200000000002C000000040300000000000000000000016B00000000000004\
        6164640000000000000000000000000200000005",
        "47494F50010200010000001000000004000000000000000000000007",
        "connection 1\n4 Answered 0\n",
        Status::Done,
    ),
    // Both in one read: ascending.
    (
        "47494F50010200000000002C000000040300000000000000000000016B00000000000004\
        616464000000000000000000000000020000000547494F50010200000000002400000001\
        0300000000000000000000016B0000000000000570696E670000000000000000",
        "47494F50010200010000000C00000001000000000000000047494F500102000100000010\
        00000004000000000000000000000007",
        "connection 1\n1 Answered 0\n4 Answered 0\n",
        Status::Done,
    ),
    // A caller that wants no values.
    (
        "47494F50010200000000002C000000040100000000000000000000016B00000000000004\
        6164640000000000000000000000000200000005",
        "47494F50010200010000000C000000040000000000000000",
        "connection 1\n4 Answered 0\n",
        Status::Done,
    ),
    // A oneway operation for which a reply is wanted, and one for which none is.
    (
        "47494F50010200000000002A000000050300000000000000000000016B00000000000005\
        74656C6C0000000000000000000000027800",
        "47494F50010200010000000C000000050000000000000000",
        "connection 1\n5 Answered 0\n",
        Status::Done,
    ),
    (
        "47494F50010200000000002A000000050000000000000000000000016B00000000000005\
        74656C6C0000000000000000000000027800",
        "",
        "connection 1\n5 Delivered tell [\"x\"]\n",
        Status::Done,
    ),
    // Another key; an unknown operation; a count above the octets that are left.
    (
        "47494F500102000000000024000000010300000000000000000000016C00000000000005\
        70696E670000000000000000",
        "47494F5001020001000000400000000100000002000000000000002749444C3A6F6D672E\
        6F72672F434F5242412F4F424A4543545F4E4F545F45584953543A312E30000000000000\
        00000001",
        "connection 1\n1 Answered 2\n",
        Status::Done,
    ),
    (
        "47494F500102000000000024000000010300000000000000000000016B00000000000005\
        706F6E670000000000000000",
        "47494F50010200010000003C0000000100000002000000000000002449444C3A6F6D672E\
        6F72672F434F5242412F4241445F4F5045524154494F4E3A312E30000000000000000001",
        "connection 1\n1 Answered 2\n",
        Status::Done,
    ),
    (
        "47494F50010200000000002C000000030300000000000000000000016B00000000000005\
        6C6973740000000000000000FFFFFFFF00000000",
        "47494F5001020001000000380000000300000002000000000000001E49444C3A6F6D672E\
        6F72672F434F5242412F4D41525348414C3A312E300000000000000000000001",
        "connection 1\n3 Answered 2\n",
        Status::Done,
    ),
    // A head whose flags are 2.
    (
        "47494F500102000000000024000000010200000000000000000000016B00000000000005\
        70696E670000000000000000",
        "47494F5001020001000000380000000100000002000000000000001E49444C3A6F6D672E\
        6F72672F434F5242412F4D41525348414C3A312E300000000000000000000001",
        "connection 1\n1 Answered 2\n",
        Status::Done,
    ),
    // A profile as the target.
    (
        "47494F5001020000000000280000000803000000000100000000000100000001AA000000\
        0000000570696E670000000000000000",
        "47494F50010200010000000E0000000800000005000000000000",
        "connection 1\n8 Answered 5\n",
        Status::Done,
    ),
    // Where the object is: here; another; a target that is none.
    (
        "47494F50010200030000000D0000000600000000000000016B",
        "47494F5001020004000000080000000600000001",
        "connection 1\n6 LocateAnswered 1\n",
        Status::Done,
    ),
    (
        "47494F50010200030000000D0000000600000000000000016C",
        "47494F5001020004000000080000000600000000",
        "connection 1\n6 LocateAnswered 0\n",
        Status::Done,
    ),
    (
        "47494F500102000300000006000000060003",
        "47494F5001020004000000080000000600000000",
        "connection 1\n6 LocateAnswered 0\n",
        Status::Done,
    ),
    // The same in 1.0, in which it is answered.
    (
        "47494F500100000000000028000000000000000101000000000000016B00000000000004\
        61646400000000000000000200000005",
        "47494F50010000010000001000000000000000010000000000000007",
        "connection 1\n1 Answered 0\n",
        Status::Done,
    ),
    // The client closes; a piece without an end; an input cut short.
    (
        "47494F500102000500000000",
        "",
        "connection 1\nfault 7 Closed\n",
        Status::Done,
    ),
    (
        "47494F500102000000000024000000010300000000000000000000016B00000000000005\
        70696E67000000000000000047494F500102000500000000",
        "",
        "connection 1\n1 Asked ping []\nfault 7 Closed\n",
        Status::Done,
    ),
    (
        "47494F50010202000000000C000000010300000000000000",
        "",
        "connection 1\n1 Gathering\n",
        Status::Done,
    ),
    ("47494F500102000000", "", "connection 1\n", Status::Done),
    // What the client is told of, and what it is not.
    (
        "47494F510102000500000000",
        "47494F500102000600000000",
        "connection 1\nfault 1 Wire 1 BadMagic at 3\n",
        Status::Refused,
    ),
    (
        "47494F500102000000000024000000010300000000000000000000016B00000000000005\
        70696E67000000000000000047494F500102000000000024000000010300000000000000\
        000000016B0000000000000570696E670000000000000000",
        "47494F500102000600000000",
        "connection 1\n1 Asked ping []\nfault 2 Call 1 1 IdInUse\n",
        Status::Refused,
    ),
    (
        "47494F50010200010000001000000001000000000000000000000007",
        "47494F500102000600000000",
        "connection 1\nfault 3 WrongDirection\n",
        Status::Refused,
    ),
    (
        "47494F500100000000000008FFFFFFFF00000001",
        "47494F500102000600000000",
        "connection 1\nfault 10 NoId 4 BadCount at 12\n",
        Status::Refused,
    ),
    (
        "47494F500102000600000000",
        "",
        "connection 1\nfault 6 PeerError\n",
        Status::Refused,
    ),
];

#[test]
fn each_message_is_answered_by_its_rule(rt: HostRuntime) -> Result<(), Fail> {
    for row in SERVED {
        check(&rt, ANSWERS, 4096, row)?;
    }
    Ok(())
}

#[test]
fn an_exception_is_answered_with_its_members(rt: HostRuntime) -> Result<(), Fail> {
    let row: Row = (
        "47494F50010200000000002C000000040300000000000000000000016B00000000000004\
        6164640000000000000000000000000200000005",
        "47494F5001020001000000280000000400000001000000000000001149444C3A44656D6F\
        2F4261643A312E300000000000000003",
        "connection 1\n4 Answered 1\n",
        Status::Done,
    );
    check(&rt, RAISES, 4096, row)
}

// Answers to both in pieces: the first ones, then the second ones.
#[test]
fn pieces_of_answers_go_out_in_turn(rt: HostRuntime) -> Result<(), Fail> {
    let row: Row = (
        "47494F50010200000000002C000000040300000000000000000000016B00000000000004\
        616464000000000000000000000000020000000547494F50010200000000002C00000001\
        0300000000000000000000016B0000000000000461646400000000000000000000000002\
        00000005",
        "47494F50010202010000000C00000001000000000000000047494F50010202010000000C\
        00000004000000000000000047494F500102000700000008000000010000000747494F50\
        01020007000000080000000400000007",
        "connection 1\n1 Answered 0\n4 Answered 0\n",
        Status::Done,
    );
    check(&rt, ANSWERS, 24, row)
}

// A connection that takes so many octets and gives these.
#[derive(Drop)]
struct Breaking {
    room: usize,
}

impl Write for Breaking {
    fn write(&mut self, buf: &[u8]) -> io::Result<usize> {
        let n = buf.len().min(self.room);
        if n == 0 {
            return Err(io::Error::from(ErrorKind::ConnectionReset));
        }
        self.room -= n;
        Ok(n)
    }

    fn flush(&mut self) -> io::Result<()> {
        Ok(())
    }
}

// An input of one message that never ends, an octet a read.
#[derive(Drop)]
struct Dripping {
    given: usize,
}

const ENDLESS: &[u8] = b"GIOP\x01\x02\x00\x00\x00\x10\x00\x00";

impl Read for Dripping {
    fn read(&mut self, buf: &mut [u8]) -> io::Result<usize> {
        if buf.is_empty() {
            return Ok(0);
        }
        buf[0] = if self.given < ENDLESS.len() {
            ENDLESS[self.given]
        } else {
            0
        };
        self.given = self.given.saturating_add(1);
        Ok(1)
    }
}

fn served<R: Read, W: Write>(
    alloc: Global,
    reader: &mut R,
    writer: &mut W,
) -> Result<Status, Fail> {
    let interface = interface(alloc)?;
    let answers = answers(alloc, &interface, ANSWERS)?;
    let form = Form::default();
    if !form.is_valid() {
        return Err(Fail::new("the form is none"));
    }
    let mut out: Vec<u8> = Vec::new(alloc);
    Ok(serve_session(
        alloc, 1, &interface, &answers, KEY, form, reader, writer, &mut out,
    ))
}

#[test]
fn a_writer_that_fails_ends_a_connection(rt: HostRuntime) -> Result<(), Fail> {
    let octets = hex::decode(
        rt.alloc(),
        "47494F50010200000000002C000000040300000000000000000000016B00000000000004\
        6164640000000000000000000000000200000005",
    )?;
    for room in 0..29 {
        let mut reader = octets.as_slice();
        let mut writer = Breaking { room };
        let wanted = if room < 28 {
            Status::InputOutput
        } else {
            Status::Done
        };
        assert_eq!(rt;
            served(rt.alloc(), &mut reader, &mut writer)?,
            wanted,
            "{room}"
        );
    }
    Ok(())
}

#[test]
fn a_connection_that_never_ends_is_given_up(rt: HostRuntime) -> Result<(), Fail> {
    let mut reader = Dripping { given: 0 };
    let mut written: Vec<u8> = Vec::new(rt.alloc());
    let status = served(rt.alloc(), &mut reader, &mut written)?;
    assert_eq!(rt; (status, reader.given), (Status::InputOutput, 65_536));
    Ok(())
}
