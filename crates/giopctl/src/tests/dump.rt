use crate::commands::dump_octets;
use crate::status::Status;
use std::alloc::Global;
use std::process::Abort;
use std::test::Fail;

// A file in hexadecimal, and what is written of it.
#[derive(Clone, Copy)]
struct Row {
    octets: &'static str,
    text: &'static str,
    status: Status,
}

fn check(rt: &impl Abort, alloc: Global, row: &Row) -> Result<(), Fail> {
    let octets = hex::decode(alloc, row.octets)?;
    let mut written: Vec<u8> = Vec::new(alloc);
    let status = dump_octets(alloc, octets.as_slice(), &mut written);
    assert_eq!(rt; written.as_slice(), row.text.as_bytes(), "{}", row.octets);
    assert_eq!(rt; status, row.status, "{}", row.octets);
    Ok(())
}

#[test]
fn each_message_has_its_line(rt: HostRuntime) -> Result<(), Fail> {
    let rows = [
        Row {
            octets: "",
            text: "rest 0\n",
            status: Status::Done,
        },
        Row {
            octets: "47494F500102000500000000",
            text: "0 CloseConnection BE size 0\nrest 0\n",
            status: Status::Done,
        },
        Row {
            octets: "47494F50010200020000000400000005\
                47494F50010201020400000005000000",
            text: "0 CancelRequest BE size 4 id 5\n16 CancelRequest LE size 4 id 5\nrest 0\n",
            status: Status::Done,
        },
        Row {
            octets: "47494F50010200010000001000000001000000000000000000000007\
                47494F500102000500000000",
            text: "0 Reply BE size 16 id 1\n  status 0 contexts 0 body 4\n\
                28 CloseConnection BE size 0\nrest 0\n",
            status: Status::Done,
        },
        Row {
            octets: "47494F50010202000000000C0000000103000000000000\
                0047494F50010202070000000C00000001000000016B000000",
            text: "0 Request BE more size 12 id 1\n24 Fragment BE more size 12 id 1\nrest 0\n",
            status: Status::Done,
        },
        Row {
            octets: "47494F50010200000000",
            text: "rest 10\n",
            status: Status::Refused,
        },
        Row {
            octets: "47494F500102000500000000\
                47494F500102000000000024000000",
            text: "0 CloseConnection BE size 0\nrest 15\n",
            status: Status::Refused,
        },
    ];
    for row in &rows {
        check(&rt, rt.alloc(), row)?;
    }
    Ok(())
}

#[test]
fn a_request_has_the_line_of_its_head(rt: HostRuntime) -> Result<(), Fail> {
    let rows = [
        Row {
            octets: "47494F50010200000000002400000001030000000000000000000001\
                6B0000000000000570696E670000000000000000\
                47494F500102000500000000",
            text: "0 Request BE size 36 id 1\n  \
                flags 3 key 6b operation ping contexts 0 body 0\n\
                48 CloseConnection BE size 0\nrest 0\n",
            status: Status::Done,
        },
        // Little-endian.
        Row {
            octets: "47494F50010201002400000002000000030000000000000001000000\
                6B0000000500000070696E670000000000000000",
            text: "0 Request LE size 36 id 2\n  \
                flags 3 key 6b operation ping contexts 0 body 0\nrest 0\n",
            status: Status::Done,
        },
        // No key, and an operation in which octets are escaped.
        Row {
            octets: "47494F50010200000000002000000001010000000000000000000000\
                00000007612025C3A97E000000000000",
            text: "0 Request BE size 32 id 1\n  \
                flags 1 key - operation a%20%25%C3%A9~ contexts 0 body 0\nrest 0\n",
            status: Status::Done,
        },
        // No operation, a context, and three octets of a body behind seven of padding.
        Row {
            octets: "47494F50010200000000002F00000007000000000000000000000002\
                01020000000000000000000100000009000000\
                01AAFFFFFFFFFFFFFF010203",
            text: "0 Request BE size 47 id 7\n  \
                flags 0 key 0102 operation - contexts 1 body 3\nrest 0\n",
            status: Status::Done,
        },
        // Response flags that have no meaning.
        Row {
            octets: "47494F50010200000000002400000001020000000000000000000001\
                6B0000000000000570696E670000000000000000",
            text: "0 Request BE size 36 id 1\n  fault 5 BadLabel at 16\nrest 0\n",
            status: Status::Done,
        },
    ];
    for row in &rows {
        check(&rt, rt.alloc(), row)?;
    }
    Ok(())
}

#[test]
fn replies_and_locates_have_a_second_line(rt: HostRuntime) -> Result<(), Fail> {
    let rows = [
        // A profile as the target.
        Row {
            octets: "47494F50010200000000002800000008030000000001000000000001\
                00000001AA0000000000000570696E670000000000000000",
            text: "0 Request BE size 40 id 8\n  \
                flags 3 profile 1 operation ping contexts 0 body 0\nrest 0\n",
            status: Status::Done,
        },
        // NEEDS_ADDRESSING_MODE, and a Reply that ends before its contexts.
        Row {
            octets: "47494F50010200010000000E0000000100000005000000000000\
                47494F5001020001000000080000000100000000",
            text: "0 Reply BE size 14 id 1\n  status 5 contexts 0 body 2\n\
                26 Reply BE size 8 id 1\n  fault 1 Short at 20\nrest 0\n",
            status: Status::Done,
        },
        // A key and how it is answered, and a status that there isn't.
        Row {
            octets: "47494F50010200030000000D0000000600000000000000016B\
                47494F5001020004000000080000000600000001\
                47494F5001020004000000080000000600000006",
            text: "0 LocateRequest BE size 13 id 6\n  key 6b\n\
                25 LocateReply BE size 8 id 6\n  status 1 body 0\n\
                45 LocateReply BE size 8 id 6\n  fault 5 BadLabel at 16\nrest 0\n",
            status: Status::Done,
        },
        // The nil reference, alone and with an octet behind it.
        Row {
            octets: "47494F50010200030000001800000007000200000000000300000001\
                0000000000000000\
                47494F50010200030000001900000007000200000000000300000001\
                0000000000000000AA",
            text: "0 LocateRequest BE size 24 id 7\n  reference 3\n\
                36 LocateRequest BE size 25 id 7\n  fault 8 Trailing at 36\nrest 0\n",
            status: Status::Done,
        },
        // A disposition that there isn't.
        Row {
            octets: "47494F50010200030000000C000000070003000000000000",
            text: "0 LocateRequest BE size 12 id 7\n  fault 5 BadLabel at 16\nrest 0\n",
            status: Status::Done,
        },
    ];
    for row in &rows {
        check(&rt, rt.alloc(), row)?;
    }
    Ok(())
}

#[test]
fn a_message_before_1_2_shows_its_version(rt: HostRuntime) -> Result<(), Fail> {
    let rows = [
        // Contexts come before the id of a Request and a Reply, and a LocateRequest begins with it.
        Row {
            octets: "47494F50010001010C000000000000000900000000000000\
                47494F500101000300000009000000050000000161\
                47494F50010100050000000047494F50010000020000000400000007",
            text: "0 Reply 1.0 LE size 12 id 9\n  status 0 contexts 0 body 0\n\
                24 LocateRequest 1.1 BE size 9 id 5\n  key 61\n\
                45 CloseConnection 1.1 BE size 0\n57 CancelRequest 1.0 BE size 4 id 7\nrest 0\n",
            status: Status::Done,
        },
        // The body stands right behind the principal.
        Row {
            octets: "47494F50010000000000002800000000000000010100000000000001\
                6B0000000000000461646400000000000000000200000005\
                47494F50010100000000002800000000000000010100000000000001\
                6B0000000000000461646400000000000000000200000005",
            text: "0 Request 1.0 BE size 40 id 1\n  \
                flags 3 key 6b operation add contexts 0 body 8\n\
                52 Request 1.1 BE size 40 id 1\n  \
                flags 3 key 6b operation add contexts 0 body 8\nrest 0\n",
            status: Status::Done,
        },
        // Statuses that only 1.2 has.
        Row {
            octets: "47494F50010000010000000C000000000000000900000004\
                47494F5001010004000000080000000500000003",
            text: "0 Reply 1.0 BE size 12 id 9\n  fault 5 BadLabel at 20\n\
                24 LocateReply 1.1 BE size 8 id 5\n  fault 5 BadLabel at 16\nrest 0\n",
            status: Status::Done,
        },
        // No id is read where more contexts are counted than octets follow.
        Row {
            octets: "47494F500100000100000008FFFFFFFF00000001",
            text: "0 Reply 1.0 BE size 8\n  fault 4 BadCount at 12\nrest 0\n",
            status: Status::Done,
        },
    ];
    for row in &rows {
        check(&rt, rt.alloc(), row)?;
    }
    Ok(())
}

#[test]
fn a_fault_in_a_header_ends_the_text(rt: HostRuntime) -> Result<(), Fail> {
    let faults = [
        ("47494F510102000500000000", "0 fault 1 BadMagic at 3\n"),
        ("47494F500202000500000000", "0 fault 2 BadVersion at 4\n"),
        ("47494F500103000500000000", "0 fault 2 BadVersion at 5\n"),
        ("47494F500100020000000028", "0 fault 3 ReservedFlags at 6\n"),
        ("47494F50010100070000000C", "0 fault 4 BadKind at 7\n"),
        (
            "47494F500101020000000028",
            "0 fault 8 NotFragmentable at 6\n",
        ),
        ("47494F500102040500000000", "0 fault 3 ReservedFlags at 6\n"),
        ("47494F500102000800000000", "0 fault 4 BadKind at 7\n"),
        ("47494F500102000000100001", "0 fault 5 TooLarge at 8\n"),
        ("47494F500102000500000004", "0 fault 6 BadSize at 8\n"),
        ("47494F500102020000000020", "0 fault 7 FragmentSize at 8\n"),
        (
            "47494F500102020200000004",
            "0 fault 8 NotFragmentable at 6\n",
        ),
        (
            "47494F50010200050000000047494F510102000500000000FFFF",
            "0 CloseConnection BE size 0\n12 fault 1 BadMagic at 3\n",
        ),
    ];
    for (octets, text) in faults {
        let status = Status::Refused;
        check(
            &rt,
            rt.alloc(),
            &Row {
                octets,
                text,
                status,
            },
        )?;
    }
    Ok(())
}

// A message of the greatest size, which is fed in many pieces, and one octet more.
#[test]
fn the_greatest_message_is_taken(rt: HostRuntime) -> Result<(), Fail> {
    let mut octets = hex::decode(rt.alloc(), "47494F50010200010010000000000009")?;
    octets.resize(12 + 1_048_576 + 1, 0)?;
    let mut written: Vec<u8> = Vec::new(rt.alloc());
    let status = dump_octets(rt.alloc(), octets.as_slice(), &mut written);
    let text = "0 Reply BE size 1048576 id 9\n  status 0 contexts 0 body 1048564\nrest 1\n";
    assert_eq!(rt; written.as_slice(), text.as_bytes());
    assert_eq!(rt; status, Status::Refused);
    Ok(())
}
