use crate::commands::{Way, convert_corbaloc, convert_ior, convert_value};
use crate::status::Status;
use giop_cdr::Order;
use std::process::Abort;
use std::test::Fail;

// What a kind of `convert` takes.
#[derive(Clone, Copy)]
enum Kind {
    Ior,
    Corbaloc,
    Encode(&'static str),
    EncodeLittle(&'static str),
    Decode(&'static str),
    DecodeLittle(&'static str),
}

// A file's text, what is written of it, and the status.
type Row = (&'static str, &'static str, Status);

fn check(rt: &(impl Abort + AllocGlobal), kind: Kind, row: Row) -> Result<(), Fail> {
    let (file, text, status) = row;
    let alloc = rt.alloc();
    let mut written: Vec<u8> = Vec::new(alloc);
    let octets = file.as_bytes();
    let answered = match kind {
        Kind::Ior => convert_ior(alloc, octets, &mut written),
        Kind::Corbaloc => convert_corbaloc(alloc, octets, &mut written),
        Kind::Encode(desc) => {
            let desc = desc.as_bytes();
            convert_value(alloc, octets, desc, Way::Encode, Order::Big, &mut written)
        }
        Kind::EncodeLittle(desc) => {
            let desc = desc.as_bytes();
            convert_value(
                alloc,
                octets,
                desc,
                Way::Encode,
                Order::Little,
                &mut written,
            )
        }
        Kind::Decode(desc) => {
            let desc = desc.as_bytes();
            convert_value(alloc, octets, desc, Way::Decode, Order::Big, &mut written)
        }
        Kind::DecodeLittle(desc) => {
            let desc = desc.as_bytes();
            convert_value(
                alloc,
                octets,
                desc,
                Way::Decode,
                Order::Little,
                &mut written,
            )
        }
    };
    assert_eq!(rt; written.as_slice(), text.as_bytes());
    match answered {
        Ok(told) => assert_eq!(rt; told, status),
        Err(failure) => assert_eq!(rt; failure.status(), status),
    }
    Ok(())
}

#[test]
fn the_text_of_a_reference_is_shown(rt: HostRuntime) -> Result<(), Fail> {
    let rows: [Row; 8] = [
        (
            "IOR:00000000000000010000000000000000\n",
            "type -\nIOR:00000000000000010000000000000000\n",
            Status::Done,
        ),
        (
            "ior:01000000010000000000000000000000FFFF",
            "type -\nIOR:00000000000000010000000000000000\n",
            Status::Done,
        ),
        (
            "IOR:0000000000000001000000000000000100000000000000110001000000000002\
            68000af9000000016b",
            "type -\n\
            iiop 1.0 h 2809 6b components 0\n\
            IOR:0000000000000001000000000000000100000000000000110001000000000002\
            68000af9000000016b\n",
            Status::Done,
        ),
        // The type id IDL:A b:1.0; a profile of another tag without octets; one of tag 0 with a
        // major version 2; one of version 1.1 with a component and an empty key.
        (
            "IOR:000000000000000C49444C3A4120623A312E3000\
            00000003\
            0000000100000000\
            00000000000000030002000000000000\
            00000020\
            00010100000000026800FFFF00000000000000010000000100000003AABBCC09",
            "type IDL:A%20b:1.0\n\
            profile 1 -\n\
            profile 0 000200\n\
            iiop 1.1 h 65535 - components 1\n\
            IOR:000000000000000c49444c3a4120623a312e3000\
            00000003\
            0000000100000000\
            00000000000000030002000000000000\
            00000020\
            00010100000000026800ffff00000000000000010000000100000003aabbcc09\n",
            Status::Done,
        ),
        (
            "IOR:000000000000000C49444C3A4120623A312E3000\
            00000002\
            0000000100000000\
            000000000000000300020000",
            "type IDL:A%20b:1.0\n\
            profile 1 -\n\
            profile 0 000200\n\
            IOR:000000000000000c49444c3a4120623a312e3000\
            00000002\
            0000000100000000\
            0000000000000003000200\n",
            Status::Done,
        ),
        (
            "IOR:00000000000000010000000000000001\
            00000000\
            00000020\
            00010100000000026800FFFF00000000000000010000000100000003AABBCC09",
            "type -\n\
            iiop 1.1 h 65535 - components 1\n\
            IOR:00000000000000010000000000000001\
            00000000\
            00000020\
            00010100000000026800ffff00000000000000010000000100000003aabbcc09\n",
            Status::Done,
        ),
        // One newline alone is dropped.
        ("IOR:\n\n", "fault 2 BadHex\n", Status::Refused),
        ("\nIOR:", "fault 1 BadPrefix\n", Status::Refused),
    ];
    for row in rows {
        check(&rt, Kind::Ior, row)?;
    }
    Ok(())
}

#[test]
fn a_text_that_is_no_reference_is_told(rt: HostRuntime) -> Result<(), Fail> {
    let rows: [Row; 7] = [
        ("", "fault 1 BadPrefix\n", Status::Refused),
        ("IOX:00", "fault 1 BadPrefix\n", Status::Refused),
        ("IOR:0", "fault 2 BadHex\n", Status::Refused),
        ("IOR:", "fault 1 Short at 0\n", Status::Refused),
        ("IOR:02", "fault 6 BadOrder at 0\n", Status::Refused),
        ("IOR:00", "fault 1 Short at 4\n", Status::Refused),
        (
            "IOR:000000000000000241420000",
            "fault 3 BadString at 4\n",
            Status::Refused,
        ),
    ];
    for row in rows {
        check(&rt, Kind::Ior, row)?;
    }
    Ok(())
}

#[test]
fn a_corbaloc_is_written_in_full(rt: HostRuntime) -> Result<(), Fail> {
    let rows: [Row; 12] = [
        (
            "corbaloc::h/k\n",
            "corbaloc:iiop:1.0@h:2809/k\n\
            IOR:0000000000000001000000000000000100000000000000110001000000000002\
            68000af9000000016b\n",
            Status::Done,
        ),
        // An address of version 1.2, a port, an address without, and an escaped key.
        (
            "corbaloc:iiop:1.2@h:65535,:g/a%20b",
            "corbaloc:iiop:1.2@h:65535,iiop:1.0@g:2809/a%20b\n\
            IOR:00000000000000010000000000000002\
            00000000000000180001020000000002\
            6800ffff000000036120620000000000\
            00000000000000130001000000000002\
            67000af900000003612062\n",
            Status::Done,
        ),
        ("corbaloc", "fault 1 BadPrefix at 0\n", Status::Refused),
        (
            "corbaloc:rir:/x",
            "fault 2 BadProtocol at 9\n",
            Status::Refused,
        ),
        ("corbaloc::", "fault 3 BadHost at 10\n", Status::Refused),
        (
            "corbaloc::h:65536",
            "fault 4 BadPort at 12\n",
            Status::Refused,
        ),
        (
            "corbaloc::2.0@h",
            "fault 5 BadVersion at 10\n",
            Status::Refused,
        ),
        (
            "corbaloc::h/%2",
            "fault 6 BadEscape at 12\n",
            Status::Refused,
        ),
        ("corbaloc::h/\"", "fault 7 BadChar at 12\n", Status::Refused),
        // Of two faults the left one is told.
        (
            "corbaloc::h:x,rir:/%",
            "fault 4 BadPort at 12\n",
            Status::Refused,
        ),
        (
            "corbaloc::h/k\n\n",
            "fault 7 BadChar at 13\n",
            Status::Refused,
        ),
        ("\n", "fault 1 BadPrefix at 0\n", Status::Refused),
    ];
    for row in rows {
        check(&rt, Kind::Corbaloc, row)?;
    }
    Ok(())
}

const PAIR: &str = r#"{"struct":[["a","octet"],["b","longlong"]]}"#;

const COLOUR: &str = r#"{"enum":["RED","GREEN"]}"#;

const UNION: &str = r#"{"union":"long","cases":[[[1],"x","octet"]]}"#;

#[test]
fn a_value_in_json_is_encoded(rt: HostRuntime) -> Result<(), Fail> {
    let rows: [(Kind, Row); 12] = [
        (
            Kind::Encode(PAIR),
            (
                "{\"a\":1,\"b\":2}\n",
                "01000000000000000000000000000002\n",
                Status::Done,
            ),
        ),
        (
            Kind::EncodeLittle(PAIR),
            (
                r#"{"a":1,"b":2}"#,
                "01000000000000000200000000000000\n",
                Status::Done,
            ),
        ),
        (
            Kind::Encode(r#""string""#),
            (r#""""#, "0000000100\n", Status::Done),
        ),
        (
            Kind::Encode(COLOUR),
            (r#""GREEN""#, "00000001\n", Status::Done),
        ),
        (
            Kind::Encode(UNION),
            (r#"{"disc":2,"value":null}"#, "00000002\n", Status::Done),
        ),
        (
            Kind::Encode(UNION),
            (r#"{"disc":1,"value":9}"#, "0000000109\n", Status::Done),
        ),
        (
            Kind::Encode(r#""reference""#),
            (
                r#""ior:00000000000000010000000000000000""#,
                "000000010000000000000000\n",
                Status::Done,
            ),
        ),
        (
            Kind::Encode(r#""octet""#),
            ("256", "fault 4 Unfit\n", Status::Refused),
        ),
        (
            Kind::Encode(r#""octet""#),
            ("1.0", "fault 2 BadShape\n", Status::Refused),
        ),
        (
            Kind::Encode(r#""octet""#),
            ("1,", "fault 1 BadJson\n", Status::Refused),
        ),
        // The description is judged first.
        (
            Kind::Encode(r#"{"struct":[]}"#),
            ("1,", "fault 3 BadDesc\n", Status::Refused),
        ),
        (
            Kind::Encode("octet"),
            ("256", "fault 1 BadJson\n", Status::Refused),
        ),
    ];
    for (kind, row) in rows {
        check(&rt, kind, row)?;
    }
    Ok(())
}

#[test]
fn octets_are_decoded_into_json(rt: HostRuntime) -> Result<(), Fail> {
    let rows: [(Kind, Row); 14] = [
        (
            Kind::Decode(PAIR),
            (
                "01000000000000000000000000000002\n",
                "{\"a\":1,\"b\":2}\n",
                Status::Done,
            ),
        ),
        (
            Kind::DecodeLittle(PAIR),
            (
                "01ffffffffffffff0200000000000000",
                "{\"a\":1,\"b\":2}\n",
                Status::Done,
            ),
        ),
        (
            Kind::Decode(r#""string""#),
            ("0000000100", "\"\"\n", Status::Done),
        ),
        (
            Kind::Decode(r#""string""#),
            ("00000000", "\"\"\n", Status::Done),
        ),
        (
            Kind::Decode(COLOUR),
            ("00000001", "\"GREEN\"\n", Status::Done),
        ),
        (
            Kind::Decode(UNION),
            ("00000002", "{\"disc\":2,\"value\":null}\n", Status::Done),
        ),
        (
            Kind::Decode(r#""reference""#),
            (
                "000000010000000000000000",
                "\"IOR:00000000000000010000000000000000\"\n",
                Status::Done,
            ),
        ),
        (
            Kind::Decode(r#""octets""#),
            ("00000003aaBBcc", "\"aabbcc\"\n", Status::Done),
        ),
        (
            Kind::Decode(COLOUR),
            ("00000002", "fault 5 BadLabel at 0\n", Status::Refused),
        ),
        (
            Kind::Decode(r#""octet""#),
            ("0102", "fault 8 Trailing at 1\n", Status::Refused),
        ),
        (
            Kind::Decode(r#""string""#),
            ("000000024142", "fault 3 BadString at 0\n", Status::Refused),
        ),
        (
            Kind::Decode(r#""string""#),
            ("0000000541", "fault 4 BadCount at 0\n", Status::Refused),
        ),
        (
            Kind::Decode(r#""octet""#),
            ("0x", "fault 2 BadHex\n", Status::Refused),
        ),
        (
            Kind::Decode(r#"{"array":"octet","length":0}"#),
            ("0", "fault 3 BadDesc\n", Status::Refused),
        ),
    ];
    for (kind, row) in rows {
        check(&rt, kind, row)?;
    }
    Ok(())
}
