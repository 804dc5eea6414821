//! Texts that say an object. Others are cases of the built program (tests/cases/targets).
use giop_commands::{Targeted, target_of};
use std::alloc::Global;
use std::test::Fail;

// Where a text says that the object is: its host, port, version and key, or how it is refused.
fn target(alloc: Global, text: &str) -> Result<String, Fail> {
    match target_of(alloc, text.as_bytes()) {
        Ok(Targeted::At(at)) => {
            let host = hex::encode(alloc, at.host.as_slice())?;
            let key = hex::encode(alloc, at.key.as_slice())?;
            let minor = at.version.minor();
            Ok(format!(in alloc; "{host} {} 1.{minor} {key}", at.port)?)
        }
        Ok(Targeted::Refused(line)) => Ok(line.to_string(alloc)?),
        Err(_) => Err(Fail::new("memory is wanting")),
    }
}

#[test]
fn a_target_says_where_its_object_is(rt: HostRuntime) -> Result<(), Fail> {
    let rows: [(&str, &str); 7] = [
        ("corbaloc::h", "68 2809 1.0 "),
        ("corbaloc::1.1@h:1/k", "68 1 1.1 6b"),
        ("corbaloc:iiop:1.2@h:65535,:g/a%20b", "68 65535 1.2 612062"),
        ("corbaloc::1.255@h/k", "68 2809 1.2 6b"),
        // One profile, of 1.0, host h, port 2809, key k.
        (
            "IOR:000000000000000100000000000000010000000000000011000100000000000268000af9000000016b",
            "68 2809 1.0 6b",
        ),
        (
            "ioR:000000000000000100000000000000010000000000000011000100000000000268000af9000000016b",
            "68 2809 1.0 6b",
        ),
        // A profile of tag 0 that is none, one of another tag, and one of 1.2, host h, port 2809,
        // key k, without components.
        (
            "IOR:000000000000000100000000000000030000000000000001020000000000000100000001aa00\
            00000000000000000018000102000000000268000af9000000016b00000000000000",
            "68 2809 1.2 6b",
        ),
    ];
    for (text, wanted) in rows {
        let told = target(rt.alloc(), text)?;
        assert_eq!(rt; told.as_str(), wanted, "{text}");
    }
    Ok(())
}
