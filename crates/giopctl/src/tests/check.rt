//! `check` of octets once. Other files are cases of the built program (tests/cases/check).
use crate::commands::check_octets;
use crate::status::Status;
use crate::tests::session_files::interface;
use std::test::Fail;

#[test]
fn an_orderly_end_has_its_line(rt: HostRuntime) -> Result<(), Fail> {
    let interface = interface(rt.alloc())?;
    let octets = hex::decode(rt.alloc(), "47494F500102000500000000")?;
    let mut written: Vec<u8> = Vec::new(rt.alloc());
    let ended = check_octets(rt.alloc(), &interface, octets.as_slice(), &mut written);
    assert_eq!(rt; written.as_slice(), b"fault 7 Closed\n".as_slice());
    assert_eq!(rt; ended, Status::Done);
    Ok(())
}
