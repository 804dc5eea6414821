//! A message of the greatest size. Other files are cases of the built program (tests/cases/dump).
use giop_dumping::dump_octets;
use giop_show::status::Status;
use std::test::Fail;

// A message of the greatest size, which is fed in many pieces, and one octet more.
#[test]
fn the_greatest_message_is_taken(rt: HostRuntime) -> Result<(), Fail> {
    let mut octets = hex::decode(rt.alloc(), "47494F50010200010010000000000009")?;
    octets.resize(12 + 1_048_576 + 1, 0)?;
    let mut written: Vec<u8> = Vec::new(rt.alloc());
    let status = dump_octets(rt.alloc(), octets.as_slice(), &mut written);
    let text = "0 Reply BE size 1048576 id 9\n  status 0 contexts 0 body 1048564\nrest 1\n";
    assert_eq!(rt; written.as_slice(), text.as_bytes());
    assert_eq!(rt; status, Status::Refused);
    Ok(())
}
