//! Commands that fail: a writer that fails, and the status and the text of each failure.
use giop_dumping::dump_octets;
use giop_show::failure::Failure;
use giop_show::status::Status;
use std::io;
use std::io::{ErrorKind, Write};
use std::test::Fail;

// A writer that takes so many octets and then fails.
#[derive(Drop)]
struct Full {
    room: usize,
    taken: Vec<u8>,
}

impl Write for Full {
    fn write(&mut self, buf: &[u8]) -> io::Result<usize> {
        let n = buf.len().min(self.room);
        if n == 0 {
            return Err(io::Error::from(ErrorKind::StorageFull));
        }
        self.taken.extend_from_slice(&buf[..n])?;
        self.room -= n;
        Ok(n)
    }

    fn flush(&mut self) -> io::Result<()> {
        Ok(())
    }
}

const TWO_MESSAGES: &str = "47494F50010200000000002400000001030000000000000000000001\
    6B0000000000000570696E670000000000000000\
    47494F500102000500000000";

const TEXT: &str = "0 Request BE size 36 id 1\n  \
    flags 3 key 6b operation ping contexts 0 body 0\n\
    48 CloseConnection BE size 0\nrest 0\n";

#[test]
fn a_writer_that_fails_has_got_a_prefix(rt: HostRuntime) -> Result<(), Fail> {
    let octets = hex::decode(rt.alloc(), TWO_MESSAGES)?;
    for room in 0..TEXT.len() + 1 {
        let taken = Vec::new(rt.alloc());
        let mut writer = Full { room, taken };
        let status = dump_octets(rt.alloc(), octets.as_slice(), &mut writer);
        let wanted = if room < TEXT.len() {
            Status::InputOutput
        } else {
            Status::Done
        };
        assert_eq!(rt; status, wanted, "{room}");
        assert_eq!(rt; writer.taken.as_slice(), &TEXT.as_bytes()[..room]);
    }
    Ok(())
}

#[test]
fn each_failure_has_its_status(rt: HostRuntime) {
    let memory = Failure::from(io::Error::from(ErrorKind::OutOfMemory));
    assert_eq!(rt; memory.status(), Status::Memory);
    let disk = Failure::from(io::Error::from(ErrorKind::StorageFull));
    assert_eq!(rt; disk.status(), Status::InputOutput);
}

#[test]
fn each_failure_has_its_text(rt: HostRuntime) -> Result<(), Fail> {
    let memory = Failure::Memory.to_string(rt.alloc())?;
    assert_eq!(rt; memory.as_str(), "out of memory");
    let told = io::Error::from(ErrorKind::StorageFull).to_string(rt.alloc())?;
    let input = Failure::Input(io::Error::from(ErrorKind::StorageFull)).to_string(rt.alloc())?;
    assert_eq!(rt; input.as_str(), told.as_str());
    let output = Failure::Output(io::Error::from(ErrorKind::StorageFull)).to_string(rt.alloc())?;
    assert_eq!(rt; output.as_str(), told.as_str());
    Ok(())
}
