//! An end between readers and writers in memory, some of which fail: octets written by hand.
use super::acts::{Client, at_client};
use super::sessions::{interface, table};
use giop_cdr::Order;
use giop_session::{ClientEnd, Limits, PumpFault, ServerEnd, SessionFault, pump, turn, write_out};
use std::io;
use std::io::{ErrorKind, Read, Write};
use std::test::Fail;

// A Request of `ping`, as id 1: 48 octets.
const PING: &str =
    "47494f500102000000000024000000010300000000000000000000016b0000000000000570696e670000000000000000";

// A Request of `add` with 2 and 5, as id 4: 56 octets.
const ADD: &str =
    "47494f50010200000000002c000000040300000000000000000000016b000000000000046164640000000000000000000000000200000005";

// A LocateRequest, as id 6: 25 octets.
const LOCATE: &str = "47494f50010200030000000d0000000600000000000000016b";

// The LocateReply that says that its object is here.
const HERE: &str = "47494f5001020004000000080000000600000001";

// CloseConnection.
const CLOSE: &str = "47494f500102000500000000";

// A reader of so many octets at a time, which fails after so many reads.
#[derive(Drop)]
struct Halting<'a> {
    octets: &'a [u8],
    piece: usize,
    reads: usize,
}

impl Read for Halting<'_> {
    fn read(&mut self, buf: &mut [u8]) -> io::Result<usize> {
        if self.reads == 0 {
            return Err(io::Error::from(ErrorKind::Interrupted));
        }
        self.reads -= 1;
        let n = self.octets.len().min(self.piece).min(buf.len());
        buf[..n].copy_from_slice(&self.octets[..n]);
        self.octets = &self.octets[n..];
        Ok(n)
    }
}

// A writer that takes so many octets at a time. Once it took so many in all it fails, or takes none.
#[derive(Drop)]
struct Full {
    piece: usize,
    room: usize,
    fails: bool,
    taken: Vec<u8>,
    writes: u64,
}

// At most how many octets a write; whether the writer fails once it is full; and the kind of error
// that is told.
const ENDS: [(usize, bool, ErrorKind); 4] = [
    (1, true, ErrorKind::StorageFull),
    (5, true, ErrorKind::StorageFull),
    (1, false, ErrorKind::WriteZero),
    (5, false, ErrorKind::WriteZero),
];

impl Write for Full {
    fn write(&mut self, buf: &[u8]) -> io::Result<usize> {
        self.writes = self.writes.saturating_add(1);
        if self.room == 0 && self.fails {
            return Err(io::Error::from(ErrorKind::StorageFull));
        }
        let n = buf.len().min(self.piece).min(self.room);
        self.taken.extend_from_slice(&buf[..n])?;
        self.room -= n;
        Ok(n)
    }

    fn flush(&mut self) -> io::Result<()> {
        Ok(())
    }
}

// The number of the fault, and what kind of error it is, where it is one of reading or writing.
fn told(fault: &PumpFault) -> (u8, Option<ErrorKind>) {
    let kind = match fault {
        PumpFault::Read(error) | PumpFault::Write(error) => Some(error.kind()),
        _ => None,
    };
    (fault.number(), kind)
}

#[test]
fn a_pump_goes_on_to_the_end_of_the_input(rt: HostRuntime) -> Result<(), Fail> {
    let alloc = rt.alloc();
    let interface = interface(alloc)?;
    let octets = hex::decode(alloc, PING)?;
    // How many turns, the fault if any, and the table.
    let cases = [
        (10, None, "1 Asked, rest 0"),
        (2, None, "1 Asked, rest 0"),
        (1, Some(4), "1 Asked, rest 0"),
        (0, Some(4), "rest 0"),
    ];
    for (turns, fault, wanted) in cases {
        let mut end = ServerEnd::new(alloc, &interface, Limits::default());
        let mut reader = octets.as_slice();
        let mut written: Vec<u8> = Vec::new(alloc);
        let answered = pump(&mut end, &mut reader, &mut written, turns);
        assert_eq!(rt;
            answered.err().map(|fault| fault.number()),
            fault,
            "{turns}"
        );
        assert_eq!(rt; table(alloc, &end)?.as_str(), wanted, "{turns}");
        assert!(rt; written.is_empty());
    }
    Ok(())
}

#[test]
fn a_read_that_fails_leaves_the_end_as_after_the_reads_before(rt: HostRuntime) -> Result<(), Fail> {
    let alloc = rt.alloc();
    let interface = interface(alloc)?;
    let octets = hex::decode(alloc, PING)?;
    for reads in 0..4 {
        let mut end = ServerEnd::new(alloc, &interface, Limits::default());
        let mut reader = Halting {
            octets: octets.as_slice(),
            piece: 20,
            reads,
        };
        let mut written: Vec<u8> = Vec::new(alloc);
        let answered = pump(&mut end, &mut reader, &mut written, 10);
        let fault = answered.err().map(|fault| told(&fault));
        assert_eq!(rt; fault, Some((1, Some(ErrorKind::Interrupted))), "{reads}");
        let wanted = ["rest 0", "rest 20", "rest 40", "1 Asked, rest 0"][reads];
        assert_eq!(rt; table(alloc, &end)?.as_str(), wanted, "{reads}");
    }
    Ok(())
}

#[test]
fn a_turn_writes_before_it_reads(rt: HostRuntime) -> Result<(), Fail> {
    let alloc = rt.alloc();
    let interface = interface(alloc)?;
    let octets = hex::decode(alloc, LOCATE)?;
    let here = hex::decode(alloc, HERE)?;
    let mut end = ServerEnd::new(alloc, &interface, Limits::default());
    let mut reader = octets.as_slice();
    let mut writer = Full {
        piece: 1,
        room: 100,
        fails: true,
        taken: Vec::new(alloc),
        writes: 0,
    };
    assert_eq!(rt; turn(&mut end, &mut reader, &mut writer).ok(), Some(25));
    // Nothing was outgoing, so nothing was written.
    assert_eq!(rt; writer.writes, 0);
    assert!(rt; end.answer_locate(6, true, Order::Big).is_ok());
    assert_eq!(rt; end.outgoing(), here.as_slice());
    assert_eq!(rt; turn(&mut end, &mut reader, &mut writer).ok(), Some(0));
    assert_eq!(rt;
        (writer.taken.as_slice(), writer.writes),
        (here.as_slice(), 20)
    );
    assert!(rt; end.outgoing().is_empty());
    Ok(())
}

#[test]
fn a_failed_end_writes_and_answers_its_fault(rt: HostRuntime) -> Result<(), Fail> {
    let alloc = rt.alloc();
    let interface = interface(alloc)?;
    let close = hex::decode(alloc, CLOSE)?;
    let mut end = ServerEnd::new(alloc, &interface, Limits::default());
    assert!(rt; end.close().is_ok());
    let mut reader: &[u8] = &[];
    let mut written: Vec<u8> = Vec::new(alloc);
    let answered = pump(&mut end, &mut reader, &mut written, 1);
    assert!(rt; matches!(answered, Err(PumpFault::Session(SessionFault::Closed))));
    assert_eq!(rt; written.as_slice(), close.as_slice());
    Ok(())
}

#[test]
fn a_write_that_fails_has_written_a_prefix(rt: HostRuntime) -> Result<(), Fail> {
    let alloc = rt.alloc();
    let interface = interface(alloc)?;
    let octets = hex::decode(alloc, ADD)?;
    // How many octets in all; at most how many a write, and what the writer says then.
    for room in 0..octets.len() {
        for (piece, fails, kind) in ENDS {
            let mut end = ClientEnd::new(alloc, &interface, Limits::default());
            assert!(rt; matches!(at_client(alloc, &mut end, Client::Add), Some(Ok(()))));
            let mut reader: &[u8] = b"unread";
            let mut writer = Full {
                piece,
                room,
                fails,
                taken: Vec::new(alloc),
                writes: 0,
            };
            let answered = pump(&mut end, &mut reader, &mut writer, 10);
            let fault = answered.err().map(|fault| told(&fault));
            assert_eq!(rt; fault, Some((2, Some(kind))), "{room}");
            assert_eq!(rt; writer.taken.as_slice(), &octets[..room]);
            assert_eq!(rt; end.outgoing(), &octets[room..]);
            assert_eq!(rt; reader.len(), 6);
        }
    }
    Ok(())
}

#[test]
fn a_write_of_no_octets_is_a_fault(rt: HostRuntime) -> Result<(), Fail> {
    let alloc = rt.alloc();
    let interface = interface(alloc)?;
    let close = hex::decode(alloc, CLOSE)?;
    let mut end = ServerEnd::new(alloc, &interface, Limits::default());
    let mut writer = Full {
        piece: 0,
        room: 1,
        fails: true,
        taken: Vec::new(alloc),
        writes: 0,
    };
    assert!(rt; write_out(&mut end, &mut writer).is_ok());
    assert_eq!(rt; writer.writes, 0);
    assert!(rt; end.close().is_ok());
    let answered = write_out(&mut end, &mut writer);
    assert_eq!(rt;
        answered.err().map(|error| error.kind()),
        Some(ErrorKind::WriteZero)
    );
    assert_eq!(rt; (end.outgoing(), writer.writes), (close.as_slice(), 1));
    Ok(())
}
