//! `dump` over readers that are interrupted, fail or never end, and over a writer that is watched.
use giop_dumping::{MESSAGE_LIMIT, dump_stream};
use giop_forms::LineForm;
use giop_json::NumberForm;
use giop_show::BehindFault;
use giop_show::failure::Failure;
use giop_show::status::Status;
use std::io;
use std::io::{ErrorKind, Read, Write};
use std::test::Fail;

// A reader whose every other read is interrupted, and that fails after so many reads.
#[derive(Drop)]
struct Halting<'a> {
    octets: &'a [u8],
    piece: usize,
    reads: usize,
    interrupted: bool,
}

impl<'a> Halting<'a> {
    fn new(octets: &'a [u8], piece: usize, reads: usize) -> Halting<'a> {
        Halting {
            octets,
            piece,
            reads,
            interrupted: false,
        }
    }
}

impl Read for Halting<'_> {
    fn read(&mut self, buf: &mut [u8]) -> io::Result<usize> {
        self.interrupted = !self.interrupted;
        if self.interrupted {
            return Err(io::Error::from(ErrorKind::Interrupted));
        }
        if self.reads == 0 {
            return Err(io::Error::from(ErrorKind::ConnectionReset));
        }
        self.reads -= 1;
        let n = self.octets.len().min(self.piece).min(buf.len());
        buf[..n].copy_from_slice(&self.octets[..n]);
        self.octets = &self.octets[n..];
        Ok(n)
    }
}

// A Request of 48 octets, and a CloseConnection of 12.
const TWO_MESSAGES: &str = "47494F50010200000000002400000001030000000000000000000001\
    6B0000000000000570696E670000000000000000\
    47494F500102000500000000";

const REQUEST: &str = "0 Request BE size 36 id 1\n  \
    flags 3 key 6b operation ping contexts 0 body 0\n";

const CLOSE: &str = "48 CloseConnection BE size 0\n";

fn is_input_failure(answered: &Result<Status, Failure>) -> bool {
    matches!(answered, Err(Failure::Input(error)) if error.kind() == ErrorKind::ConnectionReset)
}

#[test]
fn the_pieces_that_come_do_not_matter(rt: HostRuntime) -> Result<(), Fail> {
    let octets = hex::decode(rt.alloc(), TWO_MESSAGES)?;
    for piece in 1..octets.len() + 1 {
        let mut written: Vec<u8> = Vec::new(rt.alloc());
        let mut reader = Halting::new(octets.as_slice(), piece, usize::MAX);
        let answered = dump_stream(
            rt.alloc(),
            MESSAGE_LIMIT,
            LineForm::Text(NumberForm::Plain),
            &mut reader,
            &mut written,
            BehindFault::Read,
        );
        assert!(rt; matches!(answered, Ok(Status::Done)), "{piece}");
        let mut wanted: Vec<u8> = Vec::new(rt.alloc());
        for text in [REQUEST, CLOSE, "rest 0\n"] {
            wanted.extend_from_slice(text.as_bytes())?;
        }
        assert_eq!(rt; written.as_slice(), wanted.as_slice(), "{piece}");
    }
    Ok(())
}

// The lines of the messages that came before the read that fails, and no others.
fn lines_before(reads: usize) -> [&'static str; 2] {
    match reads {
        0..=47 => ["", ""],
        48..=59 => [REQUEST, ""],
        _ => [REQUEST, CLOSE],
    }
}

#[test]
fn a_read_that_fails_leaves_the_lines_before_it(rt: HostRuntime) -> Result<(), Fail> {
    let octets = hex::decode(rt.alloc(), TWO_MESSAGES)?;
    for reads in 0..octets.len() + 1 {
        let mut written: Vec<u8> = Vec::new(rt.alloc());
        let mut reader = Halting::new(octets.as_slice(), 1, reads);
        let answered = dump_stream(
            rt.alloc(),
            MESSAGE_LIMIT,
            LineForm::Text(NumberForm::Plain),
            &mut reader,
            &mut written,
            BehindFault::Read,
        );
        assert!(rt; is_input_failure(&answered), "{reads}");
        let mut wanted: Vec<u8> = Vec::new(rt.alloc());
        for text in lines_before(reads) {
            wanted.extend_from_slice(text.as_bytes())?;
        }
        assert_eq!(rt; written.as_slice(), wanted.as_slice(), "{reads}");
    }
    Ok(())
}

// A read that fails is reported before a fault in what was read.
#[test]
fn a_read_that_fails_behind_a_fault_is_told(rt: HostRuntime) -> Result<(), Fail> {
    let octets = hex::decode(rt.alloc(), "47494F510102000500000000FFFFFFFF")?;
    for reads in 12..octets.len() + 1 {
        let mut written: Vec<u8> = Vec::new(rt.alloc());
        let mut reader = Halting::new(octets.as_slice(), 1, reads);
        let answered = dump_stream(
            rt.alloc(),
            MESSAGE_LIMIT,
            LineForm::Text(NumberForm::Plain),
            &mut reader,
            &mut written,
            BehindFault::Read,
        );
        assert!(rt; is_input_failure(&answered), "{reads}");
        assert!(rt; written.is_empty(), "{reads}");
    }
    Ok(())
}

// An input that never ends: zeros, as a device of them gives.
#[derive(Drop)]
struct Zeros;

impl Read for Zeros {
    fn read(&mut self, buf: &mut [u8]) -> io::Result<usize> {
        buf.fill(0);
        Ok(buf.len())
    }
}

#[test]
fn a_fault_ends_an_input_that_never_ends(rt: HostRuntime) -> Result<(), Fail> {
    let mut written: Vec<u8> = Vec::new(rt.alloc());
    let answered = dump_stream(
        rt.alloc(),
        MESSAGE_LIMIT,
        LineForm::Text(NumberForm::Plain),
        &mut Zeros,
        &mut written,
        BehindFault::Leave,
    );
    assert!(rt; matches!(answered, Ok(Status::Refused)));
    assert_eq!(rt; written.as_slice(), "0 fault 1 BadMagic at 0\n".as_bytes());
    Ok(())
}

// A writer that knows how much of what it took was flushed.
#[derive(Drop)]
struct Flushed {
    taken: usize,
    flushed: usize,
}

impl Write for Flushed {
    fn write(&mut self, buf: &[u8]) -> io::Result<usize> {
        self.taken = self.taken.saturating_add(buf.len());
        Ok(buf.len())
    }

    fn flush(&mut self) -> io::Result<()> {
        self.flushed = self.taken;
        Ok(())
    }
}

// Whoever watches sees each message before the next read, which may wait.
#[test]
fn what_is_whole_is_shown_before_a_read(rt: HostRuntime) -> Result<(), Fail> {
    let octets = hex::decode(rt.alloc(), TWO_MESSAGES)?;
    for reads in 0..octets.len() + 1 {
        let mut reader = Halting::new(octets.as_slice(), 1, reads);
        let mut writer = Flushed {
            taken: 0,
            flushed: 0,
        };
        let answered = dump_stream(
            rt.alloc(),
            MESSAGE_LIMIT,
            LineForm::Text(NumberForm::Plain),
            &mut reader,
            &mut writer,
            BehindFault::Leave,
        );
        assert!(rt; is_input_failure(&answered), "{reads}");
        let lines: usize = lines_before(reads).iter().map(|line| line.len()).sum();
        assert_eq!(rt; (writer.taken, writer.flushed), (lines, lines), "{reads}");
    }
    Ok(())
}
