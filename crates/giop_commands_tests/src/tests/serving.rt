//! Connections that break. What is answered to each message is cases of the built
//! program (tests/cases/serving).
use crate::tests::session_files::interface;
use giop_commands::session::given::Pipes;
use giop_end::{Form, Limits};
use giop_forms::LineForm;
use giop_json::NumberForm;
use giop_serving::serve::answers::{Answers, answers_from_json};
use giop_serving::serve::given::{Sending, ServedObject, Serving};
use giop_serving::serve::in_turn::Passed;
use giop_serving::serve_session;
use giop_show::status::Status;
use giop_types::Interface;
use std::alloc::Global;
use std::io;
use std::io::{ErrorKind, Read, Write};
use std::test::Fail;

const KEY: &[u8] = b"k";

const ANSWERS: &str = "{\"ping\":{\"ok\":[]},\"add\":{\"ok\":[7]},\"list\":{\"ok\":[]}}";

fn answers(alloc: Global, interface: &Interface, text: &str) -> Result<Answers, Fail> {
    let form = Form::default();
    if !form.is_valid() {
        return Err(Fail::new("the form is none"));
    }
    let limits = Limits::default();
    match answers_from_json(alloc, interface, Sending { form, limits }, text.as_bytes()) {
        Ok(answers) => Ok(answers),
        Err(_) => Err(Fail::new("the answers are refused")),
    }
}

// A connection that takes so many octets and gives these.
#[derive(Drop)]
struct Breaking {
    room: usize,
}

impl Write for Breaking {
    fn write(&mut self, buf: &[u8]) -> io::Result<usize> {
        let n = buf.len().min(self.room);
        if n == 0 {
            return Err(io::Error::from(ErrorKind::ConnectionReset));
        }
        self.room -= n;
        Ok(n)
    }

    fn flush(&mut self) -> io::Result<()> {
        Ok(())
    }
}

fn served<R: Read + Drop, W: Write + Drop>(
    alloc: Global,
    reader: R,
    writer: W,
) -> Result<Status, Fail> {
    let interface = interface(alloc)?;
    let answers = answers(alloc, &interface, ANSWERS)?;
    let form = Form::default();
    if !form.is_valid() {
        return Err(Fail::new("the form is none"));
    }
    let mut passed = Passed::new(alloc);
    let objects = [ServedObject {
        key: KEY,
        answers: &answers,
    }];
    let serving = Serving {
        interface: &interface,
        objects: &objects,
        form,
        limits: Limits::default(),
        lines: LineForm::Text(NumberForm::Plain),
    };
    let mut pipes = Pipes {
        reader,
        writer,
        out: Vec::new(alloc),
    };
    Ok(serve_session(alloc, 1, serving, &mut passed, &mut pipes))
}

#[test]
fn a_writer_that_fails_ends_a_connection(rt: HostRuntime) -> Result<(), Fail> {
    let octets = hex::decode(
        rt.alloc(),
        "47494F50010200000000002C000000040300000000000000000000016B00000000000004\
        6164640000000000000000000000000200000005",
    )?;
    for room in 0..29 {
        let writer = Breaking { room };
        let wanted = if room < 28 {
            Status::InputOutput
        } else {
            Status::Done
        };
        assert_eq!(rt;
            served(rt.alloc(), octets.as_slice(), writer)?,
            wanted,
            "{room}"
        );
    }
    Ok(())
}
