//! `serve` of giopctl over files, connections and the standard output. What it reads, sends and
//! prints is giop_serving's serve.rt, over any reader and writer.
#![tactic(auto)]

mod object_operations;
mod objects;
mod port;

use crate::objects::{Asked, objects_of, read_answers};
use crate::port::{HERE, listen};
use giop_commands::Ending;
use giop_commands::session::given::Pipes;
use giop_connections::door::Door;
use giop_connections::endings;
use giop_connections::link::Link;
use giop_connections::sending::{form_of, limits_of};
use giop_files::files::OUTPUT_BUFFER;
use giop_files::files::interfaces::{interface_of_each, read_each};
use giop_files::report;
use giop_serving::serve::given::ServedObject;
use giop_serving::serve::in_turn::Passed;
use giop_serving::serve::streaming::stream_over;
use giop_serving::{Serving, serve_over};
use giop_show::failure::Failure;
use giop_show::status::Status;
use giop_words::{KeyWord, ServeWords, Telling};
use std::io;
use std::io::{BufWriter, Write};
use std::net::TcpStream;
use std::rc::Rc;

/// Reads the files of interfaces and those of answers, listens at a port of 127.0.0.1, and serves
/// so many connections one after the other. The status is the greatest of theirs. What is refused
/// is reported before the port is bound: the interfaces, then the answers.
pub fn serve(rt: &HostRuntime, words: &ServeWords<'_>) -> Status {
    match try_serve(rt, words) {
        Ok(status) => status,
        Err(status) => status,
    }
}

fn try_serve(rt: &HostRuntime, words: &ServeWords<'_>) -> Result<Status, Status> {
    let offered = read_each(rt, words.interfaces.as_slice())?;
    let given = read_answers(rt, words.answers.as_slice())?;
    let key = key_of(rt, words.key)?;
    let interface = interface_of_each(rt, words.lines, offered.as_slice())?;
    let asked = Asked {
        words,
        offered: offered.as_slice(),
        given: given.as_slice(),
    };
    let all = objects_of(rt, asked, key.as_slice(), interface)?;
    let mut objects = Vec::new(rt.alloc());
    for object in all.objects.as_slice() {
        let one = ServedObject {
            key: object.key.as_slice(),
            answers: &object.answers,
        };
        if objects.push(one).is_err() {
            return Err(report::status_of(rt, "--key", Err(Failure::Memory)));
        }
    }
    let serving = Serving {
        interface: &all.interface,
        objects: objects.as_slice(),
        form: form_of(words.sending),
        limits: limits_of(words.limits),
        lines: words.lines,
    };
    let listener = listen(rt, words, all.type_id.as_slice(), key.as_slice())?;
    match Door::new(rt, listener, words.connections) {
        Ok(door) => Ok(serve_each(rt, &door, words, &serving)),
        Err(error) => Err(report::status_of(rt, HERE, Err(Failure::connection(error)))),
    }
}

// The octets of an object key.
fn key_of(rt: &HostRuntime, key: KeyWord<'_>) -> Result<Vec<u8>, Status> {
    let octets = match key {
        KeyWord::Hex(digits) => hex::decode(rt.alloc(), digits).ok(),
        KeyWord::Text(text) => Vec::from_slice(rt.alloc(), text.as_bytes()).ok(),
    };
    match octets {
        Some(octets) => Ok(octets),
        None => Err(report::status_of(rt, "--key", Err(Failure::Memory))),
    }
}

// Serves so many connections, and continues whatever one of them ends with. Answers in turn go on
// from one to the next.
fn serve_each(
    rt: &HostRuntime,
    door: &Rc<Door>,
    words: &ServeWords<'_>,
    serving: &Serving<'_>,
) -> Status {
    let mut status = Status::Done;
    let mut passed = Passed::new(rt.alloc());
    for served in 0..words.connections {
        let number = served + 1;
        status = status.or_greater(serve_next(rt, door, number, words, serving, &mut passed));
    }
    status
}

// Waits for a connection, and serves it.
fn serve_next(
    rt: &HostRuntime,
    door: &Rc<Door>,
    number: u32,
    words: &ServeWords<'_>,
    serving: &Serving<'_>,
    passed: &mut Passed,
) -> Status {
    let (stream, peer) = match door.admit(number) {
        Ok(accepted) => accepted,
        Err(error) => return report::status_of(rt, HERE, Err(Failure::connection(error))),
    };
    let _ = eprintln!(rt; "giopctl: connection {number} from {peer}");
    let answered = serve_stream(rt, door, stream, number, words, serving, passed);
    match format!(in rt.alloc(); "connection {number}") {
        Ok(name) => endings::serve_status(rt, name.as_str(), answered),
        Err(_) => endings::serve_status(rt, HERE, answered),
    }
}

fn serve_stream(
    rt: &HostRuntime,
    door: &Rc<Door>,
    stream: TcpStream,
    number: u32,
    words: &ServeWords<'_>,
    serving: &Serving<'_>,
    passed: &mut Passed,
) -> Result<Ending, Failure> {
    let link = match Link::through(rt.alloc(), stream, door.clone()?) {
        Ok(link) => link,
        Err(error) => return Err(Failure::connection(error)),
    };
    let out = BufWriter::with_capacity(rt.alloc(), OUTPUT_BUFFER, io::writer(rt))?;
    let mut pipes = Pipes {
        reader: &link,
        writer: &link,
        out,
    };
    let alloc = rt.alloc();
    let ending = match words.telling {
        Telling::AtTheEnd => serve_over(alloc, number, *serving, passed, &mut pipes)?,
        Telling::WhenOver => stream_over(alloc, number, *serving, passed, &mut pipes)?,
    };
    pipes.out.flush()?;
    Ok(ending)
}
