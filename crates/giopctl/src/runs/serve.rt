//! `serve` over files, connections and the standard output. What it reads, sends and prints is
//! commands/serve.rt, over any reader and writer; here are the files and the sockets.

use crate::cli::ServeWords;
use crate::files::OUTPUT_BUFFER;
use crate::interface_text::InterfaceText;
use crate::object_operations::{Texts, texts_of};
use crate::places::answers::{WIDE, of_answers};
use crate::report;
use crate::runs::session::{
    interface_of, linked, read, read_interface, refused_form, refused_unsent,
};
use giop_commands::failure::Failure;
use giop_commands::serve::answers::{Answers, answers_from_json};
use giop_commands::serve::given::{KeyWord, Sending, Telling};
use giop_commands::serve::in_turn::Passed;
use giop_commands::serve::reference::reference_text;
use giop_commands::serve::streaming::stream_over;
use giop_commands::status::{Limit, Status};
use giop_commands::{Ending, Serving, serve_over};
use giop_names::interface_id;
use giop_session::Limits;
use giop_types::{FormFault, Interface};
use std::alloc::{AllocError, Global};
use std::io::{BufWriter, Write};
use std::net::{Ipv4Addr, TcpListener, TcpStream};
use std::{fs, io};

// The address that is listened at, as standard error has it.
const HERE: &str = "127.0.0.1";

/// Reads the file of the interface and that of the answers, listens at a port of 127.0.0.1, and
/// serves so many connections one after the other. The status is the greatest of theirs. What is
/// refused is reported before the port is bound: the interface, then the answers.
pub fn serve(rt: &HostRuntime, words: ServeWords) -> Status {
    match served(rt, words) {
        Ok(status) => status,
        Err(status) => status,
    }
}

fn served(rt: &HostRuntime, words: ServeWords) -> Result<Status, Status> {
    let offered = read_interface(rt, words.interface)?;
    let answers = read(rt, words.answers)?;
    let key = key_of(rt, words.key)?;
    let _ = interface_of(rt, words.lines, words.interface, &offered)?;
    let type_id = or_memory(rt, words.answers, type_id_of(rt.alloc(), &words, &offered))?;
    let texts = texts_of(
        rt.alloc(),
        offered.as_slice(),
        type_id.as_slice(),
        answers.as_slice(),
    );
    let texts = or_memory(rt, words.answers, texts)?;
    let interface = match Interface::from_json(rt.alloc(), texts.interface.as_slice()) {
        Ok(interface) => interface,
        Err(_) => return Err(report::answer(rt, words.interface, Err(Failure::Memory))),
    };
    let answers = answers_of(rt, &words, &interface, &texts, answers.as_slice())?;
    let serving = Serving {
        interface: &interface,
        answers: &answers,
        key: key.as_slice(),
        form: words.form,
        limits: words.limits,
    };
    let listener = listening(rt, &words, type_id.as_slice(), key.as_slice())?;
    Ok(serve_each(rt, &listener, &words, &serving))
}

// The answers of these texts, of which that of the file is given too; or the status where they are
// refused, which is reported.
fn answers_of(
    rt: &HostRuntime,
    words: &ServeWords<'_>,
    interface: &Interface,
    texts: &Texts,
    text: &[u8],
) -> Result<Answers, Status> {
    let (alloc, lines, file) = (rt.alloc(), words.lines, words.answers);
    let answers = texts.answers.as_slice();
    let sending = within(words, words.limits);
    let fault = match answers_from_json(alloc, interface, sending, answers) {
        Ok(answers) => return Ok(answers),
        Err(fault) => fault,
    };
    let wide = within(words, WIDE);
    if fault == FormFault::Unfit && answers_from_json(alloc, interface, wide, answers).is_ok() {
        let at = of_answers(alloc, texts.interface.as_slice(), text, sending, fault);
        let limit = limit_passed(alloc, words, interface, answers);
        return Err(refused_unsent(rt, lines, file, limit, at));
    }
    let at = of_answers(alloc, texts.interface.as_slice(), text, wide, fault);
    Err(refused_form(rt, lines, file, text, fault, at))
}

// How answers are sent within limits.
fn within(words: &ServeWords<'_>, limits: Limits) -> Sending {
    Sending {
        form: words.form,
        limits,
    }
}

// The limit that answers pass, of which the text is given: that of a message where a greater one lets
// them out, else that of octets that are gathered.
fn limit_passed(
    alloc: Global,
    words: &ServeWords<'_>,
    interface: &Interface,
    answers: &[u8],
) -> Limit {
    let mut limits = words.limits;
    limits.message = u32::MAX;
    match answers_from_json(alloc, interface, within(words, limits), answers) {
        Ok(_) => Limit::Message,
        Err(_) => Limit::Gathered,
    }
}

// The octets of the object's type id: the one of the words, else the interface's own; none where
// there is neither.
fn type_id_of(
    alloc: Global,
    words: &ServeWords<'_>,
    offered: &InterfaceText,
) -> Result<Vec<u8>, AllocError> {
    if let Some(type_id) = words.type_id {
        return Vec::from_slice(alloc, type_id.as_bytes());
    }
    match interface_id(alloc, offered.given()) {
        Ok(Some(id)) => octets_of(alloc, id.as_str()),
        Err(FormFault::NoMemory) => Err(AllocError),
        _ => Ok(Vec::new(alloc)),
    }
}

// The octets that a text stands for; none where it stands for no string's.
fn octets_of(alloc: Global, text: &str) -> Result<Vec<u8>, AllocError> {
    let mut octets = Vec::with_capacity(alloc, text.len())?;
    for sign in text.chars() {
        match u8::try_from(u32::from(sign)) {
            Ok(octet) if octet > 0 => octets.push(octet)?,
            _ => return Ok(Vec::new(alloc)),
        }
    }
    Ok(octets)
}

// What was made, or the status where it is out of memory, which is reported.
fn or_memory<T>(rt: &HostRuntime, file: &str, made: Result<T, AllocError>) -> Result<T, Status> {
    match made {
        Ok(made) => Ok(made),
        Err(_) => Err(report::answer(rt, file, Err(Failure::Memory))),
    }
}

// The octets of an object key.
fn key_of(rt: &HostRuntime, key: KeyWord<'_>) -> Result<Vec<u8>, Status> {
    let octets = match key {
        KeyWord::Hex(digits) => hex::decode(rt.alloc(), digits).ok(),
        KeyWord::Text(text) => Vec::from_slice(rt.alloc(), text.as_bytes()).ok(),
    };
    match octets {
        Some(octets) => Ok(octets),
        None => Err(report::answer(rt, "--key", Err(Failure::Memory))),
    }
}

// Listens at a port, or where that is 0 at one that is free, writes the file of the reference of the
// object of this type and key, and says which port it is.
fn listening(
    rt: &HostRuntime,
    words: &ServeWords<'_>,
    type_id: &[u8],
    key: &[u8],
) -> Result<TcpListener, Status> {
    match bound(rt, words.port) {
        Ok((listener, port)) => {
            if let Some(file) = words.ior_file {
                write_reference(rt, file, type_id, port, key)?;
            }
            let _ = eprintln!(rt; "giopctl: listening on {HERE}:{port}");
            Ok(listener)
        }
        Err(error) => {
            let failure = Failure::connection(error);
            let _ = eprintln!(rt; "giopctl: {HERE}:{}: {failure}", words.port);
            Err(failure.status())
        }
    }
}

// Writes the text of the object's reference, and a newline, to a file.
fn write_reference(
    rt: &HostRuntime,
    file: &str,
    type_id: &[u8],
    port: u16,
    key: &[u8],
) -> Result<(), Status> {
    let Ok(mut text) = reference_text(rt.alloc(), type_id, HERE.as_bytes(), port, key) else {
        return Err(report::answer(rt, file, Err(Failure::Memory)));
    };
    if text.push(b'\n').is_err() {
        return Err(report::answer(rt, file, Err(Failure::Memory)));
    }
    match fs::write(rt, file, text) {
        Ok(()) => Ok(()),
        Err(error) => Err(report::answer(rt, file, Err(Failure::input(error)))),
    }
}

fn bound(rt: &HostRuntime, port: u16) -> io::Result<(TcpListener, u16)> {
    let listener = TcpListener::bind(rt, (Ipv4Addr::LOCALHOST, port))?;
    let port = listener.local_addr()?.port();
    Ok((listener, port))
}

// Serves so many connections, and continues whatever one of them ends with. Answers in turn go on from
// one to the next.
fn serve_each(
    rt: &HostRuntime,
    listener: &TcpListener,
    words: &ServeWords<'_>,
    serving: &Serving<'_>,
) -> Status {
    let mut status = Status::Done;
    let mut passed = Passed::new(rt.alloc());
    for served in 0..words.connections {
        let number = served + 1;
        status = status.or_greater(serve_next(rt, listener, number, words, serving, &mut passed));
    }
    status
}

// Waits for a connection, and serves it.
fn serve_next(
    rt: &HostRuntime,
    listener: &TcpListener,
    number: u32,
    words: &ServeWords<'_>,
    serving: &Serving<'_>,
    passed: &mut Passed,
) -> Status {
    let (stream, peer) = match listener.accept() {
        Ok(accepted) => accepted,
        Err(error) => return report::answer(rt, HERE, Err(Failure::connection(error))),
    };
    let _ = eprintln!(rt; "giopctl: connection {number} from {peer}");
    let answered = serve_stream(rt, stream, number, words, serving, passed);
    match format!(in rt.alloc(); "connection {number}") {
        Ok(name) => report::served(rt, name.as_str(), answered),
        Err(_) => report::served(rt, HERE, answered),
    }
}

fn serve_stream(
    rt: &HostRuntime,
    stream: TcpStream,
    number: u32,
    words: &ServeWords<'_>,
    serving: &Serving<'_>,
    passed: &mut Passed,
) -> Result<Ending, Failure> {
    let link = linked(rt, stream, None)?;
    let (mut reader, mut writer) = (&link, &link);
    let mut out = BufWriter::with_capacity(rt.alloc(), OUTPUT_BUFFER, io::writer(rt))?;
    let (reader, writer) = (&mut reader, &mut writer);
    let (alloc, lines) = (rt.alloc(), words.lines);
    let ending = match words.telling {
        Telling::AtTheEnd => {
            serve_over(
                alloc, number, *serving, passed, lines, reader, writer, &mut out,
            )?
        }
        Telling::WhenOver => {
            stream_over(
                alloc, number, *serving, passed, lines, reader, writer, &mut out,
            )?
        }
    };
    out.flush()?;
    Ok(ending)
}
