//! The port at which `serve` listens, and the file of the reference of its object.

use giop_files::report;
use giop_serving::serve::reference::reference_text;
use giop_show::failure::Failure;
use giop_show::status::Status;
use giop_words::ServeWords;
use std::net::{Ipv4Addr, TcpListener};
use std::{fs, io};

/// The address that is listened at, as standard error has it.
pub const HERE: &str = "127.0.0.1";

/// Listens at a port, or where that is 0 at one that is free, writes the file of the reference of
/// the object of this type and key, and says which port it is.
pub(super) fn listen(
    rt: &HostRuntime,
    words: &ServeWords<'_>,
    type_id: &[u8],
    key: &[u8],
) -> Result<TcpListener, Status> {
    match bind(rt, words.port) {
        Ok((listener, port)) => {
            if let Some(file) = words.ior_file {
                write_reference(rt, file, type_id, port, key)?;
            }
            let _ = eprintln!(rt; "giopctl: listening on {HERE}:{port}");
            Ok(listener)
        }
        Err(error) => {
            let failure = Failure::connection(error);
            let _ = eprintln!(rt; "giopctl: {HERE}:{}: {failure}", words.port);
            Err(failure.status())
        }
    }
}

// A listener at a port, or at a free one where that is 0, and its port.
fn bind(rt: &HostRuntime, port: u16) -> io::Result<(TcpListener, u16)> {
    let listener = TcpListener::bind(rt, (Ipv4Addr::LOCALHOST, port))?;
    let port = listener.local_addr()?.port();
    Ok((listener, port))
}

// Writes the text of the object's reference, and a newline, to a file.
fn write_reference(
    rt: &HostRuntime,
    file: &str,
    type_id: &[u8],
    port: u16,
    key: &[u8],
) -> Result<(), Status> {
    let Ok(mut text) = reference_text(rt.alloc(), type_id, HERE.as_bytes(), port, key) else {
        return Err(report::status_of(rt, file, Err(Failure::Memory)));
    };
    if text.push(b'\n').is_err() {
        return Err(report::status_of(rt, file, Err(Failure::Memory)));
    }
    match fs::write(rt, file, text) {
        Ok(()) => Ok(()),
        Err(error) => Err(report::status_of(rt, file, Err(Failure::input(error)))),
    }
}
