//! The files that a command reads; `-` is the standard input.
ghost use Rattle.std.specs.Prelude.{◌≡◌, ◌≢◌, IfErr, OnOk, codes};

use crate::interface_text::InterfaceText;
use giop_commands::BehindFault;
use giop_commands::failure::Failure;
use std::io::Read;
use std::{fs, io};

/// The size of the buffer that output is written through, in octets.
pub const OUTPUT_BUFFER: usize = 65_536;

/// Refuses two files that are both the standard input, which is read once. It says why.
pub fn apart(one: &str, other: &str) -> Result<(), &'static str>
    ensures ok { OnOk result (one.now ≡ codes "-" → other.now ≢ codes "-") }
    ensures err { IfErr result (λ _. (one.now ≡ codes "-") × (other.now ≡ codes "-")) }
{
    if one == "-" && other == "-" {
        Err("- is the standard input, and stands for one file alone")
    } else {
        Ok(())
    }
}

/// The octets of a file, or of the standard input where it is `-`.
pub fn read(rt: &HostRuntime, file: &str) -> Result<Vec<u8>, Failure> {
    if file != "-" {
        return fs::read(rt, file).map_err(Failure::input);
    }
    let mut octets = Vec::new(rt.alloc());
    match rt.reader().read_to_end(&mut octets) {
        Ok(_) => Ok(octets),
        Err(error) => Err(Failure::input(error)),
    }
}

/// The text of an interface's file.
pub fn read_interface(rt: &HostRuntime, file: &str) -> Result<InterfaceText, Failure> {
    InterfaceText::new(rt.alloc(), read(rt, file)?)
}

/// A file to be read piece by piece. A regular one is read to its end even behind a fault; a pipe
/// or a device may have no end.
pub fn opened(rt: &HostRuntime, file: &str) -> Result<(fs::File, BehindFault), Failure> {
    match open(rt, file) {
        Ok(opened) => Ok(opened),
        Err(error) => Err(Failure::input(error)),
    }
}

fn open(rt: &HostRuntime, file: &str) -> io::Result<(fs::File, BehindFault)> {
    let file = fs::File::open(rt, file)?;
    let behind = match file.metadata()?.is_file() {
        true => BehindFault::Read,
        false => BehindFault::Leave,
    };
    Ok((file, behind))
}
