//! The files that a command reads; `-` is the standard input.
ghost use Rattle.std.specs.Prelude.{◌≡◌, codes, IfErr, IfOk, IsTrue, ◌↔◌};
ghost use Rattle.std.specs.Io.{StartsWith};
ghost use Rattle.giop_files.specs.Files.{first_black, is_white};
ghost use Rattle.giop_files.specs.Report.{IsFailed, IsUnread};

pub mod interface_text;
pub mod interfaces;

use crate::files::interface_text::InterfaceText;
use crate::report;
use giop_show::BehindFault;
use giop_show::failure::Failure;
use giop_show::pieces::PieceBuffer;
use giop_show::status::Status;
use std::alloc::{AllocError, Global};
use std::io::Read;
use std::{fs, io};

/// The size of the buffer that output is written through, in octets.
pub const OUTPUT_BUFFER: usize = 65_536;

/// The octets of a file, or of the standard input where it is `-`. It fails with Input or Memory
/// where that can't be read, and reports nothing.
pub fn read(rt: &HostRuntime, file: &str) -> Result<Vec<u8>, Failure>
    ensures { IfErr result IsUnread }
{
    if file != "-" {
        return fs::read(rt, file).map_err(Failure::input);
    }
    let mut octets = Vec::new(rt.alloc());
    match rt.reader().read_to_end(&mut octets) {
        Ok(_) => Ok(octets),
        Err(error) => Err(Failure::input(error)),
    }
}

/// The octets of a file as `read` gives them, or the status where it can't be read, which is
/// reported.
#[tactic(auto, using(crate::proofs::ReportLemmas::failed_status))]
pub fn read_or_report(rt: &HostRuntime, file: &str) -> Result<Vec<u8>, Status>
    ensures { IfErr result IsFailed }
{
    match read(rt, file) {
        Ok(octets) => Ok(octets),
        Err(failure) => Err(report::status_of(rt, file, Err(failure))),
    }
}

/// The text of an interface's file.
pub fn read_interface(rt: &HostRuntime, file: &str) -> Result<InterfaceText, Failure> {
    InterfaceText::new(rt.alloc(), read(rt, file)?)
}

/// A file to be read piece by piece, and whether the rest of it is read behind a fault: a regular one
/// is, but a pipe or a device may have no end. It fails with Input or Memory where it can't be opened.
pub fn open_in_pieces(rt: &HostRuntime, file: &str) -> Result<(fs::File, BehindFault), Failure>
    ensures { IfErr result IsUnread }
{
    match open(rt, file) {
        Ok(opened) => Ok(opened),
        Err(error) => Err(Failure::input(error)),
    }
}

fn open(rt: &HostRuntime, file: &str) -> io::Result<(fs::File, BehindFault)> {
    let file = fs::File::open(rt, file)?;
    let behind = match file.metadata()?.is_file() {
        true => BehindFault::Read,
        false => BehindFault::Leave,
    };
    Ok((file, behind))
}

/// A file that is read piece by piece, or the standard input.
#[derive(Drop)]
pub enum Pieces {
    /// A file.
    File(fs::File),
    /// The standard input.
    Input(io::StdinLock<'static>),
}

impl Read for Pieces {
    fn read(&mut self, piece: &mut [u8]) -> io::Result<usize> {
        match self {
            Pieces::File(file) => file.read(piece),
            Pieces::Input(input) => input.read(piece),
        }
    }
}

/// A file of which the front is read: its first octets, those behind them, and whether a read of
/// those may wait.
#[derive(Drop)]
pub struct FileFront {
    /// What is read, up to an octet that is no white space, and what came with it.
    pub front: Vec<u8>,
    /// What isn't read yet.
    pub rest: Pieces,
    /// Whether a read may wait, as for a pipe; not for a regular file.
    pub waits: bool,
}

impl FileFront {
    /// Whether its first octet that is no white space begins a JSON list.
    pub fn is_list(&self) -> bool
        ensures { IsTrue result ↔ (first_black self.now.front.items ≡ Some 91) }
    {
        self.front.iter().find(|octet| !is_white(**octet)) == Some(&b'[')
    }

    /// All of its octets, those that are read before first. It fails with Input or Memory.
    pub fn whole(mut self) -> Result<Vec<u8>, Failure>
        ensures err { IfErr result IsUnread }
        ensures ok { IfOk result (λ octets. StartsWith octets.items self.front.items) }
    {
        match self.rest.read_to_end(&mut self.front) {
            Ok(_) => Ok(self.front),
            Err(error) => Err(Failure::input(error)),
        }
    }
}

/// A file, or the standard input where it is `-`, read up to an octet that is no white space. It
/// fails with Input or Memory.
pub fn front_of(rt: &HostRuntime, file: &str) -> Result<FileFront, Failure>
    ensures { file.now ≡ codes "-" → IfOk result (λ front. IsTrue front.waits) }
{
    if file == "-" {
        return front_at(rt.alloc(), Pieces::Input(rt.reader()), true);
    }
    let (file, behind) = open_in_pieces(rt, file)?;
    let waits = behind == BehindFault::Leave;
    front_at(rt.alloc(), Pieces::File(file), waits)
}

fn front_at(alloc: Global, mut rest: Pieces, waits: bool) -> Result<FileFront, Failure>
    ensures { IfOk result (λ front. front.waits ≡ waits) }
{
    let mut buffer = PieceBuffer::new(alloc)?;
    let mut front = Vec::new(alloc);
    for _ in 0..u64::MAX {
        let piece = buffer.fill(&mut rest)?;
        if extend(&mut front, piece).is_err() {
            return Err(Failure::Memory);
        }
        if piece.is_empty() || !piece.iter().all(|octet| is_white(*octet)) {
            break;
        }
    }
    Ok(FileFront { front, rest, waits })
}

fn extend(octets: &mut Vec<u8>, more: &[u8]) -> Result<(), AllocError> {
    octets.extend_from_slice(more)?;
    Ok(())
}

// Whether an octet is white space of JSON.
fn is_white(octet: u8) -> bool
    ensures { result ≡ is_white octet }
{
    octet == b' ' || octet == b'\t' || octet == b'\n' || octet == b'\r'
}
