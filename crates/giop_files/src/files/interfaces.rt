//! The files of interfaces: of all objects, and of single ones by their keys.
ghost use Rattle.std.specs.Prelude.{◌≡◌, IfErr, IfOk};
ghost use Rattle.std.specs.Option.{option_map};
ghost use Rattle.giop_files.specs.Files.{IsJoined, own_file};
ghost use Rattle.giop_files.specs.Report.{IsFailed, IsRefused};

use crate::files::interface_text::InterfaceText;
use crate::report::refusals::refuse_interface;
use crate::{files, report};
use giop_forms::LineForm;
use giop_json::{FormFault, interface_from_json};
use giop_show::failure::Failure;
use giop_show::status::Status;
use giop_types::Interface;
use giop_words::FileWord;
use std::alloc::{AllocError, Global};

/// The text of an interface of an object that offers nothing.
pub const NOTHING: &[u8] = b"{\"operations\":{}}";

/// A file of an interface that was read.
#[derive(Drop)]
pub struct Offered<'a> {
    /// The key of the object whose it is; `None` where it is of all that have none of their own.
    pub key: Option<&'a [u8]>,
    /// The file's name.
    pub file: &'a str,
    /// What it holds.
    pub text: InterfaceText,
}

/// What all these files offer, or the first of them that is no interface.
#[derive(Drop)]
pub enum Joined<'b, 'a> {
    /// They are interfaces.
    Whole(Interface),
    /// This one isn't.
    Refused(&'b Offered<'a>),
}

/// By what a command reads: an interface, or a text that is refused as one.
#[derive(Clone, Copy)]
pub enum By<'a> {
    /// What the objects offer.
    Interface(&'a Interface),
    /// The text of a file.
    Text(&'a [u8]),
}

/// The files that words name, in their order, or the status where one can't be read, which is
/// reported.
#[tactic(auto, using(crate::proofs::ReportLemmas::failed_status))]
pub fn read_each<'a>(
    rt: &HostRuntime,
    words: &'a [FileWord<'a>],
) -> Result<Vec<Offered<'a>>, Status>
    ensures { IfErr result IsFailed }
{
    let mut offered = Vec::new(rt.alloc());
    for word in words {
        let text = match files::read_interface(rt, word.file) {
            Ok(text) => text,
            Err(failure) => return Err(report::status_of(rt, word.file, Err(failure))),
        };
        let one = Offered {
            key: word.key(),
            file: word.file,
            text,
        };
        if offered.push(one).is_err() {
            return Err(report::status_of(rt, word.file, Err(Failure::Memory)));
        }
    }
    Ok(offered)
}

/// What these files offer: each object that has one what its own says, and all others what the one
/// without a key does; nothing where there is none. Where one is no interface, that is the first of
/// them.
pub fn join_offers<'b, 'a>(
    alloc: Global,
    offered: &'b [Offered<'a>],
) -> Result<Joined<'b, 'a>, AllocError>
    ensures { IfOk result IsJoined }
{
    let mut all = Interface::empty(alloc);
    let mut own: Vec<(Vec<u8>, Interface)> = Vec::new(alloc);
    for one in offered {
        let interface = match interface_from_json(alloc, one.text.as_slice()) {
            Ok(interface) => interface,
            Err(FormFault::NoMemory) => return Err(AllocError),
            Err(_) => return Ok(Joined::Refused(one)),
        };
        match one.key {
            Some(key) => own.push((Vec::from_slice(alloc, key)?, interface))?,
            None => all = interface,
        }
    }
    for (key, interface) in own {
        all = all.with_object(key, interface)?;
    }
    Ok(Joined::Whole(all))
}

/// What these files offer, as `join_offers` says, or the status where one is refused, which is
/// reported.
pub fn interface_of_each(
    rt: &HostRuntime,
    lines: LineForm,
    offered: &[Offered<'_>],
) -> Result<Interface, Status>
    ensures { IfErr result IsRefused }
{
    match join_offers(rt.alloc(), offered) {
        Ok(Joined::Whole(interface)) => Ok(interface),
        Ok(Joined::Refused(one)) => Err(refuse_interface(rt, lines, one.file, &one.text)),
        Err(_) => Err(report::status_of(rt, "--interface", Err(Failure::Memory))),
    }
}

/// The file of the object of a key: its own, else that of all others; `None` where there is
/// neither.
pub fn own_of<'b, 'a>(offered: &'b [Offered<'a>], key: &[u8]) -> Option<&'b Offered<'a>>
    ensures { option_map (λ one. one.now) result ≡ own_file offered.now key.now }
{
    match offered.iter().find(|one| one.key == Some(key)) {
        Some(own) => Some(own),
        None => offered.iter().find(|one| one.key.is_none()),
    }
}
