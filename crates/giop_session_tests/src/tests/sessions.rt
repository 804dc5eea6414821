//! The interface of the tests, and the table of an end as text.
use giop_calls::{ClientEntry, ServerEntry};
use giop_json::{FormFault, interface_from_json};
use giop_session::{ClientEnd, ServerEnd};
use giop_types::Interface;
use std::alloc::Global;
use std::fmt::Write;
use std::test::Fail;

const J: &[u8] =
    b"{\"operations\":{\"ping\":{},\"add\":{\"ins\":[[\"a\",\"long\"],[\"b\",\"long\"]],\"outs\":[[\"sum\",\"long\"]]}}}";

pub fn interface(alloc: Global) -> Result<Interface, FormFault> {
    interface_from_json(alloc, J)
}

fn server_name(entry: &ServerEntry) -> &'static str {
    match entry {
        ServerEntry::Gathering { .. } => "Gathering",
        ServerEntry::Asked { .. } => "Asked",
        ServerEntry::Undecoded { .. } => "Undecoded",
        ServerEntry::LocateAsked { .. } => "LocateAsked",
        ServerEntry::Answered { .. } => "Answered",
        ServerEntry::LocateAnswered { .. } => "LocateAnswered",
        ServerEntry::Delivered { .. } => "Delivered",
        ServerEntry::Cancelled { .. } => "Cancelled",
    }
}

fn client_name(entry: &ClientEntry) -> &'static str {
    match entry {
        ClientEntry::Sending { .. } => "Sending",
        ClientEntry::Waiting { .. } => "Waiting",
        ClientEntry::Gathering { .. } => "Gathering",
        ClientEntry::Done { .. } => "Done",
        ClientEntry::LocateDone { .. } => "LocateDone",
        ClientEntry::Undecoded { .. } => "Undecoded",
        ClientEntry::OnewaySent { .. } => "OnewaySent",
        ClientEntry::Cancelled { .. } => "Cancelled",
    }
}

/// The entries of a server, each by its name, and how many pieces it has left.
pub fn server_entries(alloc: Global, end: &ServerEnd<'_>) -> Option<String> {
    let mut text = String::new(alloc);
    for id in end.ids(alloc).ok()? {
        if let Some(entry) = end.entry(id) {
            write!(text, "{id} {} {}, ", server_name(entry), entry.left()).ok()?;
        }
    }
    Some(text)
}

/// The entries of a client likewise.
pub fn client_entries(alloc: Global, end: &ClientEnd<'_>) -> Option<String> {
    let mut text = String::new(alloc);
    for id in end.ids(alloc).ok()? {
        if let Some(entry) = end.entry(id) {
            write!(text, "{id} {} {}, ", client_name(entry), entry.left()).ok()?;
        }
    }
    Some(text)
}

/// The table of a server, each entry by its name, and then its rest or its fault.
pub fn table(alloc: Global, end: &ServerEnd<'_>) -> Result<String, Fail> {
    let mut text = String::new(alloc);
    for id in end.ids(alloc)? {
        if let Some(entry) = end.entry(id) {
            write!(text, "{id} {}, ", server_name(entry))?;
        }
    }
    match end.fault() {
        Some(fault) => write!(text, "fault {} {fault}", fault.number())?,
        None => write!(text, "rest {}", end.rest())?,
    }
    Ok(text)
}
