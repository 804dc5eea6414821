//! What is stored for an id at a server, as an object of JSON. Its text is `server_json` in
//! specs/TableJson.antt.
use crate::server_entry::HereText;
use giop_calls::ServerEntry;
use giop_lines::{RequestFaultJson, TextJson};
use giop_msg::Request;
use std::fmt;

/// What is stored for an id at a server: `{"id":ID,"what":WHAT}`, and behind WHAT what is asked,
/// why it can't be decoded, or what was answered.
#[derive(Clone, Copy)]
pub struct ServerEntryJson<'a> {
    /// The id.
    pub id: u32,
    /// Its entry.
    pub entry: &'a ServerEntry,
    /// The ins of a Request that was decoded, as a JSON list; else empty.
    pub ins: &'a str,
}

impl fmt::Display for ServerEntryJson<'_> {
    ghost use Rattle.std.specs.Prelude.{Some};
    ghost use Rattle.giop_call_lines.specs.TableJson.{server_json};

    ghost output = { λ l. Some (server_json l.id l.entry.now l.ins.now) };

    #[tactic(auto, unfolding(crate::specs::TableJson::server_json))]
    fn fmt<W: fmt::Write>(&self, f: &mut fmt::Formatter<W>) -> fmt::Result {
        let (id, entry) = (self.id, EntryJson(self.entry, self.ins));
        write!(f, "{{\"id\":{id},\"what\":{entry}}}")
    }
}

/// What an entry is, with the ins of a Request that was decoded as a JSON list, and the members
/// behind that.
#[derive(Clone, Copy)]
pub struct EntryJson<'a>(pub &'a ServerEntry, pub &'a str);

impl fmt::Display for EntryJson<'_> {
    ghost use Rattle.std.specs.Prelude.{Some};
    ghost use Rattle.giop_call_lines.specs.TableJson.{entry_json};

    ghost output = { λ e. Some (entry_json e.0.now e.1.now) };

    fn fmt<W: fmt::Write>(&self, f: &mut fmt::Formatter<W>) -> fmt::Result {
        let EntryJson(entry, ins) = *self;
        match entry {
            ServerEntry::Gathering { .. } => f.write_str("\"gathering\""),
            ServerEntry::Asked { request } => write!(f, "\"asked\",{}", AskedJson(request, ins)),
            ServerEntry::Undecoded { call } => {
                write!(f, "\"undecoded\",{}", RequestFaultJson(call.fault))
            }
            ServerEntry::LocateAsked { .. } => f.write_str("\"locate_asked\""),
            ServerEntry::Answered { reply, .. } => {
                write!(f, "\"answered\",\"status\":{}", reply.body.status())
            }
            ServerEntry::LocateAnswered { here, .. } => {
                write!(f, "\"locate_answered\",\"status\":{}", HereText(*here))
            }
            ServerEntry::Delivered { request } => {
                write!(f, "\"delivered\",{}", AskedJson(request, ins))
            }
            ServerEntry::Cancelled { .. } => f.write_str("\"cancelled\""),
        }
    }
}

/// A Request and its ins, which are a JSON list, as members: `"operation":OPERATION,"ins":INS`.
#[derive(Clone, Copy)]
pub struct AskedJson<'a>(pub &'a Request, pub &'a str);

impl fmt::Display for AskedJson<'_> {
    ghost use Rattle.std.specs.Prelude.{Some};
    ghost use Rattle.giop_call_lines.specs.TableJson.{asked_json};

    ghost output = { λ t. Some (asked_json t.0.now t.1.now) };

    #[tactic(auto, unfolding(crate::specs::TableJson::asked_json))]
    fn fmt<W: fmt::Write>(&self, f: &mut fmt::Formatter<W>) -> fmt::Result {
        let AskedJson(request, ins) = *self;
        let operation = TextJson(request.head.operation.as_slice());
        write!(f, "\"operation\":{operation},\"ins\":{ins}")
    }
}
