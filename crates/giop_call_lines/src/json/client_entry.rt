//! What became of a call at a client, as an object of JSON. Its texts are specs/SessionJson.antt.
use crate::client_entry::CompletionText;
use giop_calls::ClientEntry;
use giop_lines::{CdrFaultJson, HexText, TextJson};
use giop_msg::ReplyBody;
use std::fmt;

/// What is stored for an id at a client: `{"id":ID,"what":WHAT}`, and behind WHAT what was
/// answered, or why the reply can't be decoded.
#[derive(Clone, Copy)]
pub struct ClientEntryJson<'a> {
    /// The id.
    pub id: u32,
    /// Its entry.
    pub entry: &'a ClientEntry,
    /// What a Reply brought: its values as a JSON list, or the text of its reference; else empty.
    pub brought: &'a str,
}

impl fmt::Display for ClientEntryJson<'_> {
    ghost use Rattle.std.specs.Prelude.{Some};
    ghost use Rattle.giop_call_lines.specs.SessionJson.{client_json};

    ghost output = { λ l. Some (client_json l.id l.entry.now l.brought.now) };

    #[tactic(auto, unfolding(crate::specs::SessionJson::client_json))]
    fn fmt<W: fmt::Write>(&self, f: &mut fmt::Formatter<W>) -> fmt::Result {
        let (id, came) = (self.id, CameJson(self.entry, self.brought));
        write!(f, "{{\"id\":{id},\"what\":{came}}}")
    }
}

// What a call came to, and the members behind that.
#[derive(Clone, Copy)]
struct CameJson<'a>(&'a ClientEntry, &'a str);

impl fmt::Display for CameJson<'_> {
    ghost use Rattle.std.specs.Prelude.{Some};
    ghost use Rattle.giop_call_lines.specs.SessionJson.{came_json};

    ghost output = { λ e. Some (came_json e.0.now e.1.now) };

    fn fmt<W: fmt::Write>(&self, f: &mut fmt::Formatter<W>) -> fmt::Result {
        let CameJson(entry, brought) = *self;
        match entry {
            ClientEntry::Sending { .. } => f.write_str("\"sending\""),
            ClientEntry::Waiting { .. } => f.write_str("\"waiting\""),
            ClientEntry::Gathering { .. } => f.write_str("\"gathering\""),
            ClientEntry::Done { reply, .. } => {
                write!(f, "{}", OutcomeJson(&reply.body, brought))
            }
            ClientEntry::LocateDone { reply, .. } => {
                write!(f, "\"located\",\"status\":{}", reply.head.status)
            }
            ClientEntry::Undecoded { fault, .. } => {
                write!(f, "\"undecoded\",\"fault\":{}", CdrFaultJson(*fault))
            }
            ClientEntry::OnewaySent { .. } => f.write_str("\"oneway\""),
            ClientEntry::Cancelled { .. } => f.write_str("\"cancelled\""),
        }
    }
}

/// What a Reply answers, with its values, which are a JSON list, or the text of its reference:
/// WHAT, and the members behind that.
#[derive(Clone, Copy)]
pub struct OutcomeJson<'a>(pub &'a ReplyBody, pub &'a str);

impl fmt::Display for OutcomeJson<'_> {
    ghost use Rattle.std.specs.Prelude.{Some};
    ghost use Rattle.giop_call_lines.specs.SessionJson.{outcome_json};

    ghost output = { λ t. Some (outcome_json t.0.now t.1.now) };

    fn fmt<W: fmt::Write>(&self, f: &mut fmt::Formatter<W>) -> fmt::Result {
        let OutcomeJson(body, brought) = *self;
        match body {
            ReplyBody::NoException(_) => write!(f, "\"result\",\"outs\":{brought}"),
            ReplyBody::UserException { id, .. } => {
                let id = TextJson(id.as_slice());
                write!(
                    f,
                    "\"user_exception\",\"exception\":{id},\"members\":{brought}"
                )
            }
            ReplyBody::SystemException {
                id,
                minor,
                completion,
            } => {
                let (id, minor) = (TextJson(id.as_slice()), MinorJson(*minor));
                let completion = CompletionText(*completion);
                write!(
                    f,
                    "\"system_exception\",\"exception\":{id},{minor},\"completion\":{completion}"
                )
            }
            ReplyBody::Forward(_) => write!(f, "\"forward\",\"reference\":\"{brought}\""),
            ReplyBody::ForwardPerm(_) => {
                write!(f, "\"forward_perm\",\"reference\":\"{brought}\"")
            }
            ReplyBody::NeedsAddressing(disposition) => {
                write!(f, "\"needs_addressing\",\"disposition\":{}", *disposition)
            }
        }
    }
}

// A minor code, as members: `"minor":MINOR,"minor_hex":"0xHEX"`, eight digits.
#[derive(Clone, Copy)]
struct MinorJson(u32);

impl fmt::Display for MinorJson {
    ghost use Rattle.std.specs.Prelude.{Some};
    ghost use Rattle.giop_call_lines.specs.SessionJson.{minor_json};

    ghost output = { λ t. Some (minor_json t.0) };

    #[tactic(auto, unfolding(crate::specs::SessionJson::minor_json))]
    fn fmt<W: fmt::Write>(&self, f: &mut fmt::Formatter<W>) -> fmt::Result {
        let (minor, hex) = (self.0, MinorHex(self.0));
        write!(f, "\"minor\":{minor},\"minor_hex\":\"{hex}\"")
    }
}

// A minor code in eight hexadecimal digits, behind 0x.
#[derive(Clone, Copy)]
struct MinorHex(u32);

impl fmt::Display for MinorHex {
    ghost use Rattle.std.specs.Prelude.{Some};
    ghost use Rattle.giop_call_lines.specs.SessionJson.{minor_hex};

    ghost output = { λ t. Some (minor_hex t.0) };

    fn fmt<W: fmt::Write>(&self, f: &mut fmt::Formatter<W>) -> fmt::Result {
        let octets = self.0.to_be_bytes();
        write!(f, "0x{}", HexText(&octets))
    }
}

/// A call that wasn't made: `{"id":ID,"what":"unsent"}`.
#[derive(Clone, Copy)]
pub struct UnsentJson(pub u32);

impl fmt::Display for UnsentJson {
    ghost use Rattle.std.specs.Prelude.{Some};
    ghost use Rattle.giop_call_lines.specs.SessionJson.{unsent_json};

    ghost output = { λ l. Some (unsent_json l.0) };

    #[tactic(auto, unfolding(crate::specs::SessionJson::unsent_json))]
    fn fmt<W: fmt::Write>(&self, f: &mut fmt::Formatter<W>) -> fmt::Result {
        write!(f, "{{\"id\":{},\"what\":\"unsent\"}}", self.0)
    }
}
