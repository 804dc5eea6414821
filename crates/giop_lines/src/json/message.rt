//! How the JSON line of a message begins: its header (CORBA 3.3 Part 2, 9.4.1) and its request id.
use giop_cdr::{CdrFault, Order};
use giop_msg::{Msg, Version};
use std::fmt;

/// A message, as the first members of an object, which is left open:
/// `{"at":OFFSET,"message":"KIND","version":"VERSION","order":"ORDER","more":MORE,"size":SIZE,"id":ID`.
/// VERSION is 1.0, 1.1 or 1.2, ORDER big or little, and ID null where none can be read.
#[derive(Clone, Copy)]
pub struct MessageJson<'a> {
    /// The offset of the message in the file.
    pub at: usize,
    /// The message.
    pub message: &'a Msg,
    /// Its request id, as `Msg::request_id` returns it.
    pub id: Option<Result<u32, CdrFault>>,
}

impl fmt::Display for MessageJson<'_> {
    ghost use Rattle.std.specs.Prelude.{Some};
    ghost use Rattle.giop_lines.specs.DumpJson.{message_json};

    ghost output = { λ l. Some (message_json l.at l.message.now l.id) };

    #[tactic(auto, unfolding(crate::specs::DumpJson::message_json))]
    fn fmt<W: fmt::Write>(&self, f: &mut fmt::Formatter<W>) -> fmt::Result {
        let at = self.at;
        let header = HeaderJson(self.message);
        let size = self.message.payload.len();
        let id = MessageIdJson(self.id);
        write!(f, "{{\"at\":{at},{header},\"size\":{size},\"id\":{id}")
    }
}

// What the header of a message says, but for its size.
#[derive(Clone, Copy)]
struct HeaderJson<'a>(&'a Msg);

impl fmt::Display for HeaderJson<'_> {
    ghost use Rattle.std.specs.Prelude.{Some};
    ghost use Rattle.giop_lines.specs.DumpJson.{header_json};

    ghost output = { λ h. Some (header_json h.0.now) };

    #[tactic(auto, unfolding(crate::specs::DumpJson::header_json))]
    fn fmt<W: fmt::Write>(&self, f: &mut fmt::Formatter<W>) -> fmt::Result {
        let kind = self.0.kind;
        let version = VersionJson(self.0.version);
        let order = OrderJson(self.0.order);
        let more = MoreJson(self.0.more);
        write!(f, "\"message\":\"{kind}\",{version},{order},{more}")
    }
}

// A version: `"version":"1.0"`, or another of the three.
#[derive(Clone, Copy)]
struct VersionJson(Version);

impl fmt::Display for VersionJson {
    ghost use Rattle.std.specs.Prelude.{Some};
    ghost use Rattle.giop_lines.specs.DumpJson.{version_json};

    ghost output = { λ v. Some (version_json v.0) };

    fn fmt<W: fmt::Write>(&self, f: &mut fmt::Formatter<W>) -> fmt::Result {
        f.write_str(match self.0 {
            Version::V10 => "\"version\":\"1.0\"",
            Version::V11 => "\"version\":\"1.1\"",
            Version::V12 => "\"version\":\"1.2\"",
        })
    }
}

// A byte order: `"order":"big"` or `"order":"little"`.
#[derive(Clone, Copy)]
struct OrderJson(Order);

impl fmt::Display for OrderJson {
    ghost use Rattle.std.specs.Prelude.{Some};
    ghost use Rattle.giop_lines.specs.DumpJson.{order_json};

    ghost output = { λ o. Some (order_json o.0) };

    fn fmt<W: fmt::Write>(&self, f: &mut fmt::Formatter<W>) -> fmt::Result {
        f.write_str(match self.0 {
            Order::Big => "\"order\":\"big\"",
            Order::Little => "\"order\":\"little\"",
        })
    }
}

// Whether more fragments follow: `"more":true` or `"more":false`.
#[derive(Clone, Copy)]
struct MoreJson(bool);

impl fmt::Display for MoreJson {
    ghost use Rattle.std.specs.Prelude.{Some};
    ghost use Rattle.giop_lines.specs.DumpJson.{more_json};

    ghost output = { λ m. Some (more_json m.0) };

    fn fmt<W: fmt::Write>(&self, f: &mut fmt::Formatter<W>) -> fmt::Result {
        f.write_str(if self.0 {
            "\"more\":true"
        } else {
            "\"more\":false"
        })
    }
}

// The request id of a message: a number, or null where none is read.
#[derive(Clone, Copy)]
struct MessageIdJson(Option<Result<u32, CdrFault>>);

impl fmt::Display for MessageIdJson {
    ghost use Rattle.std.specs.Prelude.{Some};
    ghost use Rattle.giop_lines.specs.DumpJson.{message_id_json};

    ghost output = { λ i. Some (message_id_json i.0) };

    fn fmt<W: fmt::Write>(&self, f: &mut fmt::Formatter<W>) -> fmt::Result {
        match self.0 {
            Some(Ok(id)) => write!(f, "{id}"),
            Some(Err(_)) | None => f.write_str("null"),
        }
    }
}
