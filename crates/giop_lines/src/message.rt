//! The line of a message: its header (CORBA 3.3 Part 2, 9.4.1) and its request id.
pub mod locate;
pub mod reply;
pub mod request;
pub mod target;

use giop_cdr::{CdrFault, Order};
use giop_msg::{Msg, Version};
use std::fmt;

/// A message, in one line: `OFFSET KIND[ VERSION] BE|LE[ more] size SIZE[ id ID]`.
#[derive(Clone, Copy)]
pub struct MessageLine<'a> {
    /// The offset of the message in the file.
    pub at: usize,
    /// The message.
    pub message: &'a Msg,
    /// Its request id, as `Msg::request_id` returns it.
    pub id: Option<Result<u32, CdrFault>>,
}

impl fmt::Display for MessageLine<'_> {
    ghost use Rattle.std.specs.Prelude.{Some};
    ghost use Rattle.giop_lines.specs.Lines.{message_line};

    ghost output = { λ l. Some (message_line l.at l.message.now l.id) };

    fn fmt<W: fmt::Write>(&self, f: &mut fmt::Formatter<W>) -> fmt::Result {
        let at = self.at;
        let kind = self.message.kind;
        let version = VersionText(self.message.version);
        let order = OrderText(self.message.order);
        let more = MoreText(self.message.more);
        let size = self.message.payload.len();
        let id = IdText(self.id);
        write!(f, "{at} {kind}{version} {order}{more} size {size}{id}")
    }
}

// A version: ` 1.0`, ` 1.1`, or nothing for 1.2.
#[derive(Clone, Copy)]
struct VersionText(Version);

impl fmt::Display for VersionText {
    ghost use Rattle.std.specs.Prelude.{Some};
    ghost use Rattle.giop_lines.specs.Lines.{version_text};

    ghost output = { λ v. Some (version_text v.0) };

    fn fmt<W: fmt::Write>(&self, f: &mut fmt::Formatter<W>) -> fmt::Result {
        f.write_str(match self.0 {
            Version::V10 => " 1.0",
            Version::V11 => " 1.1",
            Version::V12 => "",
        })
    }
}

// A byte order: `BE` or `LE`.
#[derive(Clone, Copy)]
struct OrderText(Order);

impl fmt::Display for OrderText {
    ghost use Rattle.std.specs.Prelude.{Some};
    ghost use Rattle.giop_lines.specs.Lines.{order_text};

    ghost output = { λ o. Some (order_text o.0) };

    fn fmt<W: fmt::Write>(&self, f: &mut fmt::Formatter<W>) -> fmt::Result {
        f.write_str(match self.0 {
            Order::Big => "BE",
            Order::Little => "LE",
        })
    }
}

// That more fragments follow: ` more`, or nothing.
#[derive(Clone, Copy)]
struct MoreText(bool);

impl fmt::Display for MoreText {
    ghost use Rattle.std.specs.Prelude.{Some};
    ghost use Rattle.giop_lines.specs.Lines.{more_text};

    ghost output = { λ m. Some (more_text m.0) };

    fn fmt<W: fmt::Write>(&self, f: &mut fmt::Formatter<W>) -> fmt::Result {
        f.write_str(if self.0 { " more" } else { "" })
    }
}

// The request id of a message: ` id ID`, or nothing where none is read.
#[derive(Clone, Copy)]
struct IdText(Option<Result<u32, CdrFault>>);

impl fmt::Display for IdText {
    ghost use Rattle.std.specs.Prelude.{Some};
    ghost use Rattle.giop_lines.specs.Lines.{id_text};

    ghost output = { λ i. Some (id_text i.0) };

    fn fmt<W: fmt::Write>(&self, f: &mut fmt::Formatter<W>) -> fmt::Result {
        match self.0 {
            Some(Ok(id)) => write!(f, " id {id}"),
            Some(Err(_)) | None => Ok(()),
        }
    }
}
