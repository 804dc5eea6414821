//! The JSON lines. The texts of what several commands tell are specs/JsonLines.antt, those of one
//! alone specs/DumpJson.antt and ConvertJson.antt.
ghost use Rattle.std.specs.Prelude.{◌≡◌};
ghost use Rattle.giop_lines.specs.JsonLines.{is_printable};

mod body;
mod end;
mod head;
mod message;
mod reference;
mod refusal;
mod target;

use crate::HexText;
pub use body::{InsJson, JoinedJson, RequestFaultJson, UndecodedJson, UnjoinedJson};
pub use end::{FaultJson, RestJson};
use giop_cdr::CdrFault;
use giop_json::FormFault;
use giop_msg::WireFault;
pub use head::{HeadFaultJson, LocateReplyJson, LocateRequestJson, ReplyJson, RequestJson};
pub use message::MessageJson;
use percent_encoding::ascii_str;
pub use reference::{CorbalocJson, IiopJson, IorJson, ProfileJson, TypeJson};
pub use refusal::RefusalJson;
use std::fmt;
pub use target::{KeyJson, TargetJson};

// An octet in a text of JSON: one of 0x20 to 0x7E stands for itself, but `"` and `\`, behind which
// a `\` stands; any other is `\u00` and two hexadecimal digits.
#[derive(Clone, Copy)]
struct OctetJson(u8);

impl fmt::Display for OctetJson {
    ghost use Rattle.std.specs.Prelude.{Some};
    ghost use Rattle.giop_lines.specs.JsonLines.{octet_json};

    ghost output = { λ t. Some (octet_json t.0) };

    fn fmt<W: fmt::Write>(&self, f: &mut fmt::Formatter<W>) -> fmt::Result {
        match self.0 {
            b'"' => f.write_str("\\\""),
            b'\\' => f.write_str("\\\\"),
            octet if octet < 0x20 || octet > 0x7E => write!(f, "\\u00{}", HexText(&[octet])),
            octet => f.write_str(ascii_str(&[octet])),
        }
    }
}

// Octets between the quotes of a text of JSON.
#[derive(Clone, Copy)]
struct OctetsJson<'a>(&'a [u8]);

impl fmt::Display for OctetsJson<'_> {
    ghost use Rattle.std.specs.Prelude.{Some};
    ghost use Rattle.giop_lines.specs.JsonLines.{octets_json};

    ghost output = { λ t. Some (octets_json t.0.now) };

    fn fmt<W: fmt::Write>(&self, f: &mut fmt::Formatter<W>) -> fmt::Result {
        for octet in self.0 {
            write!(f, "{}", OctetJson(*octet))?;
        }
        Ok(())
    }
}

/// Octets as a text of JSON, in which the characters U+0000 to U+00FF stand for them.
#[derive(Clone, Copy)]
pub struct TextJson<'a>(pub &'a [u8]);

impl fmt::Display for TextJson<'_> {
    ghost use Rattle.std.specs.Prelude.{Some};
    ghost use Rattle.giop_lines.specs.JsonLines.{text_json};

    ghost output = { λ t. Some (text_json t.0.now) };

    fn fmt<W: fmt::Write>(&self, f: &mut fmt::Formatter<W>) -> fmt::Result {
        write!(f, "\"{}\"", OctetsJson(self.0))
    }
}

/// Octets in hexadecimal, as a text of JSON; an empty one where there are none.
#[derive(Clone, Copy)]
pub struct HexJson<'a>(pub &'a [u8]);

impl fmt::Display for HexJson<'_> {
    ghost use Rattle.std.specs.Prelude.{Some};
    ghost use Rattle.giop_lines.specs.JsonLines.{hex_json};

    ghost output = { λ h. Some (hex_json h.0.now) };

    fn fmt<W: fmt::Write>(&self, f: &mut fmt::Formatter<W>) -> fmt::Result {
        if self.0.is_empty() {
            f.write_str("\"\"")
        } else {
            write!(f, "\"{}\"", HexText(self.0))
        }
    }
}

/// The id of a call; null where there is none.
#[derive(Clone, Copy)]
pub struct IdJson(pub Option<u32>);

impl fmt::Display for IdJson {
    ghost use Rattle.std.specs.Prelude.{Some};
    ghost use Rattle.giop_lines.specs.JsonLines.{id_json};

    ghost output = { λ t. Some (id_json t.0) };

    fn fmt<W: fmt::Write>(&self, f: &mut fmt::Formatter<W>) -> fmt::Result {
        match self.0 {
            Some(id) => write!(f, "{id}"),
            None => f.write_str("null"),
        }
    }
}

/// A fault of octets: `{"number":NUMBER,"name":NAME,"at":PLACE}`.
#[derive(Clone, Copy)]
pub struct CdrFaultJson(pub CdrFault);

impl fmt::Display for CdrFaultJson {
    ghost use Rattle.std.specs.Prelude.{Some};
    ghost use Rattle.giop_lines.specs.JsonLines.{cdr_fault_json};

    ghost output = { λ t. Some (cdr_fault_json t.0) };

    fn fmt<W: fmt::Write>(&self, f: &mut fmt::Formatter<W>) -> fmt::Result {
        let (number, kind, at) = (self.0.number(), self.0.kind, self.0.at);
        write!(f, "{{\"number\":{number},\"name\":\"{kind}\",\"at\":{at}}}")
    }
}

/// A fault of a header, in the same form.
#[derive(Clone, Copy)]
pub struct WireFaultJson(pub WireFault);

impl fmt::Display for WireFaultJson {
    ghost use Rattle.std.specs.Prelude.{Some};
    ghost use Rattle.giop_lines.specs.JsonLines.{wire_fault_json};

    ghost output = { λ t. Some (wire_fault_json t.0) };

    fn fmt<W: fmt::Write>(&self, f: &mut fmt::Formatter<W>) -> fmt::Result {
        let WireFault { at, kind } = self.0;
        let number = kind.number();
        write!(f, "{{\"number\":{number},\"name\":\"{kind}\",\"at\":{at}}}")
    }
}

// The text that an object key is, as a member behind another; nothing where an octet of it isn't
// printable ASCII.
#[derive(Clone, Copy)]
struct KeyTextJson<'a>(&'a [u8]);

impl fmt::Display for KeyTextJson<'_> {
    ghost use Rattle.std.specs.Prelude.{Some};
    ghost use Rattle.giop_lines.specs.JsonLines.{key_text_json};

    ghost output = { λ t. Some (key_text_json t.0.now) };

    fn fmt<W: fmt::Write>(&self, f: &mut fmt::Formatter<W>) -> fmt::Result {
        if is_printable(self.0) {
            write!(f, ",\"key_text\":{}", TextJson(self.0))
        } else {
            Ok(())
        }
    }
}

// Whether all octets are printable ASCII.
fn is_printable(octets: &[u8]) -> bool
    ensures { result ≡ is_printable octets.now }
{
    octets.iter().all(|octet| 0x20 <= *octet && *octet <= 0x7E)
}

/// Why an interface is refused: `{"refused":{"number":NUMBER,"name":NAME}}`.
#[derive(Clone, Copy)]
pub struct RefusedJson(pub FormFault);

impl fmt::Display for RefusedJson {
    ghost use Rattle.std.specs.Prelude.{Some};
    ghost use Rattle.giop_lines.specs.JsonLines.{refused_json};

    ghost output = { λ l. Some (refused_json l.0) };

    fn fmt<W: fmt::Write>(&self, f: &mut fmt::Formatter<W>) -> fmt::Result {
        let fault = self.0;
        write!(
            f,
            "{{\"refused\":{{\"number\":{},\"name\":\"{fault}\"}}}}",
            fault.number()
        )
    }
}
