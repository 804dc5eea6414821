//! Parts of the lines of calls: an id, a minor code, a target. Their texts are specs/TraceLines.antt
//! and Lines.antt.
use crate::HexText;
use giop_msg::Target;
use std::fmt;

/// The id of a call; `-` where there is none.
#[derive(Clone, Copy)]
pub struct IdText(pub Option<u32>);

impl fmt::Display for IdText {
    ghost use Rattle.std.specs.Prelude.{Some};
    ghost use Rattle.giop_lines.specs.TraceLines.{call_id_text};

    ghost output = { λ t. Some (call_id_text t.0) };

    fn fmt<W: fmt::Write>(&self, f: &mut fmt::Formatter<W>) -> fmt::Result {
        match self.0 {
            Some(id) => write!(f, "{id}"),
            None => f.write_str("-"),
        }
    }
}

/// A minor code: `MINOR 0xHEX`, eight digits.
#[derive(Clone, Copy)]
pub struct MinorText(pub u32);

impl fmt::Display for MinorText {
    ghost use Rattle.std.specs.Prelude.{Some};
    ghost use Rattle.giop_lines.specs.TraceLines.{minor_text};

    ghost output = { λ t. Some (minor_text t.0) };

    fn fmt<W: fmt::Write>(&self, f: &mut fmt::Formatter<W>) -> fmt::Result {
        let octets = self.0.to_be_bytes();
        write!(f, "{} 0x{}", self.0, HexText(&octets))
    }
}

/// The target of a decoded Request or LocateRequest: `key KEY`, `profile TAG` or
/// `reference INDEX`.
#[derive(Clone, Copy)]
pub struct OwnTargetText<'a>(pub &'a Target);

impl fmt::Display for OwnTargetText<'_> {
    ghost use Rattle.std.specs.Prelude.{Some};
    ghost use Rattle.giop_lines.specs.Lines.{target_text};

    ghost output = { λ t. Some (target_text t.0.now) };

    fn fmt<W: fmt::Write>(&self, f: &mut fmt::Formatter<W>) -> fmt::Result {
        match self.0 {
            Target::Key(key) => write!(f, "key {}", HexText(key.as_slice())),
            Target::Profile(profile) => write!(f, "profile {}", profile.tag),
            Target::Reference { index, ior: _ } => write!(f, "reference {}", *index),
        }
    }
}
