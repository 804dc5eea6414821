//! The target of a Request or a LocateRequest (CORBA 3.3 Part 2, 9.4.2.1), as members of an object
//! of JSON.
use crate::json::{HexJson, KeyTextJson};
use giop_cdr::SliceOctets;
use giop_msg::{Target, TargetAt};
use std::fmt;

/// The target of a decoded Request or LocateRequest: `"key":HEX` and where it is printable
/// `,"key_text":TEXT`; or `"profile_tag":TAG`, or `"reference_index":INDEX`.
#[derive(Clone, Copy)]
pub struct TargetJson<'a>(pub &'a Target);

impl fmt::Display for TargetJson<'_> {
    ghost use Rattle.std.specs.Prelude.{Some};
    ghost use Rattle.giop_lines.specs.JsonLines.{target_json};

    ghost output = { λ t. Some (target_json t.0.now) };

    fn fmt<W: fmt::Write>(&self, f: &mut fmt::Formatter<W>) -> fmt::Result {
        match self.0 {
            Target::Key(key) => write!(f, "{}", KeyJson(key.as_slice())),
            Target::Profile(profile) => write!(f, "\"profile_tag\":{}", profile.tag),
            Target::Reference { index, ior: _ } => write!(f, "\"reference_index\":{}", *index),
        }
    }
}

/// The target of a head that lies in a message's octets, likewise.
#[derive(Clone, Copy)]
pub struct TargetAtJson<'head, 'joined, 'octets>(
    pub &'head TargetAt<'joined, SliceOctets<'octets>>,
);

impl fmt::Display for TargetAtJson<'_, '_, '_> {
    ghost use Rattle.std.specs.Prelude.{Some};
    ghost use Rattle.giop_lines.specs.JsonLines.{target_json};

    ghost output = { λ t. Some (target_json t.0.now) };

    fn fmt<W: fmt::Write>(&self, f: &mut fmt::Formatter<W>) -> fmt::Result {
        match self.0 {
            Target::Key(key) => write!(f, "{}", KeyJson(key.as_slice())),
            Target::Profile(profile) => write!(f, "\"profile_tag\":{}", profile.tag()),
            Target::Reference { index, ior: _ } => write!(f, "\"reference_index\":{}", *index),
        }
    }
}

/// An object key: `"key":HEX`, and where it is printable `,"key_text":TEXT`.
#[derive(Clone, Copy)]
pub struct KeyJson<'a>(pub &'a [u8]);

impl fmt::Display for KeyJson<'_> {
    ghost use Rattle.std.specs.Prelude.{Some};
    ghost use Rattle.giop_lines.specs.JsonLines.{key_json};

    ghost output = { λ k. Some (key_json k.0.now) };

    #[tactic(auto, unfolding(crate::specs::JsonLines::key_json))]
    fn fmt<W: fmt::Write>(&self, f: &mut fmt::Formatter<W>) -> fmt::Result {
        write!(f, "\"key\":{}{}", HexJson(self.0), KeyTextJson(self.0))
    }
}
