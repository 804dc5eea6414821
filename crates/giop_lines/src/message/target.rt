//! The text of the target of a Request or a LocateRequest (CORBA 3.3 Part 2, 9.4.2.1).
use crate::HexText;
use giop_cdr::SliceOctets;
use giop_msg::{Target, TargetAt};
use std::fmt;

/// The target of a Request or a LocateRequest: `key KEY`, `profile TAG` or `reference INDEX`.
#[derive(Clone, Copy)]
pub struct TargetText<'head, 'joined, 'octets>(pub &'head TargetAt<'joined, SliceOctets<'octets>>);

impl fmt::Display for TargetText<'_, '_, '_> {
    ghost use Rattle.std.specs.Prelude.{Some};
    ghost use Rattle.giop_lines.specs.Lines.{target_text};

    ghost output = { λ t. Some (target_text t.0.now) };

    fn fmt<W: fmt::Write>(&self, f: &mut fmt::Formatter<W>) -> fmt::Result {
        match self.0 {
            Target::Key(key) => write!(f, "key {}", HexText(key.as_slice())),
            Target::Profile(profile) => write!(f, "profile {}", profile.tag()),
            Target::Reference { index, ior: _ } => write!(f, "reference {}", *index),
        }
    }
}
