//! Parts of the lines of `trace`. Their texts are specs/TraceLines.antt.
use crate::HexText;
use giop_msg::{Target, WireFault};
use giop_trace::Direction;
use std::fmt;

/// The name of a direction: `client` or `server`.
#[derive(Clone, Copy)]
pub struct DirectionText(pub Direction);

impl fmt::Display for DirectionText {
    ghost use Rattle.std.specs.Prelude.{Some};
    ghost use Rattle.giop_lines.specs.TraceLines.{direction_name};

    ghost output = { λ t. Some (direction_name t.0) };

    fn fmt<W: fmt::Write>(&self, f: &mut fmt::Formatter<W>) -> fmt::Result {
        match self.0 {
            Direction::Client => f.write_str("client"),
            Direction::Server => f.write_str("server"),
        }
    }
}

/// How a direction ends: `client rest N`, or `client fault NUMBER NAME at PLACE` where the header
/// that stands there is wrong; and `server` likewise.
#[derive(Clone, Copy)]
pub struct DirectionEndLine {
    /// Which direction.
    pub direction: Direction,
    /// What is wrong with the header, with its place, which counts from its first octet.
    pub fault: Option<WireFault>,
    /// How many octets are left.
    pub rest: usize,
}

impl fmt::Display for DirectionEndLine {
    ghost use Rattle.std.specs.Prelude.{Some};
    ghost use Rattle.giop_lines.specs.TraceLines.{direction_end};

    ghost output = { λ l. Some (direction_end l.direction l.fault l.rest) };

    fn fmt<W: fmt::Write>(&self, f: &mut fmt::Formatter<W>) -> fmt::Result {
        let direction = DirectionText(self.direction);
        match self.fault {
            Some(fault) => write!(f, "{direction} fault {} {fault}", fault.number()),
            None => write!(f, "{direction} rest {}", self.rest),
        }
    }
}

/// The id of a call; `-` where there is none.
#[derive(Clone, Copy)]
pub struct IdText(pub Option<u32>);

impl fmt::Display for IdText {
    ghost use Rattle.std.specs.Prelude.{Some};
    ghost use Rattle.giop_lines.specs.TraceLines.{call_id_text};

    ghost output = { λ t. Some (call_id_text t.0) };

    fn fmt<W: fmt::Write>(&self, f: &mut fmt::Formatter<W>) -> fmt::Result {
        match self.0 {
            Some(id) => write!(f, "{id}"),
            None => f.write_str("-"),
        }
    }
}

/// A minor code: `MINOR 0xHEX`, eight digits.
#[derive(Clone, Copy)]
pub struct MinorText(pub u32);

impl fmt::Display for MinorText {
    ghost use Rattle.std.specs.Prelude.{Some};
    ghost use Rattle.giop_lines.specs.TraceLines.{minor_text};

    ghost output = { λ t. Some (minor_text t.0) };

    fn fmt<W: fmt::Write>(&self, f: &mut fmt::Formatter<W>) -> fmt::Result {
        let octets = self.0.to_be_bytes();
        write!(f, "{} 0x{}", self.0, HexText(&octets))
    }
}

/// The target of a decoded Request or LocateRequest: `key KEY`, `profile TAG` or
/// `reference INDEX`.
#[derive(Clone, Copy)]
pub struct OwnTargetText<'a>(pub &'a Target);

impl fmt::Display for OwnTargetText<'_> {
    ghost use Rattle.std.specs.Prelude.{Some};
    ghost use Rattle.giop_lines.specs.Lines.{target_text};

    ghost output = { λ t. Some (target_text t.0.now) };

    fn fmt<W: fmt::Write>(&self, f: &mut fmt::Formatter<W>) -> fmt::Result {
        match self.0 {
            Target::Key(key) => write!(f, "key {}", HexText(key.as_slice())),
            Target::Profile(profile) => write!(f, "profile {}", profile.tag),
            Target::Reference { index, ior: _ } => write!(f, "reference {}", *index),
        }
    }
}
