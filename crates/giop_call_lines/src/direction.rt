//! The line that ends a direction of a connection. Its text is specs/Direction.antt.
use giop_msg::WireFault;
use giop_trace::Direction;
use std::fmt;

/// The name of a direction: `client` or `server`.
#[derive(Clone, Copy)]
pub struct DirectionText(pub Direction);

impl fmt::Display for DirectionText {
    ghost use Rattle.std.specs.Prelude.{Some};
    ghost use Rattle.giop_call_lines.specs.Direction.{direction_name};

    ghost output = { λ t. Some (direction_name t.0) };

    fn fmt<W: fmt::Write>(&self, f: &mut fmt::Formatter<W>) -> fmt::Result {
        match self.0 {
            Direction::Client => f.write_str("client"),
            Direction::Server => f.write_str("server"),
        }
    }
}

/// How a direction ends: `client rest N`, or `client fault NUMBER NAME at PLACE` where the header
/// that stands there is wrong; and `server` likewise.
#[derive(Clone, Copy)]
pub struct DirectionEndLine {
    /// Which direction.
    pub direction: Direction,
    /// What is wrong with the header, with its place, which counts from its first octet.
    pub fault: Option<WireFault>,
    /// How many octets are left.
    pub rest: usize,
}

impl fmt::Display for DirectionEndLine {
    ghost use Rattle.std.specs.Prelude.{Some};
    ghost use Rattle.giop_call_lines.specs.Direction.{direction_end};

    ghost output = { λ l. Some (direction_end l.direction l.fault l.rest) };

    fn fmt<W: fmt::Write>(&self, f: &mut fmt::Formatter<W>) -> fmt::Result {
        let direction = DirectionText(self.direction);
        match self.fault {
            Some(fault) => write!(f, "{direction} fault {} {fault}", fault.number()),
            None => write!(f, "{direction} rest {}", self.rest),
        }
    }
}
