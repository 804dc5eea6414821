//! The line that ends a direction of a connection, as an object of JSON. Its text is
//! specs/Direction.antt.
use crate::direction::DirectionText;
use giop_lines::WireFaultJson;
use giop_msg::WireFault;
use giop_trace::Direction;
use std::fmt;

/// How a direction ends: `{"end":"client","rest":N}`, or `{"end":"client","fault":FAULT}` where the
/// header that stands there is wrong; and `server` likewise.
#[derive(Clone, Copy)]
pub struct DirectionEndJson {
    /// Which direction.
    pub direction: Direction,
    /// What is wrong with the header, with its place, which counts from its first octet.
    pub fault: Option<WireFault>,
    /// How many octets are left.
    pub rest: usize,
}

impl fmt::Display for DirectionEndJson {
    ghost use Rattle.std.specs.Prelude.{Some};
    ghost use Rattle.giop_call_lines.specs.Direction.{direction_end_json};

    ghost output = { λ l. Some (direction_end_json l.direction l.fault l.rest) };

    fn fmt<W: fmt::Write>(&self, f: &mut fmt::Formatter<W>) -> fmt::Result {
        let direction = DirectionText(self.direction);
        match self.fault {
            Some(fault) => {
                let fault = WireFaultJson(fault);
                write!(f, "{{\"end\":\"{direction}\",\"fault\":{fault}}}")
            }
            None => write!(f, "{{\"end\":\"{direction}\",\"rest\":{}}}", self.rest),
        }
    }
}
