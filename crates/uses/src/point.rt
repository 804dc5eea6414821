//! A struct read, written and shown to be read exactly. giop_cdr's CALLING.md shows it: change
//! both.
ghost use Rattle.std.specs.Prelude.{◌≡◌};
ghost use Rattle.giop_cdr.specs.Reading.Outcome.{Reads};
ghost use Rattle.giop_cdr.specs.Writing.Outcome.{Writes};
ghost use Rattle.giop_cdr.specs.Reading.Exactness.{IsExact, StandsAlone, Took};
ghost use Rattle.uses.specs.Point.{point};

use giop_cdr::{CdrFault, CdrIn, CdrOut, Octets};
use std::alloc::AllocError;

/// A struct of IDL: `struct Point { long x; long y; };`
#[derive(Clone, Copy, Debug, PartialEq, Eq)]
pub struct Point {
    /// The first member.
    pub x: i32,
    /// The second member.
    pub y: i32,
}

/// The point that the reader stands at. Refused as the first of its longs that is Short; the reader
/// then stays where it was.
#[tactic(auto, unfolding(crate::specs::Point::point, giop_cdr::specs::Layout::field, giop_cdr::specs::Layout::signed, giop_cdr::specs::Layout::gives))]
pub fn read_point<S: Octets>(input: &mut CdrIn<S>) -> Result<Point, CdrFault>
    ensures { Reads input.old result input.new (point.read input.old) }
{
    let mut ahead = input.fork();
    let x = ahead.read_long()?;
    let y = ahead.read_long()?;
    *input = ahead;
    Ok(Point { x, y })
}

/// Writes a point behind what was written. Where it is out of memory, the output is as it was.
#[tactic(auto, unfolding(crate::specs::Point::point, giop_cdr::specs::Layout::field, giop_cdr::specs::Layout::signed, giop_cdr::specs::Layout::gives), using(giop_cdr::proofs::Writing::WriterLemmas::grows_then, giop_cdr::proofs::Writing::WriterLemmas::grows_not))]
pub fn write_point(value: &Point, out: &mut CdrOut) -> Result<(), AllocError>
    ensures { Writes out.old result out.new (point.written value.now out.old) }
{
    let start = out.checkpoint();
    let mut written = out.write_long(value.x);
    if written.is_ok() {
        written = out.write_long(value.y);
    }
    if written.is_err() {
        out.back_to(start);
    }
    written
}

/// What `read_point` returns is what octets spell, and no spelling of a point begins another.
pub fn points_are_spelled()
    ensures exact { IsExact (Took point.spells) point.refused point.read }
    ensures alone { StandsAlone point.spells }
{}
