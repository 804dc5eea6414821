//! Reading the bodies of Requests and Replies: where they begin (9.4.2.2, 9.4.3.2), and the values
//! in them. The layout is specs/Messages/Body.antt; body_checking.rt refuses the same octets
//! without memory, so change them together.
ghost use Rattle.std.specs.Prelude.{◌≡◌};
ghost use Rattle.giop_cdr.specs.Ending.{ended};
ghost use Rattle.giop_cdr.specs.Reading.Outcome.{Follows};
ghost use Rattle.giop_types.specs.Coding.Decoding.{fields_at};
ghost use Rattle.giop_msg.specs.Messages.Body.{body_cursor, body_of, fields_in, values};
ghost use Rattle.giop_msg.specs.Messages.Outcome.{FollowsToEnd};

use crate::joined::no_memory;
use crate::version::Version;
use giop_cdr::{CdrFault, CdrIn, CdrKind, Octets};
use giop_types::{Parameter, ValueList, decode};
use std::alloc::Global;

/// Moves a reader from the end of a head to the place where its version has the body.
#[inline(always)]
pub fn align_body<S: Octets>(version: Version, input: &mut CdrIn<S>)
    ensures { input.new ≡ body_cursor version input.old }
{
    match version {
        Version::V10 | Version::V11 => {}
        Version::V12 => input.align_to_8(),
    }
}

/// Reads the values of parameters, one after the other.
#[inline(always)]
pub fn read_values<S: Octets>(
    alloc: Global,
    parameters: &[Parameter],
    input: &mut CdrIn<S>,
) -> Result<ValueList, CdrFault>
    ensures { Follows (λ values. values) result input.new
        (fields_at (fields_in parameters.now) input.old) }
{
    let mut values = ValueList::new(alloc);
    for parameter in parameters {
        let value = match decode(alloc, input, &parameter.desc) {
            Ok(value) => value,
            Err(fault) => return Err(fault),
        };
        if values.push(value).is_err() {
            return Err(no_memory());
        }
    }
    Ok(values)
}

/// Reads the values of parameters, and refuses what is left behind them.
#[tactic(auto, unfolding(crate::specs::Messages::Body::values, giop_cdr::specs::Ending::ended))]
#[inline(always)]
pub fn read_last_values<S: Octets>(
    alloc: Global,
    parameters: &[Parameter],
    input: &mut CdrIn<S>,
) -> Result<ValueList, CdrFault>
    ensures { FollowsToEnd result ((ended (values parameters.now)).read input.old) }
{
    let values = match read_values(alloc, parameters, input) {
        Ok(values) => values,
        Err(fault) => return Err(fault),
    };
    if input.remaining() > 0 {
        return Err(CdrFault {
            at: input.position(),
            kind: CdrKind::Trailing,
        });
    }
    Ok(values)
}

/// Reads the values of the body behind a head. `input` is at the end of that head.
#[tactic(auto, using(crate::proofs::WholeMessages::BodyLemmas::body_read))]
#[inline(always)]
pub fn read_body<S: Octets>(
    alloc: Global,
    version: Version,
    parameters: &[Parameter],
    input: &mut CdrIn<S>,
) -> Result<ValueList, CdrFault>
    ensures { FollowsToEnd result
        ((body_of version (ended (values parameters.now))).read input.old) }
{
    align_body(version, input);
    read_last_values(alloc, parameters, input)
}
