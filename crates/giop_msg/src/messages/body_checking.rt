//! Bodies passed over without memory. When memory runs out while a message is read, this finds the
//! fault that the octets have. It refuses what body.rt refuses, at the same places: change them
//! together.
ghost use Rattle.giop_cdr.specs.Ending.{ended};
ghost use Rattle.giop_cdr.specs.Reading.Outcome.{Skips};
ghost use Rattle.giop_types.specs.Coding.Decoding.{fields_at};
ghost use Rattle.giop_msg.specs.Messages.Body.{body_of, fields_in, values};
ghost use Rattle.giop_msg.specs.Messages.Outcome.{Checks};

use crate::messages::body::align_body;
use crate::version::Version;
use giop_cdr::{CdrFault, CdrIn, CdrKind, Octets};
use giop_types::Parameter;

/// Passes over the values of parameters, one after the other.
pub fn skip_values<S: Octets>(
    parameters: &[Parameter],
    input: &mut CdrIn<S>,
) -> Result<(), CdrFault>
    ensures { Skips result input.new (fields_at (fields_in parameters.now) input.old) }
{
    for parameter in parameters {
        parameter.desc.skip(input)?;
    }
    Ok(())
}

/// Checks the values of parameters, and that nothing is behind them.
#[tactic(auto, unfolding(crate::specs::Messages::Body::values, giop_cdr::specs::Ending::ended))]
pub fn check_last_values<S: Octets>(
    parameters: &[Parameter],
    input: &mut CdrIn<S>,
) -> Result<(), CdrFault>
    ensures { Checks result ((ended (values parameters.now)).read input.old) }
{
    skip_values(parameters, input)?;
    if input.remaining() > 0 {
        return Err(CdrFault {
            at: input.position(),
            kind: CdrKind::Trailing,
        });
    }
    Ok(())
}

/// Checks the values of the body behind a head. `input` is at the end of that head.
#[tactic(auto, using(crate::proofs::WholeMessages::BodyLemmas::body_read))]
pub fn check_body<S: Octets>(
    version: Version,
    parameters: &[Parameter],
    input: &mut CdrIn<S>,
) -> Result<(), CdrFault>
    ensures { Checks result
        ((body_of version (ended (values parameters.now))).read input.old) }
{
    align_body(version, input);
    check_last_values(parameters, input)
}
