//! Writing the bodies of Requests and Replies (9.4.2.2, 9.4.3.2). The layout is
//! specs/Messages/Body.antt, and body.rt reads it: change them together.
#![tactic(auto, unfolding(crate::specs::Messages::Body::body_of, crate::specs::Messages::Body::values, giop_cdr::specs::Ending::ended, giop_cdr::specs::Ending::from_multiple_of_8), using(giop_cdr::proofs::Writing::WriterLemmas::grows_then, giop_cdr::proofs::Writing::WriterLemmas::grows_not))]

ghost use Rattle.std.specs.Prelude.{◌≡◌, true, map};
ghost use Rattle.giop_cdr.specs.Ending.{ended, unless_empty};
ghost use Rattle.giop_cdr.specs.Writing.Output.{padding_out};
ghost use Rattle.giop_cdr.specs.Writing.Outcome.{Appends, Writes};
ghost use Rattle.giop_types.specs.Coding.Written.{fields_out, value_out};
ghost use Rattle.giop_types.specs.Descriptions.CheckedShape.{checked_shape};
ghost use Rattle.giop_types.specs.Values.Fits.{fields_fit, fits};
ghost use Rattle.giop_types.specs.Values.Views.{value_view};
ghost use Rattle.giop_msg.specs.Messages.Body.{body_of, fields_in, values};

use crate::version::Version;
use giop_cdr::CdrOut;
use giop_types::{CheckedDesc, Parameter, Value, encode, fits};
use std::alloc::AllocError;

/// Whether there are as many values as parameters, each of its parameter's description.
pub fn are_fitting(parameters: &[Parameter], values: &[Value]) -> bool
    ensures { result ≡ fields_fit (fields_in parameters.now) (map value_view values.now) }
{
    if parameters.len() != values.len() {
        return false;
    }
    for i in 0..parameters.len() {
        if !fits(&parameters[i].desc, &values[i]) {
            return false;
        }
    }
    true
}

// Appends a value of its description. It fits, so it is refused only when out of memory.
fn append_value(desc: &CheckedDesc, value: &Value, out: &mut CdrOut) -> Result<(), AllocError>
    requires { fits (checked_shape desc.now) (value_view value.now) ≡ true }
    ensures { Writes out.old result out.new
        (value_out (checked_shape desc.now) (value_view value.now) out.old) }
{
    match encode(out, desc, value) {
        Ok(()) => Ok(()),
        Err(_) => Err(AllocError),
    }
}

/// Appends the values, each of its parameter's description, one after the other. Out of memory, a
/// part of them is left.
pub fn append_values(
    parameters: &[Parameter],
    values: &[Value],
    out: &mut CdrOut,
) -> Result<(), AllocError>
    requires { fields_fit (fields_in parameters.now) (map value_view values.now) ≡ true }
    ensures { Appends out.old result out.new
        (fields_out (fields_in parameters.now) (map value_view values.now) out.old) }
{
    for i in 0..parameters.len() {
        append_value(&parameters[i].desc, &values[i], out)?;
    }
    Ok(())
}

// Appends the values from the next multiple of 8 on, and no padding where they take no octets.
fn append_aligned(
    parameters: &[Parameter],
    values: &[Value],
    out: &mut CdrOut,
) -> Result<(), AllocError>
    requires { fields_fit (fields_in parameters.now) (map value_view values.now) ≡ true }
    ensures { Appends out.old result out.new (unless_empty out.old (padding_out 8 out.old)
        (fields_out (fields_in parameters.now) (map value_view values.now)
        (padding_out 8 out.old))) }
{
    let point = out.checkpoint();
    out.align(8)?;
    let padded = out.as_slice().len();
    append_values(parameters, values, out)?;
    if out.as_slice().len() == padded {
        out.back_to(point);
    }
    Ok(())
}

/// Appends the body behind a head, where its version has it. Out of memory, a part of it is left.
pub fn append_body(
    version: Version,
    parameters: &[Parameter],
    body: &[Value],
    out: &mut CdrOut,
) -> Result<(), AllocError>
    requires { fields_fit (fields_in parameters.now) (map value_view body.now) ≡ true }
    ensures { Appends out.old result out.new
        ((body_of version (ended (values parameters.now))).written (map value_view body.now)
        out.old) }
{
    match version {
        Version::V10 | Version::V11 => append_values(parameters, body, out),
        Version::V12 => append_aligned(parameters, body, out),
    }
}
