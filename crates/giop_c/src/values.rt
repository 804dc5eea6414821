//! The values of parameters in the form in which they cross to C: read out of the caller's octets,
//! and copied into the caller's buffers.
ghost use Rattle.std.specs.Prelude.{◌≡◌, ◌≤◌, ◌^◌, true, false, length, map, IfOk, IsErrOf};
ghost use Rattle.giop_cdr.specs.declared.encode_fault.EncodeFault.{EncodeFault};
ghost use Rattle.giop_types.specs.Values.Fits.{fields_fit};
ghost use Rattle.giop_types.specs.Values.Views.{value_view};
ghost use Rattle.giop_msg.specs.Messages.Body.{fields_in};
ghost use Rattle.giop_c.specs.Acts.{IsReadAs, values_in};
ghost use Rattle.giop_c.specs.Values.{CopiesValues, octets_in};

use crate::act_fault::ActFault;
use crate::copying::copy_octets;
use crate::json_values::{values_from_text, values_to_text};
use crate::status::{FAULT, NO_MEMORY};
use crate::value_form::ValueForm;
use giop_cdr::EncodeFault;
use giop_json::FormFault;
use giop_msg::{values_from_octets, values_to_octets};
use giop_types::{Parameter, Value, ValueList};
use std::alloc::Global;

/// The values of parameters that octets are in a form, with nothing behind them.
///
/// Refused as `Values`, by the first of them that is refused in reading order, or as Trailing at
/// the first octet that is left; of JSON as `Json`. Out of memory is either's NoMemory, and may
/// stand in place of any.
pub fn read_values(
    alloc: Global,
    parameters: &[Parameter],
    form: ValueForm,
    octets: &[u8],
) -> Result<ValueList, ActFault>
    requires { length octets.now ≤ 2 ^ 62 }
    ensures read { IsReadAs (values_in parameters.now form octets.now) result }
    ensures fit { IfOk result (λ trees. fields_fit (fields_in parameters.now) trees ≡ true) }
{
    match form {
        ValueForm::Cdr(order) => match values_from_octets(alloc, parameters, octets, order) {
            Ok(values) => Ok(values),
            Err(fault) => Err(ActFault::Values(fault)),
        },
        ValueForm::Json => match values_from_text(alloc, parameters, octets) {
            Ok(values) => Ok(values),
            Err(fault) => Err(ActFault::Json(fault)),
        },
    }
}

// The octets of values of parameters in a form. Refused as Unfit, only where they are not as many
// as the parameters or one isn't of its description, or as NoMemory where it is out of memory,
// which may stand in place of Unfit.
fn write_values(
    alloc: Global,
    parameters: &[Parameter],
    values: &[Value],
    form: ValueForm,
) -> Result<Vec<u8>, EncodeFault>
    ensures value { IfOk result (λ octets. octets.items
        ≡ octets_in form parameters.now (map value_view values.now)) }
    ensures fit { IfOk result (λ octets.
        fields_fit (fields_in parameters.now) (map value_view values.now) ≡ true) }
    ensures err { IsErrOf result EncodeFault.Unfit
        → fields_fit (fields_in parameters.now) (map value_view values.now) ≡ false }
{
    match form {
        ValueForm::Cdr(order) => values_to_octets(alloc, parameters, values, order),
        ValueForm::Json => match values_to_text(alloc, parameters, values) {
            Ok(text) => Ok(text),
            Err(FormFault::Unfit) => Err(EncodeFault::Unfit),
            Err(_) => Err(EncodeFault::NoMemory),
        },
    }
}

/// Copies values of parameters in a form to the front of a buffer, and writes how many octets
/// they are. It answers OK; SMALL, where the buffer has no room for them; NO_MEMORY; or FAULT,
/// where they are no values of the parameters.
pub fn copy_values(
    alloc: Global,
    parameters: &[Parameter],
    values: &[Value],
    form: ValueForm,
    buffer: &mut [u8],
    size: &mut usize,
) -> u32
    ensures { CopiesValues parameters.now (map value_view values.now) form buffer.old buffer.new
        size.old size.new result }
{
    match write_values(alloc, parameters, values, form) {
        Ok(octets) => copy_octets(Some(octets.as_slice()), buffer, size),
        Err(EncodeFault::NoMemory) => NO_MEMORY,
        Err(EncodeFault::Unfit) => FAULT,
    }
}
