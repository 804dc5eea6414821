//! Values of an interface, in another form than the one in which they are given.
ghost use Rattle.std.specs.Prelude.{◌≡◌, ◌≤◌, ◌^◌, length, option_copied};
ghost use Rattle.giop_c.specs.Interfaces.{Converts, ConvertsEach};

use crate::act_fault::told_act;
use crate::end_records::EndFault;
use crate::status::WAITS;
use crate::value_form::ValueForm;
use crate::values::{copy_values, read_values};
use giop_types::Parameters;
use std::alloc::Global;

/// Copies the values of parameters that octets are in a form to the front of a buffer, in a form that
/// is wanted, and writes how many octets they are then. It answers OK; SMALL, where the buffer has no
/// room for them; WAITS, where there are no such parameters; FAULT, where the octets are refused, and
/// writes why; or NO_MEMORY.
pub fn convert(
    alloc: Global,
    parameters: Option<&Parameters>,
    given: ValueForm,
    octets: &[u8],
    wanted: ValueForm,
    buffer: &mut [u8],
    size: &mut usize,
    fault: &mut EndFault,
) -> u32
    requires { length octets.now ≤ 2 ^ 62 }
    ensures { Converts (option_copied parameters.entry) given octets.now wanted
        buffer.old buffer.new size.old size.new fault.old fault.new result }
{
    match parameters {
        Some(parameters) => convert_each(
            alloc, parameters, given, octets, wanted, buffer, size, fault,
        ),
        None => WAITS,
    }
}

// Copies the values of parameters in another form.
fn convert_each(
    alloc: Global,
    parameters: &Parameters,
    given: ValueForm,
    octets: &[u8],
    wanted: ValueForm,
    buffer: &mut [u8],
    size: &mut usize,
    fault: &mut EndFault,
) -> u32
    requires { length octets.now ≤ 2 ^ 62 }
    ensures { ConvertsEach parameters.now given octets.now wanted
        buffer.old buffer.new size.old size.new fault.old fault.new result }
{
    let parameters = parameters.as_slice();
    match read_values(alloc, parameters, given, octets) {
        Ok(values) => copy_values(alloc, parameters, values.as_slice(), wanted, buffer, size),
        Err(why) => told_act(Err(why), fault),
    }
}
