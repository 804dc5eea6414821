//! The exported functions of an interface.
ghost use Rattle.std.specs.Prelude.{◌≡◌, ◌≤◌, ◌^◌, None, length};
ghost use Rattle.std_alloc.specs.Arc.{arc_value};
ghost use Rattle.giop_json.specs.DescFromJson.{json_in};
ghost use Rattle.giop_c.specs.Calls.{At};
ghost use Rattle.giop_c.specs.InterfaceFiles.{interface_said};
ghost use Rattle.giop_c.specs.Interfaces.{Converts, OpensInterface, parameters_of};
ghost use Rattle.giop_c.specs.Values.{c_value_form};

use crate::InterfaceHandle;
use crate::converting::convert;
use crate::end_records::EndFault;
use crate::parameters::parameters_of;
use crate::records::TextFault;
use crate::shared::Shared;
use crate::status::{CLOSED, FAULT, NO_MEMORY, OK};
use crate::value_form::value_form_of;
use giop_json::FormFault;
use std::alloc::Global;

/// Opens a handle: the interface that a JSON text says, in which types may have names. What the
/// handle held is let go. It answers OK; FAULT where the text is refused, and writes the fault; or
/// NO_MEMORY. With both the handle is as it was.
#[unsafe(no_mangle)]
pub extern "C" fn giop_interface_new(
    alloc: Global,
    interface: &mut InterfaceHandle,
    json: &[u8],
    fault: &mut TextFault,
) -> u32
    ensures { OpensInterface (interface_said (json_in json.now)) interface.old.value
        interface.new.value fault.old fault.new result }
{
    match Shared::of_json(alloc, json) {
        Ok(shared) => {
            let Ok(boxed) = Box::new(alloc, shared) else {
                return NO_MEMORY;
            };
            *interface = InterfaceHandle::of(boxed);
            OK
        }
        Err(FormFault::NoMemory) => NO_MEMORY,
        Err(refused) => {
            *fault = TextFault::of(refused);
            FAULT
        }
    }
}

/// Copies values of an operation or of an exception to the front of a buffer, in another form than
/// that in which they are given, and writes how many octets they are then. `which` is 0 for the ins
/// of the operation of a name, 1 for its outs, else for the members of the exception of an id. It
/// answers OK; SMALL, where the buffer has no room for them; WAITS, where the interface has no such
/// operation or exception; FAULT, where the octets are refused, and writes why; NO_MEMORY; or CLOSED.
#[unsafe(no_mangle)]
pub extern "C" fn giop_interface_convert(
    alloc: Global,
    interface: &mut InterfaceHandle,
    which: u32,
    name: &[u8],
    given_values: u32,
    given: &[u8],
    wanted_values: u32,
    buffer: &mut [u8],
    size: &mut usize,
    fault: &mut EndFault,
) -> u32
    requires { length given.now ≤ 2 ^ 62 }
    ensures { At interface.old.value interface.new.value result
        ((buffer.new ≡ buffer.old) × (size.new ≡ size.old) × (fault.new ≡ fault.old))
        (λ old new. (new ≡ old)
        × Converts (parameters_of (arc_value old.interface) which name.now)
        (c_value_form given_values) given.now (c_value_form wanted_values)
        buffer.old buffer.new size.old size.new fault.old fault.new result) }
{
    let Some(shared) = interface.take(alloc) else {
        return CLOSED;
    };
    let (from, to) = (value_form_of(given_values), value_form_of(wanted_values));
    let parameters = parameters_of(&shared.interface, which, name);
    let status = convert(alloc, parameters, from, given, to, buffer, size, fault);
    *interface = InterfaceHandle::of(shared);
    status
}

/// Lets go what the handle holds. Ends that were opened by the interface keep it. A handle that
/// holds nothing stays so.
#[unsafe(no_mangle)]
pub extern "C" fn giop_interface_free(alloc: Global, interface: &mut InterfaceHandle)
    ensures { interface.new.value ≡ None }
{
    let _held = interface.take(alloc);
}
