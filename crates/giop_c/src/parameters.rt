//! The parameters by which the values of a message are read and written (CORBA 3.3 Part 2, 9.4.3).
ghost use Rattle.std.specs.Prelude.{◌≡◌, option_copied, option_map};
ghost use Rattle.giop_msg.specs.Messages.Reply.{exception_of, listed};
ghost use Rattle.giop_msg.specs.Messages.Request.{operation_of};
ghost use Rattle.giop_c.specs.Interfaces.{parameters_of};

use giop_types::{Interface, Parameter, Parameters};

/// The members of the exception of this id; none where the interface hasn't it.
pub fn members_of<'a>(interface: &'a Interface, id: &[u8]) -> &'a [Parameter]
    ensures { result.now ≡ listed (exception_of interface.now id.now) }
{
    match interface.exception(id) {
        Some(members) => members.as_slice(),
        None => &[],
    }
}

/// The parameters that C names: 0 for the ins of the operation of a name, 1 for its outs, else the
/// members of the exception of an id. `None` where the interface hasn't it.
pub fn parameters_of<'a>(
    interface: &'a Interface,
    which: u32,
    name: &[u8],
) -> Option<&'a Parameters>
    ensures { option_copied result ≡ parameters_of interface.now which name.now }
{
    if which == 0 {
        ins_named(interface, name)
    } else if which == 1 {
        outs_named(interface, name)
    } else {
        interface.exception(name)
    }
}

// The ins of the operation of a name.
fn ins_named<'a>(interface: &'a Interface, name: &[u8]) -> Option<&'a Parameters>
    ensures { option_copied result
        ≡ option_map (λ operation. operation.ins) (operation_of interface.now name.now) }
{
    match interface.operation(name) {
        Some(operation) => Some(&operation.ins),
        None => None,
    }
}

// The outs of the operation of a name.
fn outs_named<'a>(interface: &'a Interface, name: &[u8]) -> Option<&'a Parameters>
    ensures { option_copied result
        ≡ option_map (λ operation. operation.outs) (operation_of interface.now name.now) }
{
    match interface.operation(name) {
        Some(operation) => Some(&operation.outs),
        None => None,
    }
}
