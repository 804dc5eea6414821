//! The exported functions by which a client's program calls, asks where an object is, and cancels.
ghost use Rattle.std.specs.Prelude.{◌≡◌, ◌≤◌, ◌^◌, length};
ghost use Rattle.giop_c.specs.Acts.{ActsAt, form_of, ToldAt};
ghost use Rattle.giop_c.specs.Client.Asking.{AsksWhere, CallsOperation};
ghost use Rattle.giop_c.specs.Client.Ends.{CancelsAtClient};
ghost use Rattle.giop_c.specs.EndRecords.{c_order_of};
ghost use Rattle.giop_c.specs.Values.{c_value_form};

use crate::act_fault::told_act;
use crate::client::asking::CallHead;
use crate::client::client_handle::ClientHandle;
use crate::end_records::{EndFault, SendForm, form_of, order_of, told};
use crate::status::CLOSED;
use crate::value_form::value_form_of;
use std::alloc::Global;

/// Calls an operation of a target under an id, by its ins in a form of values. It answers OK; FAULT
/// or NO_MEMORY, and writes the fault, and nothing has changed; or CLOSED.
#[unsafe(no_mangle)]
pub extern "C" fn giop_client_call(
    alloc: Global,
    client: &mut ClientHandle,
    id: u32,
    call: &CallHead,
    target: &[u8],
    operation: &[u8],
    value_form: u32,
    ins: &[u8],
    form: &SendForm,
    fault: &mut EndFault,
) -> u32
    requires { length ins.now ≤ 2 ^ 62 }
    ensures { ActsAt client.old.value client.new.value (CallsOperation id call.now target.now
        operation.now (c_value_form value_form) ins.now (form_of form.now)) fault.old fault.new
        result }
{
    let Some(mut caller) = client.take(alloc) else {
        return CLOSED;
    };
    let (values, form) = (value_form_of(value_form), form_of(form));
    let answer = caller.call(alloc, id, *call, target, operation, values, ins, form);
    *client = ClientHandle::of(caller);
    told_act(answer, fault)
}

/// Asks under an id where the object of a target is. It answers OK; FAULT or NO_MEMORY, and writes
/// the fault, and nothing has changed; or CLOSED.
#[unsafe(no_mangle)]
pub extern "C" fn giop_client_locate(
    alloc: Global,
    client: &mut ClientHandle,
    id: u32,
    call: &CallHead,
    target: &[u8],
    form: &SendForm,
    fault: &mut EndFault,
) -> u32
    ensures { ActsAt client.old.value client.new.value (AsksWhere id call.now target.now
        (form_of form.now)) fault.old fault.new result }
{
    let Some(mut caller) = client.take(alloc) else {
        return CLOSED;
    };
    let answer = caller.locate(alloc, id, *call, target, form_of(form));
    *client = ClientHandle::of(caller);
    told_act(answer, fault)
}

/// Cancels the call of an id, whose reply isn't whole. It answers OK; FAULT or NO_MEMORY, and writes
/// the fault, and nothing has changed; or CLOSED.
#[unsafe(no_mangle)]
pub extern "C" fn giop_client_cancel(
    alloc: Global,
    client: &mut ClientHandle,
    id: u32,
    little_endian: u32,
    fault: &mut EndFault,
) -> u32
    ensures { ToldAt client.old.value client.new.value (CancelsAtClient id
        (c_order_of little_endian)) fault.old fault.new result }
{
    let Some(mut caller) = client.take(alloc) else {
        return CLOSED;
    };
    let answer = caller.cancel(id, order_of(little_endian));
    *client = ClientHandle::of(caller);
    told(answer, fault)
}
