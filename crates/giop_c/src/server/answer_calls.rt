//! The exported functions by which a server's program answers.
ghost use Rattle.std.specs.Prelude.{◌≡◌, ◌==◌, ◌≤◌, ◌^◌, length, not};
ghost use Rattle.giop_msg.specs.Messages.Reply.{completion_of};
ghost use Rattle.giop_c.specs.Acts.{ActsAt, form_of, ToldAt};
ghost use Rattle.giop_c.specs.EndRecords.{c_order_of};
ghost use Rattle.giop_c.specs.Server.Answers.{AnswersForward, AnswersOuts, AnswersSystem, AnswersUser};
ghost use Rattle.giop_c.specs.Server.Ends.{LocatesAtServer};
ghost use Rattle.giop_c.specs.Values.{c_value_form};

use crate::act_fault::told_act;
use crate::end_records::{EndFault, SendForm, form_of, order_of, told};
use crate::server::server_handle::ServerHandle;
use crate::status::CLOSED;
use crate::value_form::value_form_of;
use giop_msg::Completion;
use std::alloc::Global;

/// Answers a Request without an exception: by its outs in a form of values. It answers OK; FAULT or
/// NO_MEMORY, and writes the fault, and nothing has changed; or CLOSED.
#[unsafe(no_mangle)]
pub extern "C" fn giop_server_answer(
    alloc: Global,
    server: &mut ServerHandle,
    id: u32,
    value_form: u32,
    outs: &[u8],
    form: &SendForm,
    fault: &mut EndFault,
) -> u32
    requires { length outs.now ≤ 2 ^ 62 }
    ensures { ActsAt server.old.value server.new.value (AnswersOuts id (c_value_form value_form)
        outs.now (form_of form.now)) fault.old fault.new result }
{
    let Some(mut served) = server.take(alloc) else {
        return CLOSED;
    };
    let answer = served.answer_outs(alloc, id, value_form_of(value_form), outs, form_of(form));
    *server = ServerHandle::of(served);
    told_act(answer, fault)
}

/// Answers a Request by an exception of the interface: its repository id without a null, and its
/// members in a form of values. It answers as `giop_server_answer`.
#[unsafe(no_mangle)]
pub extern "C" fn giop_server_answer_user(
    alloc: Global,
    server: &mut ServerHandle,
    id: u32,
    exception: &[u8],
    value_form: u32,
    members: &[u8],
    form: &SendForm,
    fault: &mut EndFault,
) -> u32
    requires { length members.now ≤ 2 ^ 62 }
    ensures { ActsAt server.old.value server.new.value (AnswersUser id exception.now
        (c_value_form value_form) members.now (form_of form.now)) fault.old fault.new result }
{
    let Some(mut served) = server.take(alloc) else {
        return CLOSED;
    };
    let values = value_form_of(value_form);
    let answer = served.answer_user(alloc, id, exception, values, members, form_of(form));
    *server = ServerHandle::of(served);
    told_act(answer, fault)
}

/// Answers a Request by an exception of the broker: its repository id without a null, a minor code,
/// and whether the operation was completed: 0 yes, 1 no, else it isn't known. It answers as
/// `giop_server_answer`.
#[unsafe(no_mangle)]
pub extern "C" fn giop_server_answer_system(
    alloc: Global,
    server: &mut ServerHandle,
    id: u32,
    exception: &[u8],
    minor: u32,
    completion: u32,
    form: &SendForm,
    fault: &mut EndFault,
) -> u32
    ensures { ActsAt server.old.value server.new.value (AnswersSystem id exception.now minor
        (completion_of completion) (form_of form.now)) fault.old fault.new result }
{
    let Some(mut served) = server.take(alloc) else {
        return CLOSED;
    };
    let completion = completion_of(completion);
    let answer = served.answer_system(alloc, id, exception, minor, completion, form_of(form));
    *server = ServerHandle::of(served);
    told_act(answer, fault)
}

/// Answers a Request by where its object is: a reference, as its text, for this request alone, or,
/// for any `permanent` but 0, from now on. It answers as `giop_server_answer`.
#[unsafe(no_mangle)]
pub extern "C" fn giop_server_answer_forward(
    alloc: Global,
    server: &mut ServerHandle,
    id: u32,
    reference: &[u8],
    permanent: u32,
    form: &SendForm,
    fault: &mut EndFault,
) -> u32
    ensures { ActsAt server.old.value server.new.value (AnswersForward id reference.now (not
        (permanent == 0)) (form_of form.now)) fault.old fault.new result }
{
    let Some(mut served) = server.take(alloc) else {
        return CLOSED;
    };
    let answer = served.answer_forward(alloc, id, reference, permanent != 0, form_of(form));
    *server = ServerHandle::of(served);
    told_act(answer, fault)
}

/// Answers a LocateRequest: that the object is here, or, for `here` 0, that it isn't known. It
/// answers OK; FAULT or NO_MEMORY, and writes the fault, and nothing has changed; or CLOSED.
#[unsafe(no_mangle)]
pub extern "C" fn giop_server_answer_locate(
    alloc: Global,
    server: &mut ServerHandle,
    id: u32,
    here: u32,
    little_endian: u32,
    fault: &mut EndFault,
) -> u32
    ensures { ToldAt server.old.value server.new.value (LocatesAtServer id (not (here == 0))
        (c_order_of little_endian)) fault.old fault.new result }
{
    let Some(mut served) = server.take(alloc) else {
        return CLOSED;
    };
    let answer = served.answer_locate(id, here != 0, order_of(little_endian));
    *server = ServerHandle::of(served);
    told(answer, fault)
}

// The completion of a number.
fn completion_of(number: u32) -> Completion
    ensures { result ≡ completion_of number }
{
    match number {
        0 => Completion::Yes,
        1 => Completion::No,
        _ => Completion::Maybe,
    }
}
