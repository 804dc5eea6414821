//! What the program of a client asks: that an operation be carried out (CORBA 3.3 Part 2, 9.4.2), or
//! where an object is (9.4.5). Its meaning is specs/Client/Asking.antt: change both.
ghost use Rattle.std.specs.Prelude.{◌≡◌, ◌≤◌, ◌^◌, length, IfOk, option_copied};
ghost use Rattle.std_alloc.specs.Arc.{arc_value};
ghost use Rattle.giop_msg.specs.Messages.Request.{operation_of};
ghost use Rattle.giop_msg.specs.Version.{version_of};
ghost use Rattle.giop_end.specs.Acts.Form.{IsForm};
ghost use Rattle.giop_c.specs.Client.Asking.{AsksWhere, CallsOperation, IsAsked, IsRead, SendsLocate, SendsRequest, locate_of, request_of, target_of};

use crate::act_fault::{ActFault, of_end};
use crate::client::caller::Caller;
use crate::value_form::ValueForm;
use crate::values::read_values;
use giop_cdr::OctetList;
use giop_end::{Form, SessionFault};
use giop_ior::TaggedProfile;
use giop_msg::{LocateRequest, Request, RequestHead, ServiceContexts, Target, Version};
use giop_types::{Operation, ValueList};
use std::alloc::{AllocError, Global};

/// How a call is made, as C says it: `giop_call`.
#[repr(C)]
#[derive(Clone, Copy, Debug, PartialEq, Eq)]
pub struct CallHead {
    /// The minor number of the version: 0, 1, or any other for 2.
    pub minor: u8,
    /// The response flags of a Request: 0 for no reply, 1 for one whose body is empty unless it is
    /// an exception, 3 for a reply.
    pub flags: u8,
    /// What the octets of the target are: 0 the object's key, else the data of an IIOP profile.
    pub target: u8,
}

impl Caller {
    /// Calls an operation of a target: with its ins, as octets in a form of values.
    ///
    /// The first of these that holds is returned, and nothing has changed: `Form`; `Values` or
    /// `Json`, where the interface has the operation and the octets aren't its ins; what
    /// `ClientEnd::call` refuses.
    pub fn call(
        &mut self,
        alloc: Global,
        id: u32,
        head: CallHead,
        target: &[u8],
        operation: &[u8],
        value_form: ValueForm,
        octets: &[u8],
        form: Form,
    ) -> Result<(), ActFault>
        requires { length octets.now ≤ 2 ^ 62 }
        ensures { CallsOperation id head target.now operation.now value_form octets.now form
            self.old result self.new }
    {
        if !form.is_valid() {
            return Err(ActFault::Form);
        }
        match self.asked(alloc, id, head, target, operation, value_form, octets) {
            Ok(request) => of_end(self.send_request(request, form)),
            Err(why) => Err(why),
        }
    }

    /// Asks where the object of a target is.
    ///
    /// The first of these that holds is returned, and nothing has changed: `Form`; what
    /// `ClientEnd::locate` refuses.
    pub fn locate(
        &mut self,
        alloc: Global,
        id: u32,
        head: CallHead,
        target: &[u8],
        form: Form,
    ) -> Result<(), ActFault>
        ensures { AsksWhere id head target.now form self.old result self.new }
    {
        if !form.is_valid() {
            return Err(ActFault::Form);
        }
        match locate_request(alloc, id, head, target) {
            Ok(request) => of_end(self.send_locate(request, form)),
            Err(_) => Err(ActFault::End(SessionFault::NoMemory)),
        }
    }

    // The Request of an operation, with the ins that octets are.
    fn asked(
        &self,
        alloc: Global,
        id: u32,
        head: CallHead,
        target: &[u8],
        operation: &[u8],
        value_form: ValueForm,
        octets: &[u8],
    ) -> Result<Request, ActFault>
        requires { length octets.now ≤ 2 ^ 62 }
        ensures { IsAsked (operation_of (arc_value self.now.interface) operation.now)
            value_form octets.now (request_of id head target.now operation.now) result }
    {
        let described = self.interface.operation(operation);
        let ins = match read_ins(alloc, described, value_form, octets) {
            Ok(ins) => ins,
            Err(why) => return Err(why),
        };
        match request_of(alloc, id, head, target, operation, ins) {
            Ok(request) => Ok(request),
            Err(_) => Err(ActFault::End(SessionFault::NoMemory)),
        }
    }

    // Sends a Request in a form.
    fn send_request(&mut self, request: Request, form: Form) -> Result<(), SessionFault>
        requires { IsForm form }
        ensures { SendsRequest request form self.old result self.new }
    {
        self.end.call(&self.interface, request, form)
    }

    // Sends a LocateRequest in a form.
    fn send_locate(&mut self, request: LocateRequest, form: Form) -> Result<(), SessionFault>
        requires { IsForm form }
        ensures { SendsLocate request form self.old result self.new }
    {
        self.end.locate(request, form)
    }
}

// The ins that octets are; none where there is no operation, and then they aren't read.
fn read_ins(
    alloc: Global,
    operation: Option<&Operation>,
    value_form: ValueForm,
    octets: &[u8],
) -> Result<ValueList, ActFault>
    requires { length octets.now ≤ 2 ^ 62 }
    ensures { IsRead (option_copied operation.entry) value_form octets.now result }
{
    let Some(operation) = operation else {
        return Ok(ValueList::new(alloc));
    };
    read_values(alloc, operation.ins.as_slice(), value_form, octets)
}

// The Request of an operation with these ins, without service contexts.
fn request_of(
    alloc: Global,
    id: u32,
    head: CallHead,
    target: &[u8],
    operation: &[u8],
    ins: ValueList,
) -> Result<Request, AllocError>
    ensures { IfOk result (λ q. q ≡ request_of id head target.now operation.now ins) }
{
    Ok(Request {
        head: RequestHead {
            version: version_of(head.minor),
            id,
            flags: head.flags,
            target: target_of(alloc, head, target)?,
            operation: OctetList::from_slice(alloc, operation)?,
            contexts: ServiceContexts::new(alloc),
        },
        body: ins,
    })
}

// The LocateRequest of a target.
fn locate_request(
    alloc: Global,
    id: u32,
    head: CallHead,
    target: &[u8],
) -> Result<LocateRequest, AllocError>
    ensures { IfOk result (λ q. q ≡ locate_of id head target.now) }
{
    Ok(LocateRequest {
        version: version_of(head.minor),
        id,
        target: target_of(alloc, head, target)?,
    })
}

// The target that octets are: the object's key, or the data of an IIOP profile.
fn target_of(alloc: Global, head: CallHead, octets: &[u8]) -> Result<Target, AllocError>
    ensures { IfOk result (λ target. target ≡ target_of head octets.now) }
{
    let octets = OctetList::from_slice(alloc, octets)?;
    if head.target == 0 {
        Ok(Target::Key(octets))
    } else {
        Ok(Target::Profile(TaggedProfile { tag: 0, octets }))
    }
}

// The version of a minor number, of which 2 is the greatest.
fn version_of(minor: u8) -> Version
    ensures { result ≡ version_of minor }
{
    match minor {
        0 => Version::V10,
        1 => Version::V11,
        _ => Version::V12,
    }
}
