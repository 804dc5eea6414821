//! Why an act of an end's own program isn't done, and what C is told of it.
ghost use Rattle.std.specs.Prelude.{◌≡◌};
ghost use Rattle.giop_c.specs.Acts.{IsToldAct, act_status, c_act_fault, c_json_fault, c_reference_fault, of_end};

use crate::end_records::EndFault;
use crate::status::{FAULT, NO_MEMORY, OK};
use giop_cdr::{CdrFault, CdrKind};
use giop_end::SessionFault;
use giop_ior_text::IorTextFault;
use giop_json::FormFault;

/// Why an answer or a call isn't sent.
#[derive(Clone, Copy, Debug, PartialEq, Eq)]
pub enum ActFault {
    /// The end refuses it.
    End(SessionFault),
    /// The octets are no values of what is sent: the place counts from the first of them.
    Values(CdrFault),
    /// The JSON text isn't the values of what is sent.
    Json(FormFault),
    /// Messages can't be cut into pieces of this size.
    Form,
    /// The text is no reference.
    Reference(IorTextFault),
}

impl ActFault {
    // The fault as C sees it.
    fn written(self) -> EndFault
        ensures { result ≡ c_act_fault self }
    {
        match self {
            ActFault::End(why) => EndFault::of(why),
            ActFault::Values(fault) => EndFault {
                at: fault.at,
                number: 11,
                part: u32::from(fault.number()),
                id: 0,
            },
            ActFault::Json(why) => json_fault(why),
            ActFault::Form => EndFault {
                at: 0,
                number: 12,
                part: 0,
                id: 0,
            },
            ActFault::Reference(why) => reference_fault(why),
        }
    }

    // The status of a refused act.
    fn status(self) -> u32
        ensures { result ≡ act_status self }
    {
        match self {
            ActFault::End(SessionFault::NoMemory) => NO_MEMORY,
            ActFault::Values(fault) if fault.kind == CdrKind::NoMemory => NO_MEMORY,
            ActFault::Json(FormFault::NoMemory) => NO_MEMORY,
            ActFault::Reference(IorTextFault::NoMemory) => NO_MEMORY,
            _ => FAULT,
        }
    }
}

// The fault of a JSON text as C sees it.
fn json_fault(why: FormFault) -> EndFault
    ensures { result ≡ c_json_fault why }
{
    match why {
        FormFault::NoMemory => EndFault::of(SessionFault::NoMemory),
        _ => EndFault {
            at: 0,
            number: 15,
            part: u32::from(why.number()),
            id: 0,
        },
    }
}

// The fault of a reference's text as C sees it.
fn reference_fault(why: IorTextFault) -> EndFault
    ensures { result ≡ c_reference_fault why }
{
    match why {
        IorTextFault::NoMemory => EndFault::of(SessionFault::NoMemory),
        IorTextFault::Cdr(fault) => EndFault {
            at: fault.at,
            number: 14,
            part: u32::from(fault.number()),
            id: 0,
        },
        _ => EndFault {
            at: 0,
            number: 13,
            part: u32::from(why.number()),
            id: 0,
        },
    }
}

/// What C is told of an act: the status, and the fault where it isn't sent.
pub fn told_act(answer: Result<(), ActFault>, fault: &mut EndFault) -> u32
    ensures { IsToldAct answer fault.old fault.new result }
{
    match answer {
        Ok(()) => OK,
        Err(why) => {
            *fault = why.written();
            why.status()
        }
    }
}

/// What an end answers, as the answer to a call of the handle.
pub fn of_end(answer: Result<(), SessionFault>) -> Result<(), ActFault>
    ensures { result ≡ of_end answer }
{
    match answer {
        Ok(()) => Ok(()),
        Err(why) => Err(ActFault::End(why)),
    }
}
