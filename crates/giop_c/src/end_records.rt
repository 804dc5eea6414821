//! The structs of an end that cross to C by value. `include/giop.h` declares them too: change both.
ghost use Rattle.std.specs.Prelude.{◌≡◌};
ghost use Rattle.giop_c.specs.EndRecords.{c_end_fault, c_order_of, end_id, end_part, end_place, end_status};
ghost use Rattle.giop_c.specs.Acts.{IsTold, form_of};

use crate::status::{FAULT, NO_MEMORY, OK};
use giop_cdr::Order;
use giop_end::{Form, SessionFault};

/// What an end may hold at most, as C says it: `giop_limits`.
#[repr(C)]
#[derive(Clone, Copy, Debug, PartialEq, Eq)]
pub struct EndLimits {
    /// The octets of all messages together of which a piece is still to come: at most 2^62.
    pub gathered: u64,
    /// How many entries the table has, those of calls that are over and not taken out included.
    pub calls: u32,
    /// The size of a message in octets, without its header.
    pub message: u32,
}

/// How an end sends a message, as C says it: `giop_form`.
#[repr(C)]
#[derive(Clone, Copy, Debug, PartialEq, Eq)]
pub struct SendForm {
    /// How many octets a piece has at most, its header counted: a multiple of 8, and 24 at least.
    pub piece: u32,
    /// 0 for big endian, else little endian.
    pub little_endian: u32,
}

/// Why an end fails, or refuses a call of its program, as C sees it: `giop_end_fault`.
#[repr(C)]
#[derive(Clone, Copy, Debug, PartialEq, Eq)]
pub struct EndFault {
    /// The offset of what is wrong with octets; else 0.
    pub at: usize,
    /// The number of the fault, 1 to 10 for an end's own.
    pub number: u32,
    /// The number of what is wrong in the part that the fault is of; else 0.
    pub part: u32,
    /// The id of the call that it is of; else 0.
    pub id: u32,
}

impl EndFault {
    /// A fault of an end.
    pub fn of(why: SessionFault) -> EndFault
        ensures { result ≡ c_end_fault why }
    {
        EndFault {
            at: place_of(why),
            number: u32::from(why.number()),
            part: part_of(why),
            id: id_of(why),
        }
    }
}

// The place of a fault, where it has one.
fn place_of(why: SessionFault) -> usize
    ensures { result ≡ end_place why }
{
    match why {
        SessionFault::Wire(fault) => fault.at,
        SessionFault::NoId(fault) => fault.at,
        _ => 0,
    }
}

// The number of what is wrong in the part that a fault is of.
fn part_of(why: SessionFault) -> u32
    ensures { result ≡ end_part why }
{
    match why {
        SessionFault::Wire(fault) => u32::from(fault.number()),
        SessionFault::Call { fault, .. } => u32::from(fault.number()),
        SessionFault::NoId(fault) => u32::from(fault.number()),
        _ => 0,
    }
}

// The id of the call that a fault is of, where it is of one.
fn id_of(why: SessionFault) -> u32
    ensures { result ≡ end_id why }
{
    match why {
        SessionFault::Call { id, .. } => id,
        _ => 0,
    }
}

/// What C is told of an answer of an end: the status, and the fault where it is refused.
pub fn told(answer: Result<(), SessionFault>, fault: &mut EndFault) -> u32
    ensures { IsTold answer fault.old fault.new result }
{
    match answer {
        Ok(()) => OK,
        Err(why) => {
            *fault = EndFault::of(why);
            status_of(why)
        }
    }
}

// The status of what an end refuses.
fn status_of(why: SessionFault) -> u32
    ensures { result ≡ end_status why }
{
    match why {
        SessionFault::NoMemory => NO_MEMORY,
        _ => FAULT,
    }
}

/// The byte order that C says: 0 for big endian, else little endian.
pub fn order_of(little_endian: u32) -> Order
    ensures { result ≡ c_order_of little_endian }
{
    if little_endian == 0 {
        Order::Big
    } else {
        Order::Little
    }
}

/// The form that C says.
pub fn form_of(form: &SendForm) -> Form
    ensures { result ≡ form_of form.now }
{
    Form {
        order: order_of(form.little_endian),
        piece: form.piece,
    }
}
