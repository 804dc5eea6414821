//! Both ends of a GIOP connection (CORBA 3.3 Part 2, 9.4), and what they are proved to do.
//!
//! All that a program needs of an end is named here: the ends (giop_end), the calls of an end
//! (giop_table), and `laws`, which say what all of it comes to.
#![tactic(auto)]

pub mod laws;

pub use giop_end::{
    ClientEnd, Detached, End, Form, Hearing, Limits, Outgoing, PumpFault, SendsPieces, ServerEnd,
    SessionFault, WithLast, pump, turn, write_out,
};
pub use giop_mux::Side;
pub use giop_table::{CallTable, Messages, Plan, Planned, Sending, Slot, TableFault, Unsent};
