//! Both ends of a GIOP connection (CORBA 3.3 Part 2, 9.4), without IO.
//!
//! An `End` hears what it is fed with: a `Framer` cuts it into messages, and each does to its call
//! in the `CallTable` what the rule of that side says. The two sides differ in what they hear
//! (`Hearing`), and in what their own programs do: a `ClientEnd` calls, locates and cancels, a
//! `ServerEnd` answers. The message that an accepted event sends is put out behind what is
//! `Outgoing`.
#![tactic(auto)]

mod acts;
mod end;
mod hearing;
mod limits;
mod pump_fault;
mod pumping;
mod session_fault;

pub use acts::form::Form;
pub use acts::in_pieces::SendsPieces;
pub use acts::outgoing::Outgoing;
pub use end::{ClientEnd, Detached, End, ServerEnd, write_out};
pub use hearing::Hearing;
pub use hearing::with_last::WithLast;
pub use limits::Limits;
pub use pump_fault::PumpFault;
pub use pumping::{pump, turn};
pub use session_fault::SessionFault;
