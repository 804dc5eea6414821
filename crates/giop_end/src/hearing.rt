//! The trait of a side that hears messages: `client` and `server` implement it, and `End::feed` uses
//! it for either side.
ghost use Rattle.std.specs.Prelude.{◌≤◌, ◌^◌, length};
ghost use Rattle.giop_end.specs.Hearing.Heard.{hears_in};

pub mod client;
pub mod decoding;
mod events;
pub mod heard;
mod pieces;
pub mod reply_decoding;
pub mod server;
pub mod with_last;

use crate::session_fault::SessionFault;
use giop_msg::Msg;
use giop_mux::{CallRule, Side};
use giop_table::CallTable;
use giop_types::Interface;
use std::alloc::Global;

/// A side of a connection that hears the messages of the other side. Each message ends the session,
/// or is an event of the call of one id.
pub trait Hearing: Side {
    ghost use Rattle.std.specs.Prelude.{ℕ, Option};
    ghost use Rattle.giop_types.specs.declared.interfaces.interface.Interface.{Interface};
    ghost use Rattle.giop_msg.specs.declared.msg.Msg.{Msg};
    ghost use Rattle.giop_table.specs.CallTable.{Act, Call};
    ghost use Rattle.giop_end.specs.declared.session_fault.SessionFault.{SessionFault};

    ghost breaks: { Msg → Option SessionFault };

    ghost act_by: { Interface → Msg → Call Self.Entry → Act Self.Event };

    ghost in_call: { ℕ → Self.Fault → SessionFault };

    /// Hears a message, whose values are those of the interface. A fault changes nothing.
    fn hear(
        alloc: Global,
        interface: &Interface,
        calls: &mut CallTable<Self>,
        message: &Msg,
    ) -> Result<(), SessionFault>
        requires { length message.now.payload ≤ 2 ^ 62 }
        ensures { hears_in Self.Hearing interface.now message.now calls.old result calls.new };
}
