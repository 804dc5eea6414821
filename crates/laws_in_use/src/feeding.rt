//! Octets that are fed in two reads, and in one: a server's end is left the same.
ghost use Rattle.std.specs.Prelude.{◌≡◌, ◌≢◌, ◌++◌, [], Err, None, Ok, Some, take};
ghost use Rattle.giop_types.specs.declared.interfaces.interface.Interface.{Interface};
ghost use Rattle.giop_msg.specs.Msg.{message_octets};
ghost use Rattle.giop_session.specs.Hearing.Heard.{hears};
ghost use Rattle.giop_session.specs.Hearing.ServerHears.{server_side};
ghost use Rattle.giop_session.specs.Pumping.{Feeds};
ghost use Rattle.giop_session.specs.declared.SessionFault.TheVariants.{NoMemory, Wire};
ghost use Rattle.laws_in_use.specs.Feeding.{bad_magic, no_header, state_of};
ghost use Rattle.laws_in_use.specs.Limited.{new_server};
ghost use Rattle.laws_in_use.specs.Locating.{door_begins, limits};

use giop_calls::ServerRule;
use giop_session::laws::any_reads_leave_the_same;

/// The first five octets of a message leave a new server's end as it was, but that they are unread:
/// whatever octets come then, it is left the same where all come in one read. Twelve octets that
/// are no header fail it, and so do they with others behind them, which are then unread too.
pub fn octets_in_two_reads(rule: &ServerRule)
    ensures waits { (interface : Interface)
        → Feeds (hears (server_side interface)) (state_of [] (new_server limits) None)
        (take 5 (message_octets door_begins)) (Ok tt)
        (state_of (take 5 (message_octets door_begins)) (new_server limits) None) }
    ensures same { (interface : Interface) (more t u second both : _)
        → second ≢ Err NoMemory → both ≢ Err NoMemory
        → Feeds (hears (server_side interface))
        (state_of (take 5 (message_octets door_begins)) (new_server limits) None) more second t
        → Feeds (hears (server_side interface)) (state_of [] (new_server limits) None)
        (take 5 (message_octets door_begins) ++ more) both u
        → (both ≡ second) × (u ≡ t) }
    ensures fails { (interface : Interface)
        → Feeds (hears (server_side interface)) (state_of [] (new_server limits) None)
        no_header (Err (Wire bad_magic))
        (state_of no_header (new_server limits) (Some (Wire bad_magic))) }
    ensures refused { (interface : Interface) (more t u second both : _)
        → both ≢ Err NoMemory
        → Feeds (hears (server_side interface))
        (state_of no_header (new_server limits) (Some (Wire bad_magic))) more second t
        → Feeds (hears (server_side interface)) (state_of [] (new_server limits) None)
        (no_header ++ more) both u
        → (both ≡ Err (Wire bad_magic))
        × (u ≡ state_of (no_header ++ more) (new_server limits) (Some (Wire bad_magic))) }
{
    any_reads_leave_the_same(rule);
}
