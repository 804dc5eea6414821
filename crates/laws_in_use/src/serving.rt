//! Pieces of answers that an end of `serve` puts out, in use: one that is left, at an end that
//! stands and at one that failed; and what is told of a connection that ends before any turn.
ghost use Rattle.std.specs.Prelude.{◌≡◌, [], None, Some, Ok, Err, codes};
ghost use Rattle.giop_calls.specs.ServerTable.{is_closed, is_gathering, server_step};
ghost use Rattle.giop_calls.specs.declared.server.event.ServerEvent.TheVariants as event;
ghost use Rattle.giop_end.specs.Hearing.Heard.{in_call};
ghost use Rattle.giop_end.specs.declared.session_fault.SessionFault.TheVariants.{Closed};
ghost use Rattle.giop_commands.specs.Session.Acts.{SendsPiece};
ghost use Rattle.giop_serving.specs.Serve.Serving.{SendsLeft, desk};
ghost use Rattle.giop_serving.specs.Serve.Streaming.{Streams};
ghost use Rattle.laws_in_use.specs.Serving.{answering, has_answered, ping_passed};

use giop_commands::laws::failed_ends_send_nothing;
use giop_serving::laws::{no_turns_tell_no_calls, pieces_pass_no_answers};

/// The second piece of an answer is put out. At an end that its peer has closed it isn't: that
/// fault is returned, and nothing changes.
pub fn a_piece_is_put_out_or_not()
    ensures sends { SendsPiece (λ rule. server_step) (λ rule. is_closed) is_gathering in_call
        event.Send None 7 answering (Ok tt) has_answered }
    ensures fails { SendsPiece (λ rule. server_step) (λ rule. is_closed) is_gathering in_call
        event.Send (Some Closed) 7 answering (Err Closed) answering }
    ensures only { (result t : _) → SendsPiece (λ rule. server_step) (λ rule. is_closed)
        is_gathering in_call event.Send (Some Closed) 7 answering result t
        → (result ≡ Err Closed) × (t ≡ answering) }
{
    failed_ends_send_nothing();
}

/// The same of all pieces that are left: the answer of a list that was passed is still the only
/// one.
pub fn all_pieces_are_put_out_or_none()
    ensures sends { (served limits : _) → SendsLeft served limits None (desk answering ping_passed)
        None (desk has_answered ping_passed) }
    ensures fails { (served limits : _) → SendsLeft served limits (Some Closed)
        (desk answering ping_passed) (Some Closed) (desk answering ping_passed) }
    ensures passed { (served limits fault refused t : _)
        → SendsLeft served limits fault (desk answering ping_passed) refused t
        → t.passed ≡ ping_passed }
{
    pieces_pass_no_answers();
}

/// Of a connection that ends before any turn its number is told, and no call.
pub fn a_number_and_no_call()
    ensures { (served limits lines s refused t : _)
        → (streams : Streams served limits lines s refused t) → streams.turns ≡ []
        → s.text ≡ Some (codes "connection 1") → t.text ≡ Some (codes "connection 1") }
{
    no_turns_tell_no_calls();
}
