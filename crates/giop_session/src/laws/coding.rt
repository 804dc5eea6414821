// The session's own ends over one lane: what they send is read back, and so they agree. Each
// function's contract is a law, and no program calls these.
ghost use Rattle.std.specs.Prelude.{◌≡◌, List};
ghost use Rattle.giop_types.specs.declared.json.interface.Interface.{Interface};
ghost use Rattle.giop_calls.specs.Lane.{Act, Cut, CutsCall, CutsLocated, CutsReply, IsSound, Lane, Runs};
ghost use Rattle.giop_calls.specs.Lane.{new, pieces_of};
ghost use Rattle.giop_calls.specs.declared.client.event.ClientEvent.TheVariants as at_client;
ghost use Rattle.giop_calls.specs.declared.server.event.ServerEvent.TheVariants as at_server;
ghost use Rattle.giop_session.specs.Coding.{coding};
ghost use Rattle.giop_session.specs.OwnLane.{OwnRuns, PlansCall, PlansLocated, PlansReply, sends_cut};
ghost use Rattle.giop_session.specs.Sent.{sends_one};

use giop_calls::laws::ends_of_one_lane_agree;

/// What an end plans to send is what the other end reads: a call of `ClientEnd::call` or `locate`, a
/// Reply of `ServerEnd::answer`, a LocateReply of `answer_locate`, in any of the three versions, in
/// either byte order and in pieces of any size. The pieces have one byte order.
///
/// It is read as the value that was sent, where each number of that value and the size of a piece are
/// in the range of their types.
pub fn what_is_sent_is_read()
    ensures call { (interface : Interface) (entry call : _) (planned : _)
        → PlansCall interface entry call planned
        → (cut : Cut) × (planned ≡ sends_cut (at_client.Call call) cut)
        × CutsCall (coding interface) call (pieces_of cut) }
    ensures reply { (interface : Interface) (q r : _) (planned : _)
        → PlansReply interface q r planned
        → (cut : Cut) × (planned ≡ sends_cut (at_server.Answer r) cut)
        × CutsReply (coding interface) q r (pieces_of cut) }
    ensures located { (interface : Interface) (q here : _) (planned : _)
        → PlansLocated q here planned
        → (piece told : _) × (planned ≡ sends_one (at_server.AnswerLocate here) piece)
        × CutsLocated (coding interface) q here piece told }
{}

/// So a client's end and a server's end agree on one id, whatever they do under it, in whatever
/// order, an id used again included, as long as each pipe keeps its order: all that
/// `giop_calls::laws::ends_of_one_lane_agree` says, of the session's own pieces and reading.
pub fn own_ends_of_one_lane_agree()
    ensures read { (interface : Interface) (acts : List Act) (lane : Lane)
        → Runs (coding interface) new acts lane → IsSound (coding interface) lane }
    ensures own { (interface : Interface) (acts : List Act) (lane : Lane)
        → OwnRuns interface new acts lane → IsSound (coding interface) lane }
{
    ends_of_one_lane_agree();
}
