//! The session's own ends over one lane: what they send is read back, and so they agree. Each
//! function's contract is a law, and no program calls these.
ghost use Rattle.std.specs.Prelude.{◌≡◌, ◌++◌, ◌∷◌, [], false, true, map, Some};
ghost use Rattle.giop_types.specs.declared.interfaces.interface.Interface.{Interface};
ghost use Rattle.giop_msg.specs.declared.msg.Msg.{Msg};
ghost use Rattle.giop_calls.specs.Lane.{Cut, CutsCall, CutsLocated, CutsReply, IsSound, Runs};
ghost use Rattle.giop_calls.specs.Lane.{kind_of, new, Opens, pieces_of, version_of};
ghost use Rattle.giop_calls.specs.declared.client.entry.ClientEntry.TheVariants as client;
ghost use Rattle.giop_calls.specs.declared.client.event.ClientEvent.TheVariants as at_client;
ghost use Rattle.giop_calls.specs.declared.kind.CallKind.TheVariants as kind;
ghost use Rattle.giop_calls.specs.declared.server.entry.ServerEntry.TheVariants as server;
ghost use Rattle.giop_calls.specs.declared.server.event.ServerEvent.TheVariants as at_server;
ghost use Rattle.giop_table.specs.CallTable.{brought, First, Hears, More, Nothing};
ghost use Rattle.giop_session.specs.Items.ClientCarries.{replies};
ghost use Rattle.giop_end.specs.Hearing.ClientHears.{awaited, begins as begins_reply, client_act, client_pieces};
ghost use Rattle.giop_session.specs.Worlds.Coding.{coding};
ghost use Rattle.giop_end.specs.Hearing.Heard.{behind_id};
ghost use Rattle.giop_end.specs.Hearing.Pieces.{goes_on};
ghost use Rattle.giop_session.specs.Worlds.LaneAtEnds.{carried, gathered_in, gathers, seen};
ghost use Rattle.giop_session.specs.Worlds.OwnLane.{BringsClient, located_run, OwnRuns, PlansCall, PlansLocated, SendsCall, SendsLocated, SendsReply, IsAnswerable, IsReplied, IsLocated, PlansReply, replied_run, sends_cut};
ghost use Rattle.giop_end.specs.Acts.Sent.{sends_one};
ghost use Rattle.giop_session.specs.Items.ServerCarries.{asks};
ghost use Rattle.giop_end.specs.Hearing.ServerHears.{begins as begins_call, server_act, server_pieces};
ghost use Rattle.giop_session.specs.Worlds.Reading.{IsContinuedBy, whole_call, last_of_call, whole_reply, last_of_reply};

use giop_calls::laws::ends_of_one_lane_agree;

/// What an end plans to send is what the other end reads: a call of `ClientEnd::call` or `locate`,
/// a Reply of `ServerEnd::answer`, a LocateReply of `answer_locate`, in any of the three versions,
/// in either byte order and in pieces of any size. The pieces have one byte order, and it is read as
/// the value that was sent.
pub fn what_is_sent_is_read()
    ensures call { (interface entry call planned : _) → PlansCall interface entry call planned
        → (cut : Cut) × (planned ≡ sends_cut (at_client.Call call) cut)
        × CutsCall (coding interface) call (pieces_of cut) }
    ensures reply { (interface q r planned : _) → PlansReply interface q r planned
        → (cut : Cut) × (planned ≡ sends_cut (at_server.Answer r) cut)
        × CutsReply (coding interface) q r (pieces_of cut) }
    ensures located { (interface q here planned : _) → PlansLocated q here planned
        → (piece reply : _) × (planned ≡ sends_one (at_server.AnswerLocate here) piece)
        × CutsLocated (coding interface) q here piece reply }
{}

/// `coding` is how a server's end reads: a Request or a LocateRequest, whole or as its last
/// Fragment comes, is heard as the call that `coding` reads in all of its pieces. Those before the
/// last one are gathered.
pub fn servers_read_as_coding()
    ensures whole { (interface k m call : _) → m.kind ≡ asks k → m.more ≡ false
        → server_act interface m call ≡ Hears (whole_call interface m) Nothing }
    ensures first { (interface k m call : _) → m.kind ≡ asks k → m.more ≡ true
        → server_act interface m call ≡ begins_call k m }
    ensures more { (interface k cut m unsent : _) → IsContinuedBy cut m → m.more ≡ true
        → server_act interface m (gathers (server.Gathering k) unsent cut)
        ≡ goes_on server_pieces m }
    ensures last { (interface k cut m unsent : _) → cut.first.kind ≡ asks k → IsContinuedBy cut m
        → m.more ≡ false → server_act interface m (gathers (server.Gathering k) unsent cut)
        ≡ last_of_call interface cut m }
{}

/// And how a client's end reads the reply to a call that waits for it, or whose reply it gathers.
pub fn clients_read_as_coding()
    ensures whole { (interface k q m call : _) → m.kind ≡ replies k → m.more ≡ false
        → awaited k m.version call.slot ≡ Some q → client_act interface m call
        ≡ Hears (whole_reply interface k q m) Nothing }
    ensures first { (interface k q m call : _) → m.kind ≡ replies k → m.more ≡ true
        → awaited k m.version call.slot ≡ Some q → client_act interface m call
        ≡ begins_reply k m }
    ensures more { (interface q cut m unsent : _) → IsContinuedBy cut m → m.more ≡ true
        → client_act interface m (gathers (client.Gathering q) unsent cut)
        ≡ goes_on client_pieces m }
    ensures last { (interface q cut m unsent : _) → IsContinuedBy cut m → m.more ≡ false
        → client_act interface m (gathers (client.Gathering q) unsent cut)
        ≡ last_of_reply interface q cut m }
{}

/// What an end gathers are the joined octets of the pieces that came, in the order of the first.
pub fn pieces_are_gathered_as_they_come()
    ensures first { (m : Msg) (pieces : _) → brought (First m.order m.payload) pieces
        ≡ gathered_in (record { first = m; rest = [] }) }
    ensures more { (cut : Cut) (m : Msg) → brought (More (behind_id m)) (gathered_in cut)
        ≡ gathered_in (record cut { rest = cut.rest ++ m ∷ [] }) }
{}

/// The pieces that an end plans to send are on the lane of their id as a lane carries them: by the
/// headers of these messages, the first opens a call or an answer of its version, each behind it
/// continues it, and the last alone says that no more follow.
pub fn what_is_sent_is_a_lanes()
    ensures call { (interface entry call cut : _) → SendsCall interface entry call cut
        → map seen (pieces_of cut) ≡ carried (kind_of call) (version_of call) cut }
    ensures reply { (interface q r cut : _) → SendsReply interface q r cut
        → map seen (pieces_of cut) ≡ carried kind.Request r.version cut }
    ensures located { (interface : Interface) (q here piece : _) → SendsLocated q here piece
        → seen piece ≡ Opens kind.Locate q.version true piece }
{}

/// So a client's end and a server's end agree on one id, whatever they do under it, in whatever
/// order, an id used again included, as long as each pipe keeps its order: all that
/// `giop_calls::laws::ends_of_one_lane_agree` says, of the session's own pieces and reading.
pub fn own_ends_of_one_lane_agree()
    ensures read { (interface acts lane : _)
        → Runs (coding interface) new acts lane → IsSound (coding interface) lane }
    ensures own { (interface acts lane : _)
        → OwnRuns interface new acts lane → IsSound (coding interface) lane }
{
    ends_of_one_lane_agree();
}

/// Lanes of the session's own acts come to replies. A Request that is sent in one message, arrives,
/// is answered in one message of its version, and that arrives: the client has that Reply. So a
/// LocateRequest: the client has its LocateReply.
pub fn own_lanes_come_to_replies()
    ensures replied { (interface q r one other : _) → IsAnswerable q r
        → IsReplied interface q r one other → BringsClient interface (replied_run q r one other)
        (client.Done q r) }
    ensures located { (interface q here one other : _) → IsLocated interface q here one other
        → (reply : _) × BringsClient interface (located_run q here one other) (client.LocateDone q
        reply) }
{}
