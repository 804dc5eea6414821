//! Laws of both rules, over all that happens to one call. Each function's contract is a law; the
//! bodies are empty, and no program calls these.
ghost use Rattle.std.specs.Prelude.{◌≡◌, List, Option, None, IsOk};
ghost use Rattle.std.specs.List.{AllByRecursion};
ghost use Rattle.giop_ids.specs.Runs.{alone, told_alone};
ghost use Rattle.giop_mux.specs.Runs.{Happening, turn};
ghost use Rattle.giop_calls.specs.ServerTable as server;
ghost use Rattle.giop_calls.specs.ClientTable as client;
ghost use Rattle.giop_calls.specs.Items.{Says, AreAlike};
ghost use Rattle.giop_calls.specs.ServerItems as server_said;
ghost use Rattle.giop_calls.specs.ClientItems as client_said;
ghost use Rattle.giop_calls.specs.Lane.{Codec, Act, Lane, new, Runs, IsSound};
ghost use Rattle.giop_calls.specs.ServerStanding as server_acts;
ghost use Rattle.giop_calls.specs.ClientStanding as client_acts;
ghost use Rattle.giop_calls.specs.declared.server.entry.ServerEntry.{ServerEntry};
ghost use Rattle.giop_calls.specs.declared.server.event.ServerEvent.{ServerEvent};
ghost use Rattle.giop_calls.specs.declared.client.event.ClientEvent.{ClientEvent};

mod answers;
mod items;

pub use answers::{answers_fit_their_calls, faults_are_numbered};
pub use items::{acts_are_own_or_heard, messages_come_whole_or_in_pieces};

/// After any events and takes of one id at a server, of which none is refused, what is stored for
/// the id is said without steps, by those of its latest call.
pub fn server_entry_stands()
    ensures value { (acts : List (Happening ServerEvent))
        → AllByRecursion IsOk (told_alone (turn server.server_step server.is_closed) None acts)
        → alone (turn server.server_step server.is_closed) None acts ≡ server_acts.standing acts }
{}

/// After any events and takes of one id at a client, of which none is refused, what is stored for
/// the id is said without steps, by those of its latest call.
pub fn client_entry_stands()
    ensures value { (acts : List (Happening ClientEvent))
        → AllByRecursion IsOk (told_alone (turn client.client_step client.is_closed) None acts)
        → alone (turn client.client_step client.is_closed) None acts ≡ client_acts.standing acts }
{}

/// Two lists of events and takes of one id at a server are given. None of them is refused, and both
/// lists spell the same items in the same order, each message in one piece or in many. Then they
/// leave the same entry, and the server's own acts in them get the same answers.
pub fn equal_items_equal_at_server()
    ensures value { (items : List server_said.Items) (one other : List (Happening ServerEvent))
        → Says server_said.server_turn server_said.server_words None items one
        → Says server_said.server_turn server_said.server_words None items other
        → AreAlike server_said.server_turn server_said.server_words None one other }
{}

/// Two lists of events and takes of one id at a client are given. None of them is refused, and both
/// lists spell the same items in the same order, each message in one piece or in many. Then they
/// leave the same entry, and the client's own acts in them get the same answers.
pub fn equal_items_equal_at_client()
    ensures value { (items : List client_said.Items) (one other : List (Happening ClientEvent))
        → Says client_said.client_turn client_said.client_words None items one
        → Says client_said.client_turn client_said.client_words None items other
        → AreAlike client_said.client_turn client_said.client_words None one other }
{}

/// A client and a server do whatever they do with one id, in whatever order, the id used again
/// included. Their messages travel in any way, as long as each pipe keeps its order. Then:
///
/// - No message is refused, now or next, and each call and reply is read.
/// - Whenever nothing is on its way, both ends have the same outcome, whatever of a call or a reply
///   is unsent.
/// - A reply that is stored at the client is the one that the server gave to that very call.
pub fn ends_of_one_lane_agree()
    ensures value { (codec : Codec) (acts : List Act) (lane : Lane) → Runs codec new acts lane
        → IsSound codec lane }
{}
