//! What is said of a call, in use: whose an act is, in which acts a message comes, and which replies
//! are accepted.
ghost use Rattle.std.specs.Prelude.{◌≡◌, ◌≢◌, ◌∷◌, [], false, None, Ok, Option, Some, true};
ghost use Rattle.giop_calls.specs.ClientItems as client_said;
ghost use Rattle.giop_calls.specs.Items.{Got, Spells};
ghost use Rattle.giop_calls.specs.Pieces.{IsHeard};
ghost use Rattle.giop_calls.specs.ServerItems as server_said;
ghost use Rattle.giop_calls.specs.ServerTable.{server_step};
ghost use Rattle.giop_calls.specs.declared.client.entry.ClientEntry.{ClientEntry};
ghost use Rattle.giop_calls.specs.declared.client.event.ClientEvent.TheVariants as at_client;
ghost use Rattle.giop_calls.specs.declared.server.entry.ServerEntry.{ServerEntry};
ghost use Rattle.giop_calls.specs.declared.server.entry.ServerEntry.TheVariants.{Asked, Undecoded};
ghost use Rattle.giop_calls.specs.declared.server.event.ServerEvent.TheVariants as event;
ghost use Rattle.giop_calls.specs.declared.server.heard.HeardCall.TheVariants as heard;
ghost use Rattle.giop_calls.specs.declared.server.undecoded.UndecodedCall.{UndecodedCall};
ghost use Rattle.giop_msg.specs.declared.version.Version.TheVariants.{V11, V12};
ghost use Rattle.giop_mux.specs.Runs.{Hears, IsTaken};
ghost use Rattle.laws_in_use.specs.Exchange.{ping, pong};
ghost use Rattle.laws_in_use.specs.ServerCalls.{arriving};

use giop_calls::laws::{
    acts_are_own_or_heard, answers_fit_their_calls, messages_come_whole_or_in_pieces,
};

/// Taking an entry out is a server's own act. A CancelRequest is heard by the server, and a
/// Fragment by the client.
pub fn whose_acts_are()
    ensures take { IsHeard server_said.server_words IsTaken → ⊥ }
    ensures cancel { server_said.is_own (Hears event.Cancel) ≡ false }
    ensures fragment { client_said.is_own (Hears (at_client.More true)) ≡ false }
{
    acts_are_own_or_heard();
}

/// A Request comes in three messages; a Fragment by itself is none, nor is it a reply.
pub fn three_messages_are_one()
    ensures three { (v : Option ServerEntry) → Spells server_said.server_turn
        server_said.server_words v (Got (heard.Request (ping V12))) arriving }
    ensures lone { (v : Option ServerEntry) → Spells server_said.server_turn
        server_said.server_words v (Got (heard.Request (ping V12)))
        (Hears (event.More true) ∷ []) → ⊥ }
    ensures no_reply { (v : Option ClientEntry) (message : client_said.Message)
        → Spells client_said.client_turn client_said.client_words v (Got message)
        (Hears (at_client.More true) ∷ []) → ⊥ }
{
    messages_come_whole_or_in_pieces();
}

/// A Request of 1.2 is answered in 1.2, and not in 1.1; one that couldn't be decoded isn't answered
/// by a Reply that is no exception.
pub fn replies_of_a_version()
    ensures same { (server_step (Some (Asked (ping V12))) (event.Answer (pong V12) 1)).outcome
        ≡ Ok tt }
    ensures other { (server_step (Some (Asked (ping V12))) (event.Answer (pong V11) 1)).outcome
        ≢ Ok tt }
    ensures no_exception { (call : UndecodedCall)
        → (server_step (Some (Undecoded call)) (event.Answer (pong V12) 1)).outcome ≢ Ok tt }
{
    answers_fit_their_calls();
}
