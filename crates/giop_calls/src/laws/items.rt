//! Laws of what is said of one call, in the events of either end. Each function's contract is a
//! law; the bodies are empty, and no program calls these.
ghost use Rattle.std.specs.Prelude.{◌≡◌, ◌⊎◌, ◌↔◌, Bool, false, List, [], ◌∷◌, Option};
ghost use Rattle.giop_mux.specs.Runs.{Happening, Hears};
ghost use Rattle.giop_calls.specs.ClientItems as client_said;
ghost use Rattle.giop_calls.specs.Items.{Got, Spells};
ghost use Rattle.giop_calls.specs.Pieces.{IsHeard, call_in_pieces, reply_in_pieces};
ghost use Rattle.giop_calls.specs.ServerItems as server_said;
ghost use Rattle.giop_calls.specs.declared.client.entry.ClientEntry.{ClientEntry};
ghost use Rattle.giop_calls.specs.declared.client.event.ClientEvent.{ClientEvent};
ghost use Rattle.giop_calls.specs.declared.client.event.ClientEvent.TheVariants as at_client;
ghost use Rattle.giop_calls.specs.declared.kind.CallKind.{CallKind};
ghost use Rattle.giop_calls.specs.declared.server.entry.ServerEntry.{ServerEntry};
ghost use Rattle.giop_calls.specs.declared.server.event.ServerEvent.{ServerEvent};
ghost use Rattle.giop_calls.specs.declared.server.event.ServerEvent.TheVariants as at_server;
ghost use Rattle.giop_calls.specs.declared.server.heard.HeardCall.{HeardCall};

/// Whatever befalls a call is either an end's own act, a take included, or what it hears of the
/// other end: a message whole or in pieces, and at a server a CancelRequest. No act is both.
pub fn acts_are_own_or_heard()
    ensures server { (act : Happening ServerEvent) → (server_said.is_own act ≡ false)
        ↔ (IsHeard server_said.server_words act ⊎ (act ≡ Hears at_server.Cancel)) }
    ensures client { (act : Happening ClientEvent) → (client_said.is_own act ≡ false)
        ↔ IsHeard client_said.client_words act }
{}

/// A message comes whole, or as a first piece with any number of Fragments and a last one behind
/// it, and in no other way. The first piece of a reply says what it answers and in which version,
/// as the whole one does; that of a call says of which kind it is, and nothing of what it will be.
pub fn messages_come_whole_or_in_pieces()
    ensures call { (v : Option ServerEntry) (call : HeardCall) (acts : List (Happening ServerEvent))
        → Spells server_said.server_turn server_said.server_words v (Got call) acts
        ↔ ((acts ≡ Hears (at_server.Whole call) ∷ [])
        ⊎ ((kind : CallKind) × (further : List Bool) × (last : Bool)
        × (acts ≡ call_in_pieces kind further last call))) }
    ensures reply { (v : Option ClientEntry) (message : client_said.Message)
        (acts : List (Happening ClientEvent))
        → Spells client_said.client_turn client_said.client_words v (Got message) acts
        ↔ ((acts ≡ client_said.client_words.whole message ∷ [])
        ⊎ ((further : List Bool) × (last : Bool) × (acts ≡ reply_in_pieces message further last))) }
{}
