//! What an end hears is an event of the lane of its id. Each function's contract is a law; the bodies
//! are empty, and no program calls these.
ghost use Rattle.std.specs.Prelude.{◌≡◌, Some};
ghost use Rattle.giop_types.specs.declared.json.interface.Interface.{Interface};
ghost use Rattle.giop_msg.specs.declared.kind.Kind.TheVariants as message;
ghost use Rattle.giop_msg.specs.declared.msg.Msg.{Msg};
ghost use Rattle.giop_calls.specs.Lane.{client_event, Cut, pieces_of, server_event, Standing};
ghost use Rattle.giop_calls.specs.declared.client.entry.ClientEntry.{ClientEntry};
ghost use Rattle.giop_calls.specs.declared.client.entry.ClientEntry.TheVariants as client;
ghost use Rattle.giop_calls.specs.declared.client.event.ClientEvent.{ClientEvent};
ghost use Rattle.giop_calls.specs.declared.server.entry.ServerEntry.TheVariants as server;
ghost use Rattle.giop_session.specs.Calls.CallTable.{Brings, Hears, More, Nothing};
ghost use Rattle.giop_session.specs.Items.ClientCarries.{replies};
ghost use Rattle.giop_session.specs.Hearing.ClientHears.{awaited, client_befalls};
ghost use Rattle.giop_session.specs.Worlds.Coding.{coding};
ghost use Rattle.giop_session.specs.Hearing.Heard.{behind_id, kept};
ghost use Rattle.giop_session.specs.Worlds.LaneAtEnds.{gathers, seen};
ghost use Rattle.giop_session.specs.Items.ServerCarries.{asks};
ghost use Rattle.giop_session.specs.Hearing.ServerHears.{server_befalls};

/// What befalls a call at a server's end is the event that its lane has of the message: of what
/// opens a call, of a Fragment in the byte order of what is gathered, and of a CancelRequest.
pub fn servers_hear_the_lanes_event()
    ensures opens { (interface : Interface) (k : _) (m : Msg) (call pieces : _) → m.kind ≡ asks k
        → (brings : Brings) × (server_befalls interface m call
        ≡ Hears (kept (server_event (coding interface) pieces (seen m))) brings) }
    ensures continues { (interface : Interface) (k : _) (cut : Cut) (m : Msg) (unsent : _)
        → cut.first.kind ≡ asks k → m.kind ≡ message.Fragment → m.order ≡ cut.first.order
        → server_befalls interface m (gathers (server.Gathering k) unsent cut)
        ≡ Hears (kept (server_event (coding interface) (pieces_of cut) (seen m)))
        (More (behind_id m)) }
    ensures stops { (interface : Interface) (m : Msg) (call pieces : _)
        → m.kind ≡ message.CancelRequest → server_befalls interface m call
        ≡ Hears (kept (server_event (coding interface) pieces (seen m))) Nothing }
{}

/// So at a client's end: of what opens the answer to a call that waits for it, and of a Fragment in
/// the byte order of what is gathered of it.
pub fn clients_hear_the_lanes_event()
    ensures opens { (interface : Interface) (k q : _) (m : Msg) (call : _)
        (c : Standing ClientEntry) → m.kind ≡ replies k → awaited k m.version call.slot ≡ Some q
        → c.entry ≡ Some (client.Waiting q)
        → (event : ClientEvent) × (brings : Brings)
        × (client_event (coding interface) c (seen m) ≡ Some event)
        × (client_befalls interface m call ≡ Hears (kept event) brings) }
    ensures continues { (interface : Interface) (q : _) (cut : Cut) (m : Msg) (unsent : _)
        (c : Standing ClientEntry) → m.kind ≡ message.Fragment → m.order ≡ cut.first.order
        → c.entry ≡ Some (client.Gathering q) → c.pieces ≡ pieces_of cut
        → (event : ClientEvent) × (client_event (coding interface) c (seen m) ≡ Some event)
        × (client_befalls interface m (gathers (client.Gathering q) unsent cut)
        ≡ Hears (kept event) (More (behind_id m))) }
{}
