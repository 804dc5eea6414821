//! What an end hears is an event of the lane of its id. Each function's contract is a law; the bodies
//! are empty, and no program calls these.
ghost use Rattle.std.specs.Prelude.{◌≡◌, Some};
ghost use Rattle.giop_msg.specs.declared.kind.Kind.TheVariants as message;
ghost use Rattle.giop_calls.specs.Lane.{pieces_of};
ghost use Rattle.giop_calls.specs.declared.client.entry.ClientEntry.TheVariants as client;
ghost use Rattle.giop_calls.specs.declared.server.entry.ServerEntry.TheVariants as server;
ghost use Rattle.giop_table.specs.CallTable.{More, Nothing};
ghost use Rattle.giop_session.specs.Items.ClientCarries.{replies};
ghost use Rattle.giop_end.specs.Hearing.ClientHears.{awaited};
ghost use Rattle.giop_end.specs.Hearing.Heard.{behind_id};
ghost use Rattle.giop_session.specs.Worlds.LaneAtEnds.{gathers};
ghost use Rattle.giop_session.specs.Items.ServerCarries.{asks};
ghost use Rattle.giop_session.specs.Worlds.Reading.{IsContinuedBy, ServerHearsEvent, ClientHearsEvent, IsGathering};

/// What a message does to a call at a server's end is the event that its lane has of it: of what
/// opens a call, of a Fragment in the byte order of what is gathered, and of a CancelRequest.
pub fn servers_hear_the_lanes_event()
    ensures opens { (interface k m call pieces : _) → m.kind ≡ asks k
        → (brings : _) × ServerHearsEvent interface pieces m call brings }
    ensures continues { (interface k cut m unsent : _) → cut.first.kind ≡ asks k
        → IsContinuedBy cut m → ServerHearsEvent interface (pieces_of cut) m (gathers
        (server.Gathering k) unsent cut) (More (behind_id m)) }
    ensures stops { (interface m call pieces : _) → m.kind ≡ message.CancelRequest
        → ServerHearsEvent interface pieces m call Nothing }
{}

/// So at a client's end: of what opens the answer to a call that waits for it, and of a Fragment in
/// the byte order of what is gathered of it.
pub fn clients_hear_the_lanes_event()
    ensures opens { (interface k q m call c : _) → m.kind ≡ replies k
        → awaited k m.version call.slot ≡ Some q → c.entry ≡ Some (client.Waiting q)
        → (brings : _) × ClientHearsEvent interface c m call brings }
    ensures continues { (interface q cut m unsent c : _) → IsContinuedBy cut m → IsGathering q cut c
        → ClientHearsEvent interface c m (gathers (client.Gathering q) unsent cut) (More (behind_id
        m)) }
{}
