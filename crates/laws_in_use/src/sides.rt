//! Which kinds of message are of a client and which of a server, told by what the other end makes
//! of them.
ghost use Rattle.std.specs.Prelude.{◌≡◌, ◌≢◌, ◌↔◌, true, false, None, Some};
ghost use Rattle.giop_msg.specs.declared.kind.Kind.{Kind};
ghost use Rattle.giop_msg.specs.declared.kind.Kind.TheVariants as kind;
ghost use Rattle.giop_session.specs.Hearing.ClientHears as client;
ghost use Rattle.giop_session.specs.Acts.PutOut.{is_of_client, is_of_server};
ghost use Rattle.giop_session.specs.Hearing.ServerHears as server;
ghost use Rattle.giop_session.specs.declared.SessionFault.TheVariants.{Closed, PeerError, WrongDirection};

/// What a client sends is exactly what a server takes for no wrong direction and for no
/// MessageError; and what a server sends is exactly what a client takes so.
pub fn what_one_side_sends_the_other_hears()
    ensures client { (one : Kind) → (is_of_client one ≡ true)
        ↔ ((server.breaks_by one ≢ Some WrongDirection)
        × (server.breaks_by one ≢ Some PeerError)) }
    ensures server { (one : Kind) → (is_of_server one ≡ true)
        ↔ ((client.breaks_by one ≢ Some WrongDirection)
        × (client.breaks_by one ≢ Some PeerError)) }
{}

/// Each kind, at a server: Requests, LocateRequests, cancels and Fragments are heard, replies come
/// in the wrong direction, and two kinds end the session.
pub fn each_kind_at_a_server()
    ensures asks { (is_of_client kind.Request ≡ true) × (server.breaks_by kind.Request ≡ None) }
    ensures locates { (is_of_client kind.LocateRequest ≡ true)
        × (server.breaks_by kind.LocateRequest ≡ None) }
    ensures cancels { (is_of_client kind.CancelRequest ≡ true)
        × (server.breaks_by kind.CancelRequest ≡ None) }
    ensures continues { (is_of_client kind.Fragment ≡ true)
        × (server.breaks_by kind.Fragment ≡ None) }
    ensures replies { (is_of_client kind.Reply ≡ false)
        × (server.breaks_by kind.Reply ≡ Some WrongDirection) }
    ensures located { (is_of_client kind.LocateReply ≡ false)
        × (server.breaks_by kind.LocateReply ≡ Some WrongDirection) }
    ensures closes { (is_of_client kind.CloseConnection ≡ true)
        × (server.breaks_by kind.CloseConnection ≡ Some Closed) }
    ensures error { (is_of_client kind.MessageError ≡ false)
        × (server.breaks_by kind.MessageError ≡ Some PeerError) }
{}

/// Each kind, at a client.
pub fn each_kind_at_a_client()
    ensures replies { (is_of_server kind.Reply ≡ true) × (client.breaks_by kind.Reply ≡ None) }
    ensures located { (is_of_server kind.LocateReply ≡ true)
        × (client.breaks_by kind.LocateReply ≡ None) }
    ensures continues { (is_of_server kind.Fragment ≡ true)
        × (client.breaks_by kind.Fragment ≡ None) }
    ensures asks { (is_of_server kind.Request ≡ false)
        × (client.breaks_by kind.Request ≡ Some WrongDirection) }
    ensures locates { (is_of_server kind.LocateRequest ≡ false)
        × (client.breaks_by kind.LocateRequest ≡ Some WrongDirection) }
    ensures cancels { (is_of_server kind.CancelRequest ≡ false)
        × (client.breaks_by kind.CancelRequest ≡ Some WrongDirection) }
    ensures closes { (is_of_server kind.CloseConnection ≡ true)
        × (client.breaks_by kind.CloseConnection ≡ Some Closed) }
    ensures error { (is_of_server kind.MessageError ≡ false)
        × (client.breaks_by kind.MessageError ≡ Some PeerError) }
{}
