//! As many messages are still to be sent as an entry says (CORBA 3.3 Part 2, 9.4.9). Each
//! function's contract is a law; the bodies are empty, and no program calls these.
ghost use Rattle.std.specs.Prelude.{ℕ, Some};
ghost use Rattle.std.specs.FinMap as finite;
ghost use Rattle.giop_calls.specs.ClientTable as client;
ghost use Rattle.giop_calls.specs.ServerTable as server;
ghost use Rattle.giop_end.specs.Acts.ClientCalls.{IsCall, IsCancel, IsLocate};
ghost use Rattle.giop_session.specs.Runs.LeftToSend.{ArePlanned, ClientPlans, IsLeft, ServerPlans, ServerMeets, ClientMeets};
ghost use Rattle.giop_end.specs.Acts.ServerAnswers.{IsAnswer, IsLocateAnswer};

/// A server's end hears messages and acts itself, and none of this is refused. It plans a Reply in
/// as many messages as its event says, a LocateReply in one, and a further piece as the next one:
/// `ServerEnd::answer`, `answer_locate` and `send` do. Then as many messages of each call are still
/// to be sent as its entry says to be left. So `send` has one wherever it is accepted.
pub fn what_is_left_is_unsent_at_server()
    ensures answered { (interface question answer form planned : _)
        → IsAnswer interface (Some question) answer form planned
        → ServerPlans planned.event planned.plan }
    ensures located { (id here order version planned : _)
        → IsLocateAnswer id here order (Some version) planned
        → ServerPlans planned.event planned.plan }
    ensures left { (interface limits events k : _) → ServerMeets interface limits events k
        → ArePlanned ServerPlans events → (id : ℕ) → IsLeft server.left_of (finite.get k.table id) }
{}

/// A client's end hears messages and acts itself, and none of this is refused. It plans a call in
/// as many messages as its event says, a CancelRequest in one, in place of those that were left,
/// and a further piece as the next one: `ClientEnd::call`, `locate`, `cancel` and `send` do. Then
/// as many messages of each call are still to be sent as its entry says to be left. So `send` has
/// one wherever it is accepted.
pub fn what_is_left_is_unsent_at_client()
    ensures called { (interface asked form planned : _) → IsCall interface asked form planned
        → ClientPlans planned.event planned.plan }
    ensures located { (asked form planned : _) → IsLocate asked form planned
        → ClientPlans planned.event planned.plan }
    ensures cancelled { (id order version planned : _) → IsCancel id order (Some version) planned
        → ClientPlans planned.event planned.plan }
    ensures left { (interface limits events k : _) → ClientMeets interface limits events k
        → ArePlanned ClientPlans events → (id : ℕ) → IsLeft client.left_of (finite.get k.table id) }
{}
