//! Whatever an end takes is held by some items (docs/HEADLINE.md). Each function's contract is a
//! law; the bodies are empty, and no program calls these.
ghost use Rattle.giop_session.specs.Runs.ClientRuns.{ClientHolds, ClientTakesAs};
ghost use Rattle.giop_session.specs.Runs.ServerRuns.{ServerHolds, ServerTakesAs};

/// Whatever inputs a server's end takes, none of them refused, some items for each id are held by
/// them. So what is said of such items is said of each run that refuses nothing: `run_server` says
/// that its inputs are taken so.
pub fn what_is_taken_is_held_at_server()
    ensures { (interface limits inputs answers acts left k : _)
        → ServerTakesAs interface limits inputs answers acts left k
        → (calls : _) × ServerHolds interface limits inputs answers left k calls }
{}

/// Whatever inputs a client's end takes, none of them refused, some items for each id are held by
/// them. So what is said of such items is said of each run that refuses nothing: `run_client` says
/// that its inputs are taken so.
pub fn what_is_taken_is_held_at_client()
    ensures { (interface limits inputs answers acts left k : _)
        → ClientTakesAs interface limits inputs answers acts left k
        → (calls : _) × ClientHolds interface limits inputs answers left k calls }
{}
