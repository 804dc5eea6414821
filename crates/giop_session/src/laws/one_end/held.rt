//! Whatever an end takes is held by some items (docs/HEADLINE.md). Each function's contract is a
//! law; the bodies are empty, and no program calls these.
ghost use Rattle.giop_session.specs.Runs.ClientRuns.{client_run};
ghost use Rattle.giop_session.specs.Runs.ServerRuns.{server_run};
ghost use Rattle.giop_session.specs.Runs.SideRuns.{SideHoldsSome, SideTakesAs};

/// Whatever inputs a server's end takes, none of them refused, some items for each id are held by
/// them. So what is said of such items is said of each run that refuses nothing: `run_server` says
/// that its inputs are taken so.
pub fn what_is_taken_is_held_at_server()
    ensures { (interface limits inputs answers acts left k : _)
        → SideTakesAs (server_run interface) limits inputs answers acts left k
        → SideHoldsSome (server_run interface) limits inputs answers left k }
{}

/// Whatever inputs a client's end takes, none of them refused, some items for each id are held by
/// them. So what is said of such items is said of each run that refuses nothing: `run_client` says
/// that its inputs are taken so.
pub fn what_is_taken_is_held_at_client()
    ensures { (interface limits inputs answers acts left k : _)
        → SideTakesAs (client_run interface) limits inputs answers acts left k
        → SideHoldsSome (client_run interface) limits inputs answers left k }
{}
