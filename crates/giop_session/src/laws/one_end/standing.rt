//! What is stored for an id, by steps and without them (docs/HEADLINE.md). Each function's contract
//! is a law, and no program calls these.
ghost use Rattle.giop_session.specs.Runs.ClientRuns.{client_run};
ghost use Rattle.giop_session.specs.Runs.Fits.{EntriesStand};
ghost use Rattle.giop_session.specs.Runs.ServerRuns.{server_run};

use giop_calls::laws::{client_entry_stands, server_entry_stands};

/// A server's end takes inputs and refuses none, and they hold these items for each id. Then what
/// it has stored for an id is what was said of it. It is what the table of steps comes to by the
/// id's own messages, each as it is read where it comes, and acts. And it is what stands by those
/// of its latest call, without steps.
pub fn entries_stand_at_server()
    ensures { (interface limits inputs answers left k calls : _)
        → EntriesStand (server_run interface) limits inputs answers left k calls }
{
    server_entry_stands();
}

/// So does a client's end, of what its server said and what it did itself.
pub fn entries_stand_at_client()
    ensures { (interface limits inputs answers left k calls : _)
        → EntriesStand (client_run interface) limits inputs answers left k calls }
{
    client_entry_stands();
}
