//! What an end refuses for the call's own sake, and what a client may cancel: yes and no for each.
ghost use Rattle.std.specs.Prelude.{◌≡◌, ◌↔◌, Ok, Some, None, true, false};
ghost use Rattle.giop_calls.specs.declared.client.entry.ClientEntry.{ClientEntry};
ghost use Rattle.giop_calls.specs.declared.client.entry.ClientEntry.TheVariants as entry;
ghost use Rattle.giop_calls.specs.declared.client.event.ClientEvent.TheVariants as event;
ghost use Rattle.giop_calls.specs.declared.fault.CallFault.{CallFault};
ghost use Rattle.giop_calls.specs.ClientTable.{client_step};
ghost use Rattle.giop_session.specs.Calls.CallTable.{is_of_call};
ghost use Rattle.giop_session.specs.Acts.ClientCalls.{cancel_fault, open_version, version_of};
ghost use Rattle.giop_session.specs.declared.TableFault.TheVariants.{GatherFull, NoMemory, Rule, StillOpen, TooManyCalls};

/// An end refuses by its rule, or since a call is open, for the call's own sake; as TooManyCalls,
/// GatherFull and NoMemory not.
pub fn refusals_of_an_end()
    ensures rule { (fault : CallFault) → is_of_call (Rule fault) ≡ true }
    ensures open { is_of_call {F = CallFault} StillOpen ≡ true }
    ensures many { is_of_call {F = CallFault} TooManyCalls ≡ false }
    ensures full { is_of_call {F = CallFault} GatherFull ≡ false }
    ensures memory { is_of_call {F = CallFault} NoMemory ≡ false }
{}

/// A call may be cancelled, in its version, until all of its reply came; and exactly then the table
/// accepts a cancel.
pub fn what_may_be_cancelled()
    ensures absent { open_version None ≡ None }
    ensures sending { (call left : _)
        → open_version (Some (entry.Sending call left)) ≡ Some (version_of call) }
    ensures waiting { (call : _)
        → open_version (Some (entry.Waiting call)) ≡ Some (version_of call) }
    ensures gathering { (call : _)
        → open_version (Some (entry.Gathering call)) ≡ Some (version_of call) }
    ensures done { (q r : _) → open_version (Some (entry.Done q r)) ≡ None }
    ensures located { (q r : _) → open_version (Some (entry.LocateDone q r)) ≡ None }
    ensures undecoded { (call fault : _)
        → open_version (Some (entry.Undecoded call fault)) ≡ None }
    ensures oneway { (q : _) → open_version (Some (entry.OnewaySent q)) ≡ None }
    ensures cancelled { (late : _) → open_version (Some (entry.Cancelled late)) ≡ None }
    ensures accepted { (stands : ClientEntry) → (cancel_fault (open_version (Some stands)) ≡ None)
        ↔ ((client_step (Some stands) event.Cancel).outcome ≡ Ok tt) }
{}
