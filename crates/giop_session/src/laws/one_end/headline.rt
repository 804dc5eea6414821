//! The headline (docs/HEADLINE.md): what a run of an end leaves of each call is what was said of
//! that call. Each function's contract is a law; the bodies are empty, and no program calls these.
ghost use Rattle.std.specs.Prelude.{◌≡◌, false};
ghost use Rattle.giop_msg.specs.Cut.{CanCut, IsCut, joined};
ghost use Rattle.giop_calls.specs.declared.client.heard.HeardReply.TheVariants as answer;
ghost use Rattle.giop_calls.specs.declared.server.heard.HeardCall.TheVariants as call;
ghost use Rattle.giop_session.specs.Items.Carries.{IsSeries};
ghost use Rattle.giop_session.specs.Items.ClientCarries.{CarryReply, IsReplyIn, IsLocateReplyIn, AwaitsReply, AwaitsLocateReply};
ghost use Rattle.giop_session.specs.Runs.ClientRuns.{client_run};
ghost use Rattle.giop_session.specs.Runs.ServerRuns.{server_run};
ghost use Rattle.giop_session.specs.Runs.SideRuns.{EntriesAre, SameEntries, SideTakesItems};
ghost use Rattle.giop_session.specs.Runs.Events.{EachFollows, Meets};
ghost use Rattle.giop_session.specs.Items.ServerCarries.{CarryCall, IsRequestIn, IsLocateRequestIn};
ghost use Rattle.giop_end.specs.Hearing.Heard.{side_of};

use crate::Hearing;

/// Where an end hears messages and acts itself, and none of this is refused, each call follows its
/// own messages and acts, one after another, and none of them is refused. What lies between them
/// makes no difference.
pub fn each_call_of_a_run<R: Hearing>(rule: &R)
    ensures { (interface h k events : _) → Meets (side_of R.Hearing interface) h events k
        → EachFollows (side_of R.Hearing interface) h events k }
{}

/// A server's end takes inputs, octets in reads of any size and its own acts, and refuses none of
/// them. Where they hold these items for each id, the entry of each id is what its items alone
/// leave. It makes no difference in how many Fragments and in which byte order a message comes, or
/// how the messages are interleaved.
///
/// So two runs that hold, for each id, the same calls in the same order end in the same entries,
/// whatever their limits.
pub fn same_calls_same_entries_at_server()
    ensures value { (interface limits acts calls k : _)
        → SideTakesItems (server_run interface) limits acts calls k
        → EntriesAre (server_run interface) calls k }
    ensures same { (interface limits limits' one other calls k k' : _)
        → SideTakesItems (server_run interface) limits one calls k
        → SideTakesItems (server_run interface) limits' other calls k' → SameEntries k k' }
{}

/// A client's end takes inputs, octets in reads of any size and its own acts, and refuses none of
/// them. Where they hold these items for each id, the entry of each id is what its items alone
/// leave. A Reply counts by the value that it spells to the latest call of its id. It makes no
/// difference in how many Fragments and in which byte order a message comes, or how the messages
/// are interleaved.
///
/// So two runs that hold, for each id, the same items in the same order end in the same entries,
/// whatever their limits.
pub fn same_calls_same_entries_at_client()
    ensures value { (interface limits acts calls k : _)
        → SideTakesItems (client_run interface) limits acts calls k
        → EntriesAre (client_run interface) calls k }
    ensures same { (interface limits limits' one other calls k k' : _)
        → SideTakesItems (client_run interface) limits one calls k
        → SideTakesItems (client_run interface) limits' other calls k' → SameEntries k k' }
{}

/// A message that is cut into pieces of any size, in either byte order, is one item: its pieces are
/// a series whose joined octets are those that were cut. So a Request, LocateRequest, Reply or
/// LocateReply that is written and cut is carried as the value that it is.
pub fn what_is_cut_is_carried()
    ensures series { (version kind order octets piece sent : _) → CanCut kind octets piece
        → IsCut version kind order octets piece sent → IsSeries kind version order false sent
        × (joined sent ≡ octets) }
    ensures request { (interface version order asked piece sent entry : _)
        → IsRequestIn interface version order asked piece sent
        → CarryCall interface entry (call.Request asked) sent }
    ensures locate { (interface version order asked piece sent entry : _)
        → IsLocateRequestIn version order asked piece sent
        → CarryCall interface entry (call.Locate asked) sent }
    ensures reply { (interface version order asked reply piece sent known : _)
        → AwaitsReply known asked → IsReplyIn interface asked version order reply piece sent
        → CarryReply interface known (answer.Reply reply) sent }
    ensures located { (interface version order asked reply piece sent known : _)
        → AwaitsLocateReply known asked → IsLocateReplyIn version order reply piece sent
        → CarryReply interface known (answer.Locate reply) sent }
{}
