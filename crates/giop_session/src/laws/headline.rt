//! The headline (docs/HEADLINE.md): what a run of an end leaves of each call is what was said of
//! that call. Each function's contract is a law; the bodies are empty, and no program calls these.
ghost use Rattle.std.specs.Prelude.{◌≡◌, ℕ, false, List, Some};
ghost use Rattle.std.specs.FinMap as finite;
ghost use Rattle.giop_cdr.specs.declared.order.Order.{Order};
ghost use Rattle.giop_cdr.specs.Ending.{ended};
ghost use Rattle.giop_msg.specs.declared.kind.Kind.{Kind};
ghost use Rattle.giop_msg.specs.declared.kind.Kind.TheVariants as message;
ghost use Rattle.giop_msg.specs.declared.msg.Msg.{Msg};
ghost use Rattle.giop_msg.specs.declared.version.Version.{Version};
ghost use Rattle.giop_msg.specs.Cut.{CanCut, IsCut, joined};
ghost use Rattle.giop_msg.specs.Locate.{locate_request};
ghost use Rattle.giop_msg.specs.Messages.LocateReply.{locate_reply};
ghost use Rattle.giop_msg.specs.Messages.Reply.{reply};
ghost use Rattle.giop_msg.specs.Messages.Request.{request};
ghost use Rattle.giop_calls.specs.declared.client.call.Call.TheVariants as question;
ghost use Rattle.giop_calls.specs.declared.client.heard.HeardReply.TheVariants as answer;
ghost use Rattle.giop_calls.specs.declared.server.heard.HeardCall.TheVariants as call;
ghost use Rattle.giop_types.specs.declared.json.interface.Interface.{Interface};
ghost use Rattle.giop_session.specs.declared.limits.Limits.{Limits};
ghost use Rattle.giop_session.specs.Calls.CallTable.{Held};
ghost use Rattle.giop_session.specs.Items.Carries.{IsSeries, IsWrittenAs};
ghost use Rattle.giop_session.specs.Items.ClientCarries.{answered, CarryReply, ClientItem};
ghost use Rattle.giop_session.specs.Runs.EndRuns.{ClientEntriesAre, ClientInputsHold, ClientTakes, SameEntries, ServerEntriesAre, ServerInputsHold, ServerTakes};
ghost use Rattle.giop_session.specs.Runs.Events.{EachFollows, Event, Meets};
ghost use Rattle.giop_session.specs.Items.ServerCarries.{CarryCall, ServerItem};
ghost use Rattle.giop_session.specs.Hearing.Heard.{side_of};

use crate::Hearing;

/// Where an end hears messages and acts itself, and none of this is refused, each call follows its
/// own messages and acts, one after another, and none of them is refused. What lies between them
/// makes no difference.
pub fn each_call_of_a_run<R: Hearing>(rule: &R)
    ensures { (interface : Interface) (h k : Held R R.Entry) (events : List (Event R.Event))
        → Meets (side_of R.Hearing interface) h events k
        → EachFollows (side_of R.Hearing interface) h events k }
{}

/// A server's end takes inputs, octets in reads of any size and its own acts, and refuses none of
/// them. Where they hold these items for each id, the entry of each id is what its items alone
/// leave. It makes no difference in how many Fragments and in which byte order a message comes, or
/// how the messages are interleaved.
///
/// So two runs that hold, for each id, the same calls in the same order end in the same entries,
/// whatever their limits.
pub fn same_calls_same_entries_at_server()
    ensures value { (interface : Interface) (limits : Limits) (inputs : _) (left : _) (k : _)
        (calls : ℕ → List ServerItem) → ServerTakes interface limits inputs left k
        → ServerInputsHold interface limits inputs calls → ServerEntriesAre interface calls k }
    ensures same { (interface : Interface) (limits limits' : Limits) (one other : _)
        (left left' : _) (k k' : _) (calls : ℕ → List ServerItem)
        → ServerTakes interface limits one left k → ServerTakes interface limits' other left' k'
        → ServerInputsHold interface limits one calls
        → ServerInputsHold interface limits' other calls → SameEntries k k' }
{}

/// A client's end takes inputs, octets in reads of any size and its own acts, and refuses none of
/// them. Where they hold these items for each id, the entry of each id is what its items alone
/// leave. A Reply counts by the value that it spells to the latest call of its id. It makes no
/// difference in how many Fragments and in which byte order a message comes, or how the messages
/// are interleaved.
///
/// So two runs that hold, for each id, the same items in the same order end in the same entries,
/// whatever their limits.
pub fn same_calls_same_entries_at_client()
    ensures value { (interface : Interface) (limits : Limits) (inputs : _) (left : _) (k : _)
        (calls : ℕ → List ClientItem) → ClientTakes interface limits inputs left k
        → ClientInputsHold interface limits inputs calls → ClientEntriesAre interface calls k }
    ensures same { (interface : Interface) (limits limits' : Limits) (one other : _)
        (left left' : _) (k k' : _) (calls : ℕ → List ClientItem)
        → ClientTakes interface limits one left k → ClientTakes interface limits' other left' k'
        → ClientInputsHold interface limits one calls
        → ClientInputsHold interface limits' other calls → SameEntries k k' }
{}

/// A message that is cut into pieces of any size, in either byte order, is one item: its pieces are
/// a series whose joined octets are those that were cut. So a Request, LocateRequest, Reply or
/// LocateReply that is written and cut is carried as the value that it is.
pub fn what_is_cut_is_carried()
    ensures series { (version : Version) (kind : Kind) (order : Order) (octets : List ℕ)
        (piece : ℕ) (messages : List Msg)
        → CanCut kind octets piece → IsCut version kind order octets piece messages
        → IsSeries kind version order false messages × (joined messages ≡ octets) }
    ensures request { (interface : Interface) (version : Version) (order : Order) (asked : _)
        (piece : ℕ) (messages : List Msg) (entry : _)
        → IsWrittenAs (request interface version) order asked message.Request piece version messages
        → CarryCall interface entry (call.Request asked) messages }
    ensures locate { (interface : Interface) (version : Version) (order : Order) (asked : _)
        (piece : ℕ) (messages : List Msg) (entry : _) → IsWrittenAs (ended (locate_request version))
        order asked message.LocateRequest piece version messages
        → CarryCall interface entry (call.Locate asked) messages }
    ensures reply { (interface : Interface) (version : Version) (order : Order) (asked told : _)
        (piece : ℕ) (messages : List Msg) (known : _)
        → answered known.entry known.latest ≡ Some (question.Request asked) → IsWrittenAs
        (reply interface (Some asked) version) order told message.Reply piece version messages
        → CarryReply interface known (answer.Reply told) messages }
    ensures located { (interface : Interface) (version : Version) (order : Order) (asked told : _)
        (piece : ℕ) (messages : List Msg) (known : _)
        → answered known.entry known.latest ≡ Some (question.Locate asked)
        → IsWrittenAs (locate_reply version) order told message.LocateReply piece version messages
        → CarryReply interface known (answer.Locate told) messages }
{}
