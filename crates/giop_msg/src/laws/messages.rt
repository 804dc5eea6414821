//! Laws of whole messages, above the definitions of specs/Messages. Each function's contract is one
//! of them; the bodies are empty, and no program calls these.
ghost use Rattle.std.specs.Prelude.{◌≡◌, ℕ, List, Option};
ghost use Rattle.giop_cdr.specs.declared.order.Order.{Order};
ghost use Rattle.giop_cdr.specs.Ending.{ended};
ghost use Rattle.giop_types.specs.declared.interfaces.interface.Interface.{Interface};
ghost use Rattle.giop_msg.specs.declared.version.Version.{Version};
ghost use Rattle.giop_msg.specs.Joined.{joined_from, whole_of_joined};
ghost use Rattle.giop_msg.specs.Locate.{locate_request};
ghost use Rattle.giop_msg.specs.Messages.Laws.{IsWhole, ObjectsAreApart, ReplyRefusalsAreTold, RequestRefusalsAreTold, RequestsAreReadBack, RequestsAreRefused};
ghost use Rattle.giop_msg.specs.Messages.LocateReply.{locate_reply};
ghost use Rattle.giop_msg.specs.Messages.Reply.{reply};
ghost use Rattle.giop_msg.specs.Messages.Request.{request};
ghost use Rattle.giop_msg.specs.declared.messages.request.Request.{Request};

/// A Request of any interface, in each version. What is read is what all octets up to the end
/// spell, and else the first refused field is reported. Whatever octets spell fits: where a Request
/// doesn't fit, no octets spell it. The joined octets that `encode` returns are read as that
/// Request, in both byte orders. Of head, operation and body the first part that is refused is
/// reported, and of it the first field.
pub fn requests_are_spelled()
    ensures table { (interface : Interface) (version : Version)
        → IsWhole (request interface version) }
    ensures refused { RequestsAreRefused }
    ensures back { RequestsAreReadBack }
{}

/// A LocateRequest as a whole message, in each version: its fields, and nothing behind them. What
/// is read is what all octets up to the end spell. Else the first refused field is reported, or as
/// Trailing the first octet that is left behind the target. Whatever octets spell fits. The joined
/// octets that `encode` returns are read as that LocateRequest, in both byte orders. `read` says
/// that `view` reads so.
pub fn whole_locate_requests_are_spelled()
    ensures table { (version : Version) → IsWhole (ended (locate_request version)) }
    ensures read { (version : Version) (order : Order) (octets : List ℕ)
        → whole_of_joined (locate_request version) order octets
        ≡ (ended (locate_request version)).read (joined_from order octets) }
{}

/// A LocateReply, in each version. What is read is what all octets up to the end spell, and else
/// the first refused field is reported. Whatever octets spell fits. The joined octets that `encode`
/// returns are read as that LocateReply, in both byte orders.
pub fn locate_replies_are_spelled()
    ensures { (version : Version) → IsWhole (locate_reply version) }
{}

/// A Reply of any interface to any request, in each version; its body is by its status. What is
/// read is what all octets up to the end spell, and else the first refused field is reported.
/// Whatever octets spell fits. The joined octets that `encode` returns are read as that Reply, in
/// both byte orders. To a request that could not be decoded it is an exception of the broker.
pub fn replies_are_spelled()
    ensures { (interface : Interface) (asked : Option Request) (version : Version)
        → IsWhole (reply interface asked version) }
{}

/// Where joined octets are refused as a Request or a Reply, `decode` returns that refusal, whether
/// memory is there or not. It is out of memory only where nothing is refused.
pub fn refusals_are_told()
    ensures requests { RequestRefusalsAreTold }
    ensures replies { ReplyRefusalsAreTold }
{}

/// A Request of a key is read by what the object of that key offers, and so is a Reply to it:
/// whatever else an interface offers, to other objects or to all, changes nothing of it.
pub fn objects_are_apart()
    ensures { ObjectsAreApart }
{}
