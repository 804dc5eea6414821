//! Laws of the tables of fields, which are specs/RequestHead.antt, specs/ReplyHead.antt and
//! specs/Locate.antt. Each function's contract is one of them; the bodies are empty, and no program
//! calls these.
ghost use Rattle.giop_msg.specs.declared.version.Version.{Version};
ghost use Rattle.giop_msg.specs.Laws.{IsTable};
ghost use Rattle.giop_msg.specs.Locate.{locate_reply_head, locate_request};
ghost use Rattle.giop_msg.specs.ReplyHead.{reply_head};
ghost use Rattle.giop_msg.specs.RequestHead.{request_head};

/// A Request's head, in each version. What is read is what is spelled, field by field, and where
/// nothing is spelled the first refused field is reported. No spelling of a head begins another.
/// Whatever octets spell fits: where a head doesn't fit, no octets spell it. What `write` appends
/// of a head spells it. Reading returns the head and leaves what follows it, in both byte orders
/// and at every offset.
pub fn request_heads_are_spelled()
    ensures { (version : Version) → IsTable (request_head version) }
{}

/// A Reply's head, in each version. What is read is what is spelled, and else the first refused
/// field is reported. No spelling of a head begins another, and whatever octets spell fits. What
/// `write` appends is read as the head, and what follows it is left, in both byte orders and at
/// every offset.
pub fn reply_heads_are_spelled()
    ensures { (version : Version) → IsTable (reply_head version) }
{}

/// A LocateRequest, in each version. What is read is what is spelled, and else the first refused
/// field is reported. No spelling of one begins another, and whatever octets spell fits. What
/// `write` appends is read as the LocateRequest, and what follows it is left, in both byte orders
/// and at every offset.
pub fn locate_requests_are_spelled()
    ensures { (version : Version) → IsTable (locate_request version) }
{}

/// A LocateReply's fields before its body, in each version. What is read is what is spelled, and
/// else the first refused field is reported. No spelling of them begins another, and whatever
/// octets spell fits. What `write` appends is read as these fields, and what follows them is left,
/// in both byte orders and at every offset.
pub fn locate_reply_heads_are_spelled()
    ensures { (version : Version) → IsTable (locate_reply_head version) }
{}
