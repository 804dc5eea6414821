//! Messages in use: a header, a stream of messages with a rest, a message that is cut, and the
//! heads and the refusals of whole messages.
ghost use Rattle.std.specs.Prelude.{◌≡◌, ◌++◌, ◌∷◌, [], ℕ, List, Ok, Err, Some, None, true, codes};
ghost use Rattle.std.specs.List.{flat_map};
ghost use Rattle.giop_cdr.specs.declared.fault.CdrKind.TheVariants.{Short, Trailing};
ghost use Rattle.giop_cdr.specs.declared.order.Order.TheVariants.{Big, Little};
ghost use Rattle.giop_cdr.specs.Ending.{ended};
ghost use Rattle.giop_types.specs.declared.interfaces.interface.Interface.{Interface};
ghost use Rattle.giop_types.specs.Objects.{offer_of};
ghost use Rattle.giop_msg.specs.Cut.{CanCut, IsCut, joined};
ghost use Rattle.giop_msg.specs.declared.fault.WireKind.TheVariants.{BadMagic};
ghost use Rattle.giop_msg.specs.declared.kind.Kind.TheVariants.{LocateRequest};
ghost use Rattle.giop_msg.specs.declared.messages.request_fault.RequestFault.TheVariants.{Header};
ghost use Rattle.giop_msg.specs.declared.version.Version.TheVariants.{V10, V11, V12};
ghost use Rattle.giop_msg.specs.Header.{header_octets, header_of};
ghost use Rattle.giop_msg.specs.Joined.{joined_from, whole_of_joined};
ghost use Rattle.giop_msg.specs.Locate.{locate_reply_head, locate_request};
ghost use Rattle.giop_msg.specs.Messages.Outcome.{Decodes, joined_into};
ghost use Rattle.giop_msg.specs.Messages.Reply.{reply};
ghost use Rattle.giop_msg.specs.Messages.Request.{request};
ghost use Rattle.giop_msg.specs.Messages.RequestAnswer.{DecodesRequest, request_of_joined};
ghost use Rattle.giop_msg.specs.Msg.{message_octets};
ghost use Rattle.giop_msg.specs.ReplyHead.{reply_head};
ghost use Rattle.giop_msg.specs.RequestHead.{request_head};
ghost use Rattle.giop_msg.specs.RequestId.{request_id_layout, request_id_of};
ghost use Rattle.giop_msg.specs.Stream.{BeginsWithFault, Msgs};
ghost use Rattle.laws_in_use.specs.Framed.{asked_head, asked_octets, asks, cancels, cut_begins, cut_ends, cut_octets, header, header_line, located_head, no_header, refusing, replied_head, replied_octets};
ghost use Rattle.laws_in_use.specs.Locating.{door};

use giop_msg::laws::{
    cuts_are_undone, every_stream_splits, faults_stand, header_round_trip,
    locate_reply_heads_are_spelled, objects_are_apart, one_split, refusals_are_told,
    replies_are_spelled, reply_heads_are_spelled, request_heads_are_spelled, request_ids,
    requests_are_spelled, split_on, whole_locate_requests_are_spelled,
};

/// Twelve octets are a header, and the header is these octets; the id of a message is what its
/// first four octets spell, in either order.
pub fn a_header_and_an_id()
    ensures read { header_of header_line ≡ header }
    ensures octets { header_octets header ≡ header_line }
    ensures id { (request_id_layout V12 LocateRequest).read
        (joined_from Little (7 ∷ 0 ∷ 0 ∷ 0 ∷ []))
        ≡ Ok (7, record { order = Little; at = 16; rest = [] }) }
    ensures there { (id : ℕ) × (request_id_of cancels ≡ Some (Ok id)) }
{
    header_round_trip();
    request_ids();
}

/// A stream of two messages and a rest splits so and in no other way, whatever pieces it comes in;
/// and twelve octets that are no header stay none, whatever follows.
pub fn a_stream_of_two_messages()
    ensures first { Msgs 64 (message_octets asks ++ 71 ∷ []) (asks ∷ []) (71 ∷ []) }
    ensures split { (messages : _) (rest : List ℕ)
        → Msgs 64 (message_octets asks ++ 71 ∷ []) messages rest
        → (messages ≡ asks ∷ []) × (rest ≡ 71 ∷ []) }
    ensures splits { (messages : _) × (rest : _)
        × Msgs 64 (message_octets asks ++ 71 ∷ []) messages rest }
    ensures continued { Msgs 64 ((message_octets asks ++ []) ++ message_octets cancels)
        (asks ∷ cancels ∷ []) [] }
    ensures fault { BeginsWithFault 64 no_header (record { at = 3; kind = BadMagic }) }
    ensures stands { (more : List ℕ)
        → BeginsWithFault 64 (no_header ++ more) (record { at = 3; kind = BadMagic }) }
{
    every_stream_splits();
    one_split();
    split_on();
    faults_stand();
}

/// Sixteen octets are cut into two messages of 24 octets each, which join to them again and are
/// framed, by a framer of the largest limit and of one that just lets them through: 12, and in 1.0,
/// where they are one message, 16.
pub fn a_message_in_two()
    ensures can { CanCut LocateRequest cut_octets 24 }
    ensures cut { IsCut V12 LocateRequest Big cut_octets 24 (cut_begins ∷ cut_ends ∷ []) }
    ensures again { joined (cut_begins ∷ cut_ends ∷ []) ≡ cut_octets }
    ensures framed { (messages : List _) → IsCut V12 LocateRequest Big cut_octets 24 messages
        → Msgs 4294967295 (flat_map message_octets messages) messages [] }
    ensures within { (messages : List _) → IsCut V12 LocateRequest Big cut_octets 24 messages
        → Msgs 12 (flat_map message_octets messages) messages [] }
    ensures early { (messages : List _) → IsCut V10 LocateRequest Big cut_octets 24 messages
        → Msgs 16 (flat_map message_octets messages) messages [] }
{
    cuts_are_undone();
}

/// What is written of a LocateRequest is read as it, as a whole. With one octet more it is none:
/// Trailing is reported where that octet stands.
pub fn a_locate_request_and_an_octet()
    ensures back { whole_of_joined (locate_request V12) Big
        ((ended (locate_request V12)).written door (joined_into Big)).octets ≡ Ok door }
    ensures trailing { (ended (locate_request V12)).read (joined_from Big (cut_octets ++ 9 ∷ []))
        ≡ Err (record { at = 28; kind = Trailing }) }
{
    whole_locate_requests_are_spelled();
}

/// The heads of a Request in 1.2, a Reply in 1.1 and a LocateReply in 1.0 are written, and read
/// back with what is behind them.
pub fn heads_in_three_versions()
    ensures asked { (request_head V12).read (joined_from Big (asked_octets ++ 9 ∷ []))
        ≡ Ok (asked_head, record { order = Big; at = 48; rest = 9 ∷ [] }) }
    ensures replied { (reply_head V11).read (joined_from Little (replied_octets ++ 9 ∷ []))
        ≡ Ok (replied_head, record { order = Little; at = 24; rest = 9 ∷ [] }) }
    ensures located { (locate_reply_head V10).read
        (joined_from Big (0 ∷ 0 ∷ 0 ∷ 9 ∷ 0 ∷ 0 ∷ 0 ∷ 1 ∷ 9 ∷ []))
        ≡ Ok (located_head, record { order = Big; at = 20; rest = 9 ∷ [] }) }
{
    request_heads_are_spelled();
    reply_heads_are_spelled();
    locate_reply_heads_are_spelled();
}

/// Where no octet is there, a Request and a Reply are refused at the first field of their heads,
/// whether memory is there or not; and an exception of the broker is read back as a Reply to a
/// Request that couldn't be decoded.
pub fn refused_and_refusing()
    ensures request { (interface : Interface) → (request interface V12).read (joined_from Big [])
        ≡ Err (record { at = 12; kind = Short }) }
    ensures told { (interface : Interface) → request_of_joined interface V12 Big []
        ≡ Err (Header (record { at = 12; kind = Short })) }
    ensures requests { (interface : Interface) (answer : _)
        → DecodesRequest answer (request_of_joined interface V12 Big [])
        → answer ≡ Err (Header (record { at = 12; kind = Short })) }
    ensures replies { (interface : Interface) (answer : _)
        → Decodes answer ((reply interface None V12).read (joined_from Big []))
        → answer ≡ Err (record { at = 12; kind = Short }) }
    ensures exception { (interface : Interface) → (reply interface None V12).read (joined_from Big
        ((reply interface None V12).written refusing (joined_into Big)).octets) ≡ Ok refusing }
    ensures back { (interface : Interface) (q : _) → (request interface V12).fits q ≡ true
        → (request interface V12).holds q
        → request_of_joined interface V12 Big
        ((request interface V12).written q (joined_into Big)).octets ≡ Ok q }
{
    requests_are_spelled();
    refusals_are_told();
    replies_are_spelled();
}

/// `ping` to `k` with an octet behind it is read alike by two interfaces that offer the same there,
/// whatever they offer to other objects.
pub fn an_object_beside_others()
    ensures { (one other : Interface) → offer_of one (codes "k") ≡ offer_of other (codes "k")
        → request_of_joined one V12 Big (asked_octets ++ 9 ∷ [])
        ≡ request_of_joined other V12 Big (asked_octets ++ 9 ∷ []) }
{
    heads_in_three_versions();
    objects_are_apart();
}
