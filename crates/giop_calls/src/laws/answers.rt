//! Laws of what is refused at either end, and of which answers are not. Each function's contract is
//! a law; the bodies are empty, and no program calls these.
ghost use Rattle.std.specs.Prelude.{◌≡◌, ◌≤◌, ◌↔◌, ℕ, Option, Some, Ok};
ghost use Rattle.giop_calls.specs.Faults.{fault_number};
ghost use Rattle.giop_calls.specs.ServerTable.{server_step};
ghost use Rattle.giop_calls.specs.declared.fault.CallFault.{CallFault};
ghost use Rattle.giop_calls.specs.declared.kind.CallKind.TheVariants as kind;
ghost use Rattle.giop_calls.specs.declared.server.entry.ServerEntry.TheVariants.{Asked, Undecoded};
ghost use Rattle.giop_calls.specs.declared.server.event.ServerEvent.TheVariants as event;
ghost use Rattle.giop_calls.specs.declared.server.undecoded.UndecodedCall.{UndecodedCall};
ghost use Rattle.giop_msg.specs.declared.messages.reply.Reply.{Reply};
ghost use Rattle.giop_msg.specs.declared.messages.reply_body.ReplyBody.TheVariants.{SystemException};
ghost use Rattle.giop_msg.specs.declared.messages.request.Request.{Request};

/// The numbers of the faults are 1 to 9, each the number of one fault.
pub fn faults_are_numbered()
    ensures within { (fault : CallFault) → (1 ≤ fault_number fault) × (fault_number fault ≤ 9) }
    ensures once { (one other : CallFault) → fault_number one ≡ fault_number other → one ≡ other }
    ensures each { (number : ℕ) → 1 ≤ number → number ≤ 9
        → (fault : CallFault) × (fault_number fault ≡ number) }
{}

/// A server may answer an open Request by any reply of its version. One that it couldn't decode, and
/// that expects a Reply, it may answer by system exceptions of its version alone.
pub fn answers_fit_their_calls()
    ensures asked { (request : Request) (reply : Reply) (pieces : ℕ)
        → ((server_step (Some (Asked request)) (event.Answer reply pieces)).outcome ≡ Ok tt)
        ↔ (reply.version ≡ request.head.version) }
    ensures undecoded { (call : UndecodedCall) (reply : Reply) (pieces : ℕ)
        → ((server_step (Some (Undecoded call)) (event.Answer reply pieces)).outcome ≡ Ok tt)
        ↔ ((call.expects ≡ Some kind.Request) × (reply.version ≡ call.version)
        × ((id minor completion : _) × (reply.body ≡ SystemException id minor completion))) }
{}
