//! The law of the order in which `trace` tells messages. The function's contract is the law; its
//! body is empty, and no program calls it.
ghost use Rattle.std.specs.Prelude.{◌≡◌, List};
ghost use Rattle.giop_ids.specs.ById.{ById};
ghost use Rattle.giop_msg.specs.declared.msg.Msg.{Msg};
ghost use Rattle.giop_tracing.specs.Trace.Order.{IsOrder, all_told};
ghost use Rattle.giop_tracing.specs.Trace.Text.{both_turn};
ghost use Rattle.giop_trace.specs.Observing.{Brought};
ghost use Rattle.giop_trace.specs.declared.flow.Flow.{Flow};

/// The messages of both directions have one order in which each is told once and those of one
/// direction as they came: the client begins, no answer is told before its request as long as the
/// client goes on, and no other message of the server waits. In that order `trace` tells them.
pub fn one_order()
    ensures there { (flows : ById Flow) (client server : List Msg)
        → (all : List Brought) × IsOrder flows client server all }
    ensures only { (flows : ById Flow) (client server : List Msg) (all others : List Brought)
        → IsOrder flows client server all → IsOrder flows client server others → all ≡ others }
    ensures told { (form interface flows client server all : _) → IsOrder flows client server all
        → both_turn form interface flows client server ≡ all_told form interface flows all }
{}
