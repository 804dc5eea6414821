//! What an end's own acts leave of its calls. Each function's contract is a law; the bodies are
//! empty, and no program calls these.
ghost use Rattle.std.specs.Prelude.{◌≡◌, Err, Ok};
ghost use Rattle.giop_session.specs.Acts.Acting.{IsAccepted};
ghost use Rattle.giop_table.specs.CallTable.{rules_by};
ghost use Rattle.giop_end.specs.Acts.Putting.{ActsOnCall};

use crate::Side;

/// What an end's own act leaves, which `ClientEnd::call`, `locate`, `cancel` and `send` and
/// `ServerEnd::answer`, `answer_locate` and `send` do. An accepted one does to the entry of its id
/// what the rule's step does, and to its unsent messages what the plan does; it puts out the message
/// that the plan sends, and leaves each other id. A refused one leaves all.
pub fn what_an_own_act_leaves<R: Side>(rule: &R)
    ensures accepted { (of_rule id planned h k out out' : _)
        → ActsOnCall (rules_by R.Side rule.now) of_rule id planned h out (Ok tt) k out'
        → IsAccepted (R.next rule.now) id planned h out k out' }
    ensures refused { (of_rule id planned h k out out' why : _)
        → ActsOnCall (rules_by R.Side rule.now) of_rule id planned h out (Err why) k out'
        → (k ≡ h) × (out' ≡ out) }
{}
