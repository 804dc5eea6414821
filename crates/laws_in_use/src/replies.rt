//! The calls of one id at a client: a Reply in pieces, a cancel with a late Reply behind it, and an
//! id that is used again.
ghost use Rattle.std.specs.Prelude.{◌≡◌, ◌∷◌, [], None, Some, Ok, IsOk};
ghost use Rattle.std.specs.List.{AllByRecursion};
ghost use Rattle.giop_ids.specs.Runs.{alone, told_alone};
ghost use Rattle.giop_msg.specs.declared.version.Version.TheVariants.{V12};
ghost use Rattle.giop_mux.specs.Runs.{Answers};
ghost use Rattle.giop_calls.specs.declared.client.entry.ClientEntry.TheVariants.{Cancelled, Done};
ghost use Rattle.giop_calls.specs.declared.client.late.Late.TheVariants as late;
ghost use Rattle.giop_calls.specs.ClientItems as client;
ghost use Rattle.giop_calls.specs.Items.{answers, Says};
ghost use Rattle.laws_in_use.specs.ClientCalls.{called_and_replied, cancelled, cancelled_and_again, in_one, in_three};
ghost use Rattle.laws_in_use.specs.Exchange.{ping, pong};

use giop_calls::laws::{client_entry_stands, equal_items_equal_at_client};

/// A Reply in one message and in three say the same. So both leave the call done, and what the
/// client itself did is answered the same.
pub fn a_reply_in_three_messages()
    ensures one { Says client.client_turn client.client_words None called_and_replied in_one }
    ensures three { Says client.client_turn client.client_words None called_and_replied in_three }
    ensures entry { alone client.client_turn None in_three ≡ Some (Done (ping V12) (pong V12)) }
    ensures told { answers client.client_turn client.client_words None in_three
        ≡ Ok (Answers tt) ∷ Ok (Answers tt) ∷ [] }
{
    equal_items_equal_at_client();
}

/// Behind a cancel a late Reply is seen and not read; the entry is taken out and the id used again.
pub fn a_late_reply()
    ensures accepted { AllByRecursion IsOk (told_alone client.client_turn None
        cancelled_and_again) }
    ensures seen { alone client.client_turn None cancelled ≡ Some (Cancelled late.Seen) }
    ensures entry { alone client.client_turn None cancelled_and_again
        ≡ Some (Done (ping V12) (pong V12)) }
{
    client_entry_stands();
}
