//! The calls of one id at a server and at a client: a call in pieces, a cancel with late Fragments
//! behind it, and an id that is used again.
ghost use Rattle.std.specs.Prelude.{◌≡◌, ◌∷◌, [], None, Some, Ok, IsOk};
ghost use Rattle.std.specs.List.{AllByRecursion};
ghost use Rattle.giop_ids.specs.Runs.{alone, told_alone};
ghost use Rattle.giop_msg.specs.declared.version.Version.TheVariants.{V12};
ghost use Rattle.giop_mux.specs.Runs.{Answers};
ghost use Rattle.giop_calls.specs.declared.server.entry.ServerEntry.TheVariants.{Answered};
ghost use Rattle.giop_calls.specs.declared.server.question.Question.TheVariants as question;
ghost use Rattle.giop_calls.specs.Items.{answers, Says};
ghost use Rattle.giop_calls.specs.ServerItems as server;
ghost use Rattle.laws_in_use.specs.Exchange.{ping, pong};
ghost use Rattle.laws_in_use.specs.ServerCalls.{asked_and_answered, cancelled_and_again, in_one, in_three};

use giop_calls::laws::{equal_items_equal_at_server, server_entry_stands};

/// A Request in one message and in three say the same. So both leave it answered, with nothing of
/// the Reply unsent, and the answer and the sending are told the same.
pub fn a_request_in_three_messages()
    ensures one { Says server.server_turn server.server_words None asked_and_answered in_one }
    ensures three { Says server.server_turn server.server_words None asked_and_answered in_three }
    ensures entry { alone server.server_turn None in_three
        ≡ Some (Answered (question.Request (ping V12)) (pong V12) 0) }
    ensures told { answers server.server_turn server.server_words None in_three
        ≡ Ok (Answers tt) ∷ Ok (Answers tt) ∷ [] }
{
    equal_items_equal_at_server();
}

/// Behind a cancel late Fragments are let go; the entry is taken out and the id used again.
pub fn an_id_used_again()
    ensures accepted { AllByRecursion IsOk (told_alone server.server_turn None
        cancelled_and_again) }
    ensures entry { alone server.server_turn None cancelled_and_again
        ≡ Some (Answered (question.Request (ping V12)) (pong V12) 0) }
{
    server_entry_stands();
}
