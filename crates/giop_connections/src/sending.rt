//! How an end sends and what it holds at most, by the words of the command line.
ghost use Rattle.std.specs.Prelude.{◌≡◌};
ghost use Rattle.giop_commands.specs.Check.{AreLimits};
ghost use Rattle.giop_end.specs.Acts.Form.{IsForm};

use giop_end::{Form, Limits};
use giop_words::{LimitWords, SendingWords};

/// The limits that words name.
pub fn limits_of(words: LimitWords) -> Limits
    ensures value { result ≡ record {
      calls = words.calls;
      message = words.message;
      gathered = words.gathered;
    } }
    ensures bounded { AreLimits result }
{
    Limits {
        calls: words.calls,
        message: words.message,
        gathered: words.gathered,
    }
}

/// The form of messages that words name.
pub fn form_of(words: SendingWords) -> Form
    ensures value { result ≡ record { order = words.order; piece = words.piece } }
    ensures valid { IsForm result }
{
    Form {
        order: words.order,
        piece: words.piece,
    }
}
