//! Laws of what `serve` puts out and tells. Each function's contract is one of them; the bodies are
//! empty, and no program calls them.
ghost use Rattle.std.specs.Prelude.{◌≡◌, []};
ghost use Rattle.giop_serving.specs.Serve.Serving.{SendsLeft};
ghost use Rattle.giop_serving.specs.Serve.Streaming.{Streams};

/// Where the pieces that are left of answers are put out, no answer of a list is passed.
pub fn pieces_pass_no_answers()
    ensures { (served limits fault s refused t : _) → SendsLeft served limits fault s refused t
        → t.passed ≡ s.passed }
{}

/// A connection of `serve --stream` that ends before any turn is told no call.
pub fn no_turns_tell_no_calls()
    ensures { (served limits lines s refused t : _)
        → (streams : Streams served limits lines s refused t) → streams.turns ≡ []
        → t.text ≡ s.text }
{}
