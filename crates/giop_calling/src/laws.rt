//! Laws of what `call` does: what a refused call leaves, and when calls wait. Each function's contract
//! is one of them; the bodies are empty, and no program calls them.
ghost use Rattle.std.specs.Prelude.{◌≡◌, [], None, Some, length};
ghost use Rattle.std.specs.FinMap as finite;
ghost use Rattle.giop_calling.specs.Call.Printed.{IsCalled};
ghost use Rattle.giop_calling.specs.Call.Streaming.{Makes};

/// Where a call is refused at this end, nothing is read, and nothing is written.
pub fn refused_calls_write_nothing()
    ensures { (asked lines before after old new status : _)
        → (called : IsCalled asked lines before after old new status)
        → (why : _) → called.refused ≡ Some why
        → (after.input ≡ before.input) × (after.output ≡ before.output) }
{}

/// No call of a stream waits where none is open.
pub fn calls_are_made_where_none_is_open()
    ensures { (asked fault calls left s t : _) → Makes asked fault calls left s None t
        → length (finite.keys t.calls.table) ≡ 0 → left ≡ [] }
{}
