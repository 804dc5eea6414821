//! Laws of what a call of a reader or a writer says by its result, above the words of
//! specs/Reading/Outcome.antt and specs/Writing/Outcome.antt: a refusal is told as it is, and leaves
//! the call to be made again. Each function's contract is a law; the bodies are empty, and no program
//! calls these.
ghost use Rattle.std.specs.Prelude.{◌≡◌, ℕ, List, Err, Ok};
ghost use Rattle.giop_cdr.specs.Reading.Cursor.{Cursor};
ghost use Rattle.giop_cdr.specs.Reading.Outcome.{Allocates, Passes, Reads, ReadsAs};
ghost use Rattle.giop_cdr.specs.Reading.Values.{Reading};
ghost use Rattle.giop_cdr.specs.Writing.Outcome.{Grows, Writes};
ghost use Rattle.giop_cdr.specs.Writing.Output.{Output};
ghost use Rattle.giop_cdr.specs.declared.fault.CdrFault.{CdrFault};

/// A refused call leaves the reader where it was: the same call is refused there again for the same
/// fault, and another one reads as if the first had not been made.
pub fn what_is_refused_is_refused_again()
    ensures reads { (read : Cursor → Reading ℕ) (old mid new : Cursor) (e : CdrFault) (again : _)
        → Reads old (Err e) mid (read old) → Reads mid again new (read mid)
        → (again ≡ Err e) × (new ≡ old) }
    ensures views { (read : Cursor → Reading ℕ) (old mid new : Cursor) (e : CdrFault) (again : _)
        → ReadsAs (λ n. n) old (Err e) mid (read old) → ReadsAs (λ n. n) mid again new (read mid)
        → (again ≡ Err e) × (new ≡ old) }
    ensures passes { (read : Cursor → Reading ℕ) (old mid new : Cursor) (e : CdrFault) (again : _)
        → Passes {X = ℕ} old (Err e) mid (read old) → Passes {X = ℕ} mid again new (read mid)
        → (again ≡ Err e) × (new ≡ old) }
    ensures stays { (octets : List ℕ → List ℕ) (read : Cursor → Reading (List ℕ)) (old new : Cursor)
        (e : CdrFault) → Allocates octets old (Err e) new (read old) → new ≡ old }
{}

/// A call that takes memory tells that it is out of it only where the octets are no fault's: a fault
/// is told as it is.
pub fn no_fault_is_told_as_want_of_memory()
    ensures { (read : Cursor → Reading (List ℕ)) (old new : Cursor) (e fault : CdrFault)
        → Allocates (λ octets. octets) old (Err e) new (read old) → read old ≡ Err fault
        → e ≡ fault }
{}

/// A write that is out of memory leaves what was there: where it is made again, it writes what it
/// would have written, behind what was there.
pub fn what_is_not_written_may_be_written_again()
    ensures { (write : Output → Output) (old mid new : Output) (e x : ℕ)
        → Writes {X = ℕ} old (Err e) mid (write old)
        → Writes {E = ℕ} mid (Ok x) new (write mid) → (new ≡ write old) × Grows old new }
{}
