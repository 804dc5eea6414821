//! Laws of handles that hold nothing, of ends that failed, of buffers and of headers. Each function's contract is
//! one of them; the bodies are empty, and no program calls them.
ghost use Rattle.std.specs.Prelude.{◌≡◌, ◌<◌, ◌≤◌, Err, None, Some, false, length, take};
ghost use Rattle.giop_msg.specs.Header.{header_fault};
ghost use Rattle.giop_c.specs.Calls.{At, Takes, closed, fault, small, waits};
ghost use Rattle.giop_c.specs.Client.Ends.{FeedsClient};
ghost use Rattle.giop_c.specs.Copying.{CopiesOctets, CopiesWhere};
ghost use Rattle.giop_c.specs.Headers.{JudgesHeader, ReadsHeader};
ghost use Rattle.giop_c.specs.Server.Ends.{FeedsServer};
ghost use Rattle.giop_c.specs.declared.client.caller.Caller.{Caller};
ghost use Rattle.giop_c.specs.declared.server.served.Served.{Served};
ghost use Rattle.giop_c.specs.declared.reader.Reader.{Reader};

/// A call at a framer that is closed answers CLOSED, writes nothing, and leaves it closed; none at one
/// that is open closes it.
pub fn closed_framers_write_nothing()
    ensures closed { (m m' f f' status : _) → At {T = Reader} None None status
        ((m' ≡ m) × (f' ≡ f)) (λ old new. Takes old new m m' f f' status)
        → (status ≡ closed) × (m' ≡ m) × (f' ≡ f) }
    ensures opened { (new m m' f f' status : _) → At {T = Reader} None (Some new) status
        ((m' ≡ m) × (f' ≡ f)) (λ old new. Takes old new m m' f f' status)
        → ⊥ }
    ensures stays { (old m m' f f' status : _) → At {T = Reader} (Some old) None status
        ((m' ≡ m) × (f' ≡ f)) (λ old new. Takes old new m m' f f' status)
        → ⊥ }
{}

/// Octets that an end is fed with which failed are answered by its fault, and it stays.
pub fn failed_ends_stay()
    ensures client { (old new : Caller) (octets answer why : _) → old.end.fault ≡ Some why
        → FeedsClient octets old answer new → (answer ≡ Err why) × (new ≡ old) }
    ensures server { (old new : Served) (octets answer why : _) → old.end.fault ≡ Some why
        → FeedsServer octets old answer new → (answer ≡ Err why) × (new ≡ old) }
{}

/// A buffer that is too small stays as it is, and is told how many octets there are. Octets that a
/// value doesn't have are refused as FAULT, and nothing is written.
pub fn small_buffers_stay()
    ensures small { (octets buffer buffer' size size' status : _) → length buffer < length octets
        → CopiesOctets (Some octets) buffer buffer' size size' status
        → (status ≡ small) × (buffer' ≡ buffer) × (size' ≡ length octets) }
    ensures unfit { (octets buffer buffer' size size' status : _)
        → CopiesWhere false (Unit {0}) octets buffer buffer' size size' status
        → (status ≡ fault) × (buffer' ≡ buffer) × (size' ≡ size) }
{}

/// Twelve octets are judged as a header, and fewer wait.
pub fn twelve_octets_are_a_header()
    ensures fewer { (limit octets m m' f f' status : _) → length octets < 12
        → ReadsHeader limit octets m m' f f' status
        → (status ≡ waits) × (m' ≡ m) × (f' ≡ f) }
    ensures judged { (limit octets m m' f f' status : _) → 12 ≤ length octets
        → ReadsHeader limit octets m m' f f' status
        → JudgesHeader (header_fault limit (take 12 octets)) octets m m' f f' status }
{}
