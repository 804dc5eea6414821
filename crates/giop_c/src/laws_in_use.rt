//! The laws of this crate in use, each on a worked instance. No crate of examples stands on a library
//! that C links, so these stand here; nothing calls them.
ghost use Rattle.std.specs.Prelude.{◌≡◌, [], ◌∷◌, Err, None, Some, false};
ghost use Rattle.giop_c.specs.Calls.{At, Takes, closed, fault, small, waits};
ghost use Rattle.giop_c.specs.Client.Ends.{FeedsClient};
ghost use Rattle.giop_c.specs.Copying.{CopiesOctets, CopiesWhere};
ghost use Rattle.giop_c.specs.Headers.{ReadsHeader};
ghost use Rattle.giop_c.specs.Server.Ends.{FeedsServer};
ghost use Rattle.giop_c.specs.declared.client.caller.Caller.{Caller};
ghost use Rattle.giop_c.specs.declared.reader.Reader.{Reader};
ghost use Rattle.giop_c.specs.declared.server.served.Served.{Served};

use crate::laws::{
    closed_framers_write_nothing, failed_ends_stay, small_buffers_stay, twelve_octets_are_a_header,
};

/// The next message of a framer that is closed: the status is 1, and message and fault are kept. A
/// framer isn't opened by it, nor closed.
pub fn no_message_of_a_closed_framer()
    ensures told { (m f : _) → At {T = Reader} None None closed ((m ≡ m) × (f ≡ f))
        (λ old new. Takes old new m m f f closed) }
    ensures only { (m m' f f' status : _) → At {T = Reader} None None status
        ((m' ≡ m) × (f' ≡ f)) (λ old new. Takes old new m m' f f' status)
        → status ≡ 1 }
    ensures shut { (new m f status : _) → At {T = Reader} None (Some new) status
        ((m ≡ m) × (f ≡ f)) (λ old new. Takes old new m m f f status)
        → ⊥ }
    ensures open { (old m f status : _) → At {T = Reader} (Some old) None status
        ((m ≡ m) × (f ≡ f)) (λ old new. Takes old new m m f f status)
        → ⊥ }
{
    closed_framers_write_nothing();
}

/// An end that failed is fed with three octets: it answers its fault, and stays.
pub fn three_octets_at_a_failed_end()
    ensures at_client { (old : Caller) (why : _) → old.end.fault ≡ Some why
        → FeedsClient (1 ∷ 2 ∷ 3 ∷ []) old (Err why) old }
    ensures client { (old new : Caller) (answer why : _) → old.end.fault ≡ Some why
        → FeedsClient (1 ∷ 2 ∷ 3 ∷ []) old answer new → new ≡ old }
    ensures at_server { (old : Served) (why : _) → old.end.fault ≡ Some why
        → FeedsServer (1 ∷ 2 ∷ 3 ∷ []) old (Err why) old }
    ensures server { (old new : Served) (answer why : _) → old.end.fault ≡ Some why
        → FeedsServer (1 ∷ 2 ∷ 3 ∷ []) old answer new → new ≡ old }
{
    failed_ends_stay();
}

/// Three octets and a buffer of two: it stays, and is told that there are three. An octet that doesn't
/// fit is refused.
pub fn three_octets_for_a_buffer_of_two()
    ensures told { CopiesOctets (Some (1 ∷ 2 ∷ 3 ∷ [])) (0 ∷ 0 ∷ []) (0 ∷ 0 ∷ []) 7 3 small }
    ensures only { (buffer' size' status : _)
        → CopiesOctets (Some (1 ∷ 2 ∷ 3 ∷ [])) (0 ∷ 0 ∷ []) buffer' 7 size' status
        → (status ≡ 5) × (buffer' ≡ 0 ∷ 0 ∷ []) × (size' ≡ 3) }
    ensures refused { CopiesWhere false (Unit {0}) (1 ∷ []) (0 ∷ []) (0 ∷ []) 7 7 fault }
    ensures unfit { (buffer' size' status : _)
        → CopiesWhere false (Unit {0}) (1 ∷ []) (0 ∷ []) buffer' 7 size' status
        → (status ≡ 4) × (buffer' ≡ 0 ∷ []) × (size' ≡ 7) }
{
    small_buffers_stay();
}

/// A header of one octet waits; that twelve wait can't be.
pub fn a_header_waits_for_twelve_octets()
    ensures told { (m f : _) → ReadsHeader 64 (71 ∷ []) m m f f waits }
    ensures only { (m m' f f' status : _) → ReadsHeader 64 (71 ∷ []) m m' f f' status → status ≡ 3 }
    ensures twelve { (m m' f f' : _)
        → ReadsHeader 64 (0 ∷ 0 ∷ 0 ∷ 0 ∷ 0 ∷ 0 ∷ 0 ∷ 0 ∷ 0 ∷ 0 ∷ 0 ∷ 0 ∷ []) m m' f f' waits → ⊥ }
{
    twelve_octets_are_a_header();
}
