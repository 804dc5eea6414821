use giop_mux::CallRule;

/// A rule of the calls of one side of a connection, a client's or a server's, of which some entries
/// gather pieces.
pub trait Side: CallRule {
    ghost use Rattle.std.specs.Prelude.{◌≡◌, Bool, true, false};

    ghost gathering: { Self.Entry → Bool };

    /// Whether pieces are gathered for a call with this entry. It takes no memory.
    fn is_gathering(entry: &Self::Entry) -> bool
        ensures { result ≡ gathering entry.now };

    // A call whose pieces are gathered is not over.
    ghost gathering_is_open: { (side : Self) (entry : Self.Entry)
        → gathering entry ≡ true → ⟦<Self as CallRule>⟧.closed side entry ≡ false };
}
