//! The trait of the rule of one side of a connection: what a table of calls whose pieces are gathered
//! asks of a rule, beside what any does.
use crate::CallRule;

/// A rule of the calls of one side of a connection, a client's or a server's, of which some entries
/// gather pieces.
pub trait Side: CallRule {
    ghost use Rattle.std.specs.Prelude.{◌≡◌, Bool, true, false, Some};

    ghost gathering: { Self.Entry → Bool };

    /// Whether pieces are gathered for a call with this entry. It takes no memory.
    fn is_gathering(entry: &Self::Entry) -> bool
        ensures { result ≡ gathering entry.now };

    /// What an event does to a call with this entry, which changes where it lies. Each event leaves
    /// an entry. It takes no memory.
    fn step_at(
        &self,
        entry: &mut Self::Entry,
        event: Self::Event,
    ) -> Result<Self::Answer, Self::Fault>
        ensures { ⟦<Self as CallRule>⟧.next self.now (Some entry.old) event
            ≡ record { entry = Some entry.new; outcome = result } };

    // A call whose pieces are gathered is not over.
    ghost gathering_is_open: { (side : Self) (entry : Self.Entry)
        → gathering entry ≡ true → ⟦<Self as CallRule>⟧.closed side entry ≡ false };
}
