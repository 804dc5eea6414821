//! The limits of an end. The defaults stand in docs/PROFILE.md ("Limits") too: change both.
ghost use Rattle.std.specs.Prelude.{◌≡◌};

/// What an end holds at most. A limit is met where the next event would pass it.
#[derive(Clone, Copy, Debug, PartialEq, Eq)]
pub struct Limits {
    /// How many entries the table has, those of calls that are over and not taken out included.
    pub calls: u32,
    /// The size of a message in octets, without its header.
    pub message: u32,
    /// The octets of all messages together of which a piece is still to come, the last piece of one
    /// included as it comes.
    pub gathered: u64,
}

impl Default for Limits {
    ghost is_default = { λ limits. limits ≡ record {
      calls = 1024;
      message = 1048576;
      gathered = 8388608;
    } };

    /// 1,024 entries, messages of 1 MiB and 8 MiB of gathered octets.
    fn default() -> Limits {
        Limits {
            calls: 1 << 10,
            message: 1 << 20,
            gathered: 8 << 20,
        }
    }
}
