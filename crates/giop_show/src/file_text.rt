//! The text of a file.
ghost use Rattle.std.specs.Prelude.{◌≡◌};
ghost use Rattle.giop_show.specs.FileText.{unended};

/// The text of a file: one newline at its end is dropped.
pub fn unended(octets: &[u8]) -> &[u8]
    ensures { result.now ≡ unended octets.now }
{
    if octets.is_empty() || octets[octets.len() - 1] != b'\n' {
        return octets;
    }
    &octets[..octets.len() - 1]
}
