//! What `convert decode` refuses, in use: octets that stand behind a value.
ghost use Rattle.std.specs.Prelude.{◌≡◌, Ok};
ghost use Rattle.giop_cdr.specs.Reading.Values.{fault};
ghost use Rattle.giop_cdr.specs.declared.fault.CdrKind.TheVariants.{Trailing};
ghost use Rattle.giop_types.specs.Coding.Decoding.{decode_at};
ghost use Rattle.giop_converting.specs.Convert.{RefusedOctets, reader_of};

/// Octets of which a value is read are refused for what stands behind it alone, at the place where the
/// value ends.
pub fn octets_behind_a_value()
    ensures { (shape order octets tree after e : _)
        → decode_at shape (reader_of order octets) ≡ Ok (tree, after)
        → RefusedOctets shape order octets e → e ≡ fault after.at Trailing }
{}
