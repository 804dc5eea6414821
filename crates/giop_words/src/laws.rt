//! Laws of what words promise: which are good, and which aren't. Each function's contract is one of
//! them; the bodies are empty, and no program calls them.
ghost use Rattle.std.specs.Prelude.{◌≡◌, codes, false, true, None, Some};
ghost use Rattle.giop_words.specs.Inputs.{input};
ghost use Rattle.giop_words.specs.Key.{is_hexadecimal};
ghost use Rattle.giop_words.specs.Task.{ReadsOnce};
ghost use Rattle.giop_words.specs.Timeout.{IsTimeout};
ghost use Rattle.giop_words.specs.declared.convert.ConvertKind.TheVariants.{Value};
ghost use Rattle.giop_words.specs.declared.task.Task.TheVariants.{Convert};

/// `-` alone is the standard input, and two files are not.
pub fn the_standard_input_is_read_once()
    ensures is { input (codes "-") ≡ 1 }
    ensures other { input (codes "./-") ≡ 0 }
    ensures twice { (file way desc order : _) → file.now ≡ codes "-" → desc.now ≡ codes "-"
        → ReadsOnce (Convert file (Value way desc order)) → ⊥ }
{}

/// A key in hexadecimal has pairs of digits, in either case.
pub fn keys_are_pairs_of_digits()
    ensures pairs { is_hexadecimal (codes "6b6C") ≡ true }
    ensures odd { is_hexadecimal (codes "6b6") ≡ false }
    ensures other { is_hexadecimal (codes "6g") ≡ false }
{}

/// A timeout is a second to a day, or none.
pub fn timeouts_are_within_a_day()
    ensures none { IsTimeout None }
    ensures zero { IsTimeout (Some 0) → ⊥ }
    ensures day { IsTimeout (Some 86400) }
    ensures more { IsTimeout (Some 86401) → ⊥ }
{}
