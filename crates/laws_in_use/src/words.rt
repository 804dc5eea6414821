//! What words of a command line are good for, in use: files of which one is the standard input, a
//! key in digits, and a timeout.
ghost use Rattle.std.specs.Prelude.{◌≡◌, ◌≢◌, ℕ, codes, false, true, None, Some};
ghost use Rattle.giop_words.specs.Key.{is_key};
ghost use Rattle.giop_words.specs.Task.{ReadsOnce};
ghost use Rattle.giop_words.specs.Timeout.{IsTimeout};
ghost use Rattle.giop_words.specs.declared.convert.ConvertKind.TheVariants.{Value};
ghost use Rattle.giop_words.specs.declared.serve.KeyWord.TheVariants.{Hex, Text};
ghost use Rattle.giop_words.specs.declared.task.Task.TheVariants.{Convert};

use giop_words::laws::{
    keys_are_pairs_of_digits, the_standard_input_is_read_once, timeouts_are_within_a_day,
};

/// A value may be the standard input where its description is a file, even one of the name `-`; but
/// one word doesn't name both.
pub fn a_value_from_the_standard_input()
    ensures value { (file way desc order : _) → file.now ≡ codes "-" → desc.now ≡ codes "./-"
        → ReadsOnce (Convert file (Value way desc order)) }
    ensures description { (file way desc order : _) → file.now ≡ codes "./-"
        → desc.now ≡ codes "-" → ReadsOnce (Convert file (Value way desc order)) }
    ensures both { (file way order : _) → ReadsOnce (Convert file (Value way file order))
        → file.now ≢ codes "-" }
{
    the_standard_input_is_read_once();
}

/// `6b6C` is the key `kl` in digits. Neither three digits nor a `g` are one; a text may be any.
pub fn a_key_in_digits()
    ensures pairs { (word : _) → word.now ≡ codes "6b6C" → is_key (Hex word) ≡ true }
    ensures odd { (word : _) → word.now ≡ codes "6b6" → is_key (Hex word) ≡ false }
    ensures other { (word : _) → word.now ≡ codes "6g" → is_key (Hex word) ≡ false }
    ensures text { (word : _) → word.now ≡ codes "6g" → is_key (Text word) ≡ true }
{
    keys_are_pairs_of_digits();
}

/// A day is a timeout, and so is none; no timeout is zero, nor a day and a second.
pub fn a_timeout_of_a_day()
    ensures day { IsTimeout (Some 86400) }
    ensures none { IsTimeout None }
    ensures some { (seconds : ℕ) → IsTimeout (Some seconds) → seconds ≢ 0 }
    ensures more { (seconds : ℕ) → IsTimeout (Some seconds) → seconds ≢ 86401 }
{
    timeouts_are_within_a_day();
}
