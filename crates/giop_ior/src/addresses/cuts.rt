//! Parts of a corbaloc text: what stands before and behind a mark, and the number that digits
//! write.
ghost use Rattle.std.specs.Prelude.{◌≡◌, ◌==◌, ◌≤◌, true, length, MatchOption, Some, None};
ghost use Rattle.std.specs.Char.{is_ascii_digit};
ghost use Rattle.std.specs.List.{position, list_all};
ghost use Rattle.std.specs.Str.Parse.{digits_value};
ghost use Rattle.giop_ior.specs.CorbalocReading.{cut, number_of};

fn position_of(octet: u8, text: &[u8]) -> Option<usize>
    ensures value { result ≡ position (λ x. x == octet) text.now }
{
    text.iter().position(|x| *x == octet)
}

/// What stands before and behind the first `octet` of a text, where it has one.
pub fn cut(octet: u8, text: &[u8]) -> Option<(&[u8], &[u8])>
    ensures { MatchOption result (cut octet text.now ≡ None)
        (λ parts. cut octet text.now ≡ Some (parts.0.now, parts.1.now)) }
{
    let i = position_of(octet, text)?;
    Some((&text[..i], &text[i + 1..]))
}

fn are_digits(text: &[u8]) -> bool
    ensures { result ≡ list_all is_ascii_digit text.now }
{
    text.iter().all(|octet| octet.is_ascii_digit())
}

// The number that decimal digits write.
#[tactic(auto, using(crate::proofs::NumberLemmas::number_small, crate::proofs::NumberLemmas::number_more, crate::proofs::NumberLemmas::digit_at))]
fn digits_value(text: &[u8]) -> u32
    requires digits { list_all is_ascii_digit text.now ≡ true }
    requires few { length text.now ≤ 5 }
    ensures { result ≡ digits_value 10 text.now }
{
    let mut number = 0;
    for digit in text {
        number = number * 10 + u32::from(*digit - b'0');
    }
    number
}

/// The number that 1 to `most` decimal digits write.
pub fn number_of(most: usize, text: &[u8]) -> Option<u32>
    requires { most ≤ 5 }
    ensures { result ≡ number_of most text.now }
{
    if text.is_empty() || text.len() > most || !are_digits(text) {
        return None;
    }
    Some(digits_value(text))
}
