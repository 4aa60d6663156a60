//! The number of a sample.
ghost use Rattle.std.specs.Prelude.{◌≡◌};
ghost use Rattle.command_words.specs.Numbers as numbers;

use ix_base::limits::MOST_FACTS;
use scale_sign::all_digits;

/// Whether these are digits, of which the first is no 0.
fn is_count(digits: &[u8]) -> bool
    ensures { result ≡ numbers.is_count digits.now }
{
    match digits {
        [] => false,
        [first, ..] => *first != b'0' && all_digits(digits),
    }
}

/// The number of facts that a word asks for: one from 1 to the most of a sample, in digits without a zero in front.
pub fn sample_number(word: &str) -> Option<u32>
    ensures { result ≡ numbers.sample_number word.now }
{
    if !is_count(word.as_bytes()) {
        return None;
    }
    match word.parse::<u32>() {
        Ok(number) if 1 <= number && number <= MOST_FACTS => Some(number),
        _ => None,
    }
}
