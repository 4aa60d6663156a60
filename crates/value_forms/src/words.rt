//! The words of a text.
ghost use Rattle.std.specs.Prelude.{◌≡◌, [], ◌∷◌, ◌<◌, length, MatchOption};
ghost use Rattle.ix_base.specs.Forms as forms;
ghost use Rattle.value_forms.specs.Words.{from_white, to_white};

use ix_base::{is_white, trim_start};

/// What stands before the first white space, and what is left.
fn cut_at_white(text: &str) -> (&str, &str)
    ensures front { result.0.now ≡ to_white text.now }
    ensures rest { result.1.now ≡ from_white text.now }
{
    for (i, byte) in text.as_bytes().iter().enumerate() {
        if is_white(*byte) {
            return (&text[..i], &text[i..]);
        }
    }
    (text, "")
}

/// The first word of a text, and what is behind it: words are what white space parts. It takes no memory.
pub fn first_word(text: &str) -> Option<(&str, &str)>
    ensures { MatchOption result (forms.words_of text.now ≡ [])
        (λ p. (forms.words_of text.now ≡ p.0.now ∷ forms.words_of p.1.now) × (length p.1.now < length text.now)) }
{
    let start = trim_start(text);
    if start.is_empty() {
        return None;
    }
    Some(cut_at_white(start))
}
