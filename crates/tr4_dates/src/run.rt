//! Sets of bytes, and runs of them at the front of a text.
ghost use Rattle.std.specs.Prelude.{◌+◌, ◌-◌, ◌≡◌, ◌≤◌, ◌&&◌, length, true, false, get_or};
ghost use Rattle.tr4_dates.specs.Code.{set_named};
ghost use Rattle.tr4_dates.specs.Runs.{class_of, begins_in, ends_in, run, after};

/// Sets of bytes. Signs are neither ASCII digits nor ASCII letters; others are no ASCII digits.
#[derive(Clone, Copy)]
pub enum Set {
    Digits,
    Letters,
    Others,
    Signs,
    Alphanumerics,
}

/// Whether the byte is in the set.
pub fn has(set: Set, byte: u8) -> bool
    ensures { result ≡ set_named set (class_of byte) }
{
    match set {
        Set::Digits => byte.is_ascii_digit(),
        Set::Letters => byte.is_ascii_alphabetic(),
        Set::Others => !byte.is_ascii_digit(),
        Set::Signs => !byte.is_ascii_digit() && !byte.is_ascii_alphabetic(),
        Set::Alphanumerics => byte.is_ascii_digit() || byte.is_ascii_alphabetic(),
    }
}

/// The length of the longest front in the set.
pub fn run_len(set: Set, text: &[u8]) -> usize
    ensures exact { result ≡ length (run (set_named set) text.now) }
    ensures fits { result ≤ length text.now }
{
    let mut len = 0;
    while len < text.len() && has(set, text[len]) {
        len += 1;
    }
    len
}

/// The longest front in the set, and the rest.
#[tactic(auto, using(crate::proofs::CodeLemmas::runs))]
pub fn split_run(set: Set, text: &[u8]) -> (&[u8], &[u8])
    ensures front { result.0.now ≡ run (set_named set) text.now }
    ensures back { result.1.now ≡ after (set_named set) text.now }
    ensures lengths { length result.0.now + length result.1.now ≡ length text.now }
{
    text.split_at(run_len(set, text))
}

/// Whether the text begins with a byte of the set.
pub fn begins(set: Set, text: &[u8]) -> bool
    ensures { result ≡ begins_in (set_named set) text.now }
{
    match text {
        [] => false,
        [byte, ..] => has(set, *byte),
    }
}

/// Whether the text ends in a byte of the set.
#[tactic(auto, using(crate::proofs::CodeLemmas::ends_at))]
pub fn ends(set: Set, text: &[u8]) -> bool
    ensures { result ≡ ends_in (set_named set) text.now }
{
    0 < text.len() && has(set, text[text.len() - 1])
}
