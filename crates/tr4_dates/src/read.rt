//! Reading a text from the front, part by part.
ghost use Rattle.std.specs.Prelude.{◌+◌, ◌-◌, ◌≡◌, ◌≤◌, ◌&&◌, nat_le, if◌then◌else◌, length, drop, take, map, bytes_eq, IfOk, IfSome, Some, None, Option, true, false};
ghost use Rattle.std.specs.Char.{to_ascii_lowercase};
ghost use Rattle.tr4_dates.specs.Languages.{has_links};
ghost use Rattle.tr4_dates.specs.Parts.{is_link_word, is_ordinal, is_year_size};
ghost use Rattle.tr4_dates.specs.Readers.{separator, closes, name_at, piece_at, says, read, small, year, when, is_number_part};
ghost use Rattle.tr4_dates.specs.Runs.{class_of, digits, letters, all_in, begins_in, number};

use crate::format::Language;
use crate::month::month_named;
use crate::part::{Fields, Part, put};
use crate::run::{Set, begins, has, run_len, split_run};
use ix_base::NoMemory;
use std::alloc::Global;

/// Whether de or del may stand within a separator.
fn has_links_in(language: Language) -> bool
    ensures { result ≡ has_links language }
{
    match language {
        Language::Es => true,
        Language::En | Language::De | Language::Fr | Language::It | Language::Nl => false,
    }
}

/// Whether the word is de or del.
fn is_link_word(word: &[u8]) -> bool
    ensures { result ≡ is_link_word word.now }
{
    word.eq_ignore_ascii_case(b"de") || word.eq_ignore_ascii_case(b"del")
}

/// The length of the separator at the front.
#[tactic(auto, using(crate::proofs::CodeLemmas::separator_linked, crate::proofs::CodeLemmas::separator_plain))]
fn separator_len(language: Language, text: &[u8]) -> usize
    ensures { result ≡ length (separator language text.now) }
{
    let (front, rest) = split_run(Set::Signs, text);
    let (word, behind) = split_run(Set::Letters, rest);
    if has_links_in(language) && is_link_word(word) && begins(Set::Signs, behind) {
        front.len() + (word.len() + run_len(Set::Signs, behind))
    } else {
        front.len()
    }
}

/// Whether a letter stands behind the separator at the front.
#[tactic(auto, using(crate::proofs::CodeLemmas::separator_fits))]
fn is_letter_next(language: Language, text: &[u8]) -> bool
    ensures { result ≡ begins_in letters (drop (length (separator language text.now)) text.now) }
{
    let (_, behind) = text.split_at(separator_len(language, text));
    begins(Set::Letters, behind)
}

/// Whether the byte is a letter and a name may end behind it. What lies behind a separator is looked at only where one
/// begins, so all such looks at a text together take time in proportion to its length.
#[tactic(auto, unfolding(crate::specs::Readers::closes))]
fn ends_name(language: Language, byte: u8, behind: &[u8]) -> bool
    ensures { result ≡ (letters (class_of byte) && closes language behind.now) }
{
    has(Set::Letters, byte)
        && !begins(Set::Alphanumerics, behind)
        && !is_letter_next(language, behind)
}

/// The length of the name at the front.
fn name_len(language: Language, text: &[u8]) -> usize
    ensures { result ≡ length (name_at language text.now) }
{
    let mut len = 0;
    while len < text.len() {
        let (_, behind) = text.split_at(len + 1);
        if ends_name(language, text[len], behind) {
            return len + 1;
        }
        len += 1;
    }
    len
}

/// The length of the piece that the part takes.
#[tactic(auto, unfolding(crate::specs::Readers::piece_at))]
fn piece_len(language: Language, part: Part, text: &[u8]) -> usize
    ensures { result ≡ length (piece_at language part text.now) }
{
    match part {
        Part::Day | Part::Month | Part::Year => run_len(Set::Digits, text),
        Part::Gap | Part::Tail => run_len(Set::Others, text),
        Part::Signs => separator_len(language, text),
        Part::Edge => run_len(Set::Signs, text),
        Part::Ordinal => run_len(Set::Letters, text),
        Part::Name => name_len(language, text),
    }
}

/// What a digit says.
fn digit_of(byte: u8) -> u16
    requires { digits (class_of byte) ≡ true }
    ensures value { result ≡ byte - 48 }
    ensures small { result ≤ 9 }
{
    (byte - b'0') as u16
}

/// The number that one, two or four digits say.
#[tactic(auto, using(crate::proofs::DigitLemmas::digit_sums))]
fn number_of(piece: &[u8]) -> Option<u16>
    requires { all_in digits piece.now ≡ true }
    ensures exact { result ≡ (if is_year_size (length piece.now) then Some (number piece.now) else None) }
    ensures small { IfSome result (λ n. n ≤ 9999) }
{
    match piece {
        [a] => Some(digit_of(*a)),
        [a, b] => Some(digit_of(*a) * 10 + digit_of(*b)),
        [a, b, c, d] => {
            Some(digit_of(*a) * 1000 + digit_of(*b) * 100 + digit_of(*c) * 10 + digit_of(*d))
        }
        _ => None,
    }
}

/// The number of a day or a month, up to the limit.
fn small_of(limit: u16, piece: &[u8]) -> Option<Option<u16>>
    requires { all_in digits piece.now ≡ true }
    ensures { result ≡ small limit piece.now }
{
    if piece.len() > 2 {
        return None;
    }
    match number_of(piece) {
        Some(number) if 1 <= number && number <= limit => Some(Some(number)),
        _ => None,
    }
}

/// The number of a year.
fn year_in(piece: &[u8]) -> Option<Option<u16>>
    requires { all_in digits piece.now ≡ true }
    ensures { result ≡ year piece.now }
{
    let number = number_of(piece)?;
    let year = if piece.len() <= 2 {
        2000 + number
    } else {
        number
    };
    if year == 0 {
        return None;
    }
    Some(Some(year))
}

/// Whether the word in lower case is the other.
fn is_word(word: &[u8], low: &[u8]) -> bool
    requires { map to_ascii_lowercase low.now ≡ low.now }
    ensures { result ≡ bytes_eq (map to_ascii_lowercase word.now) low.now }
{
    word.eq_ignore_ascii_case(low)
}

/// Whether the letters may stand behind a day's digits.
#[tactic(auto, using(crate::proofs::CodeLemmas::is_nil_map))]
fn is_ordinal_word(language: Language, word: &[u8]) -> bool
    ensures { result ≡ is_ordinal language (map to_ascii_lowercase word.now) }
{
    match language {
        Language::En => {
            word.is_empty()
                || is_word(word, b"st")
                || is_word(word, b"nd")
                || is_word(word, b"rd")
                || is_word(word, b"th")
        }
        Language::Fr => word.is_empty() || is_word(word, b"er"),
        Language::De | Language::Es | Language::It | Language::Nl => word.is_empty(),
    }
}

/// Nothing said where the test holds.
fn filled(holds: bool) -> Option<Option<u16>>
    ensures { result ≡ when holds None }
{
    if holds { Some(None) } else { None }
}

/// What the piece says; none where it isn't in the part's set.
#[tactic(auto, unfolding(crate::specs::Readers::says))]
fn said(
    alloc: Global,
    language: Language,
    part: Part,
    piece: &[u8],
) -> Result<Option<Option<u16>>, NoMemory>
    requires { is_number_part part ≡ true → all_in digits piece.now ≡ true }
    ensures { IfOk result (λ r. r ≡ says language part piece.now) }
{
    match part {
        Part::Day => Ok(small_of(31, piece)),
        Part::Month => Ok(small_of(12, piece)),
        Part::Year => Ok(year_in(piece)),
        Part::Gap => Ok(filled(1 <= piece.len())),
        Part::Signs => Ok(filled(begins(Set::Signs, piece))),
        Part::Tail | Part::Edge => Ok(Some(None)),
        Part::Ordinal => Ok(filled(is_ordinal_word(language, piece))),
        Part::Name => month_named(alloc, language, piece),
    }
}

/// The numbers that the text says; none where the parts don't join to it.
#[tactic(auto, using(crate::proofs::CodeLemmas::reading))]
pub fn fields_in(
    alloc: Global,
    language: Language,
    parts: &[Part],
    text: &[u8],
) -> Result<Option<Fields>, NoMemory>
    ensures { IfOk result (λ r. r ≡ read language parts.now text.now) }
{
    match parts.split_first() {
        None => {
            if text.is_empty() {
                Ok(Some(Fields {
                    year: None,
                    month: None,
                    day: None,
                }))
            } else {
                Ok(None)
            }
        }
        Some((part, rest)) => {
            let (piece, behind) = text.split_at(piece_len(language, *part, text));
            match said(alloc, language, *part, piece)? {
                None => Ok(None),
                Some(own) => match fields_in(alloc, language, rest, behind)? {
                    None => Ok(None),
                    Some(more) => Ok(Some(put(*part, own, more))),
                },
            }
        }
    }
}
