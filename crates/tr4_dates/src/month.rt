//! Months, and the words for them.
ghost use Rattle.std.specs.Prelude.{◌≡◌, chars, IfOk};
ghost use Rattle.caseless.specs.Caseless.{canonical_key};
ghost use Rattle.tr4_dates.specs.Code.{rows_of};
ghost use Rattle.tr4_dates.specs.Languages.{names};
ghost use Rattle.tr4_dates.specs.Readers.{month_in, month_of};

use crate::format::Language;
use crate::run::{Set, begins, ends};
use caseless::canonical_caseless_match_str;
use ix_base::NoMemory;
use std::alloc::Global;
use std::str::from_utf8;

/// The names of the months, each with its month.
const ENGLISH: &[(&str, u16)] = &[
    ("January", 1),
    ("Jan", 1),
    ("February", 2),
    ("Feb", 2),
    ("March", 3),
    ("Mar", 3),
    ("April", 4),
    ("Apr", 4),
    ("May", 5),
    ("June", 6),
    ("Jun", 6),
    ("July", 7),
    ("Jul", 7),
    ("August", 8),
    ("Aug", 8),
    ("September", 9),
    ("Sep", 9),
    ("Sept", 9),
    ("October", 10),
    ("Oct", 10),
    ("November", 11),
    ("Nov", 11),
    ("December", 12),
    ("Dec", 12),
];

const GERMAN: &[(&str, u16)] = &[
    ("Januar", 1),
    ("Jänner", 1),
    ("Jan", 1),
    ("Februar", 2),
    ("Feb", 2),
    ("März", 3),
    ("Maerz", 3),
    ("Mär", 3),
    ("Mrz", 3),
    ("April", 4),
    ("Apr", 4),
    ("Mai", 5),
    ("Juni", 6),
    ("Jun", 6),
    ("Juli", 7),
    ("Jul", 7),
    ("August", 8),
    ("Aug", 8),
    ("Sept", 9),
    ("September", 9),
    ("Sep", 9),
    ("Oktober", 10),
    ("Okt", 10),
    ("November", 11),
    ("Nov", 11),
    ("Dezember", 12),
    ("Dez", 12),
];

const FRENCH: &[(&str, u16)] = &[
    ("janvier", 1),
    ("janv", 1),
    ("février", 2),
    ("fevrier", 2),
    ("févr", 2),
    ("fevr", 2),
    ("mars", 3),
    ("avril", 4),
    ("avr", 4),
    ("mai", 5),
    ("juin", 6),
    ("juillet", 7),
    ("juil", 7),
    ("août", 8),
    ("aout", 8),
    ("septembre", 9),
    ("sept", 9),
    ("octobre", 10),
    ("oct", 10),
    ("novembre", 11),
    ("nov", 11),
    ("décembre", 12),
    ("decembre", 12),
    ("déc", 12),
    ("dec", 12),
];

const SPANISH: &[(&str, u16)] = &[
    ("enero", 1),
    ("ene", 1),
    ("febrero", 2),
    ("feb", 2),
    ("marzo", 3),
    ("mar", 3),
    ("abril", 4),
    ("abr", 4),
    ("mayo", 5),
    ("may", 5),
    ("junio", 6),
    ("jun", 6),
    ("julio", 7),
    ("jul", 7),
    ("agosto", 8),
    ("ago", 8),
    ("septiembre", 9),
    ("setiembre", 9),
    ("sep", 9),
    ("sept", 9),
    ("octubre", 10),
    ("oct", 10),
    ("noviembre", 11),
    ("nov", 11),
    ("diciembre", 12),
    ("dic", 12),
];

const ITALIAN: &[(&str, u16)] = &[
    ("gennaio", 1),
    ("gen", 1),
    ("febbraio", 2),
    ("feb", 2),
    ("marzo", 3),
    ("mar", 3),
    ("aprile", 4),
    ("apr", 4),
    ("maggio", 5),
    ("mag", 5),
    ("giugno", 6),
    ("giu", 6),
    ("luglio", 7),
    ("lug", 7),
    ("agosto", 8),
    ("ago", 8),
    ("settembre", 9),
    ("set", 9),
    ("sett", 9),
    ("ottobre", 10),
    ("ott", 10),
    ("novembre", 11),
    ("nov", 11),
    ("dicembre", 12),
    ("dic", 12),
];

const DUTCH: &[(&str, u16)] = &[
    ("januari", 1),
    ("jan", 1),
    ("februari", 2),
    ("feb", 2),
    ("maart", 3),
    ("mrt", 3),
    ("april", 4),
    ("apr", 4),
    ("mei", 5),
    ("juni", 6),
    ("jun", 6),
    ("juli", 7),
    ("jul", 7),
    ("augustus", 8),
    ("aug", 8),
    ("september", 9),
    ("sep", 9),
    ("sept", 9),
    ("oktober", 10),
    ("okt", 10),
    ("november", 11),
    ("nov", 11),
    ("december", 12),
    ("dec", 12),
];

/// The names of the months in a language.
fn names_in(language: Language) -> &'static [(&'static str, u16)]
    ensures { rows_of result.now ≡ names language }
{
    match language {
        Language::En => ENGLISH,
        Language::De => GERMAN,
        Language::Fr => FRENCH,
        Language::Es => SPANISH,
        Language::It => ITALIAN,
        Language::Nl => DUTCH,
    }
}

/// The month that a text names among the rows.
fn month_among(alloc: Global, rows: &[(&str, u16)], text: &str) -> Result<Option<u16>, NoMemory>
    ensures { IfOk result (λ r. r ≡ month_in (rows_of rows.now) (canonical_key (chars text.now))) }
{
    for (name, month) in rows {
        if canonical_caseless_match_str(alloc, text, name)? {
            return Ok(Some(*month));
        }
    }
    Ok(None)
}

/// The month that the piece names; none where it is no name.
#[tactic(auto, using(crate::proofs::CodeLemmas::month_refused, crate::proofs::CodeLemmas::month_read))]
pub fn month_named(
    alloc: Global,
    language: Language,
    piece: &[u8],
) -> Result<Option<Option<u16>>, NoMemory>
    ensures { IfOk result (λ r. r ≡ month_of language piece.now) }
{
    if !begins(Set::Letters, piece) || !ends(Set::Letters, piece) {
        return Ok(None);
    }
    match from_utf8(piece) {
        Err(_) => Ok(None),
        Ok(text) => match month_among(alloc, names_in(language), text)? {
            None => Ok(None),
            Some(month) => Ok(Some(Some(month))),
        },
    }
}
