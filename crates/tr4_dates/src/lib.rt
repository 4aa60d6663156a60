//! Dates: the formats of the XBRL Transformation Rules Registry 4 that give days, months and years.
//!
//! A format is a layout, which says of which parts its texts are joined, and a language, which has the names of the
//! months. No part speaks of its place in the text; that reading from the front finds the parts, and that a text has
//! one value at most, is proved. The names of the formats are the registry's; the layouts, the names of the months and
//! the values are this project's own, and that they are the published ones isn't claimed.
#![tactic(auto)]

ghost use Rattle.std.specs.Prelude.{◌≡◌, ℕ, List, IfOk, IsErrOf};
ghost use Rattle.tr4_dates.specs.Languages.{names};
ghost use Rattle.tr4_dates.specs.Parts.{IsNameIn};
ghost use Rattle.tr4_dates.specs.Transformation.{Tr};
ghost use Rattle.tr4_dates.specs.declared.TrFault.TheVariants as fault;
ghost use Rattle.tr4_dates.specs.declared.format.DateFormat.{DateFormat};
ghost use Rattle.tr4_dates.specs.declared.format.Language.{Language};

mod format;
mod month;
mod part;
mod read;
mod run;
mod value;

use crate::format::{language_in, layout_in, parts_in};
use crate::read::fields_in;
use crate::value::{is_real, written};
pub use format::{DateFormat, Language};
use ix_base::{NoMemory, Text};
use std::alloc::Global;
use thiserror::Error;

/// Why a text has no value.
#[derive(Clone, Copy, Debug, PartialEq, Eq, Error)]
pub enum TrFault {
    /// The format relates the text to no value.
    #[error("the text isn't in the format")]
    NotInGrammar,
    /// Want of memory.
    #[error("no memory is left")]
    NoMemory,
}

impl From<NoMemory> for TrFault {
    ghost use Rattle.std.specs.Prelude.{◌≡◌};
    ghost use Rattle.tr4_dates.specs.declared.TrFault.TheVariants as fault;

    ghost from_gives = { λ _ e. e ≡ fault.NoMemory };

    fn from(_error: NoMemory) -> TrFault {
        TrFault::NoMemory
    }
}

/// The value that the format relates to the text: `YYYY-MM-DD`, `--MM-DD` or `YYYY-MM`.
///
/// `NotInGrammar` comes exactly where the format relates the text to no value.
#[tactic(auto, using(crate::proofs::FormatLaws::formats))]
pub fn apply(alloc: Global, format: DateFormat, text: &str) -> Result<Text, TrFault>
    ensures value { IfOk result (λ v. Tr format text.now v) }
    ensures only { (v : List ℕ) → Tr format text.now v → IfOk result (λ r. r ≡ v) }
    ensures refused { IsErrOf result fault.NotInGrammar → (v : List ℕ) → Tr format text.now v → ⊥ }
{
    match fields_in(
        alloc,
        language_in(format),
        parts_in(layout_in(format)),
        text.as_bytes(),
    )? {
        None => Err(TrFault::NotInGrammar),
        Some(said) => {
            if !is_real(said) {
                return Err(TrFault::NotInGrammar);
            }
            Ok(written(alloc, said)?)
        }
    }
}

/// A text has one value at most in a format.
pub fn one_value()
    ensures { (format : DateFormat) → (text a b : List ℕ) → Tr format text a → Tr format text b → a ≡ b }
{}

/// No text matches names of two months of one language.
pub fn one_month()
    ensures { (l : Language) (text : List ℕ) (m n : ℕ) → IsNameIn (names l) text m → IsNameIn (names l) text n → m ≡ n }
{}
