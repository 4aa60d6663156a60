//! The words of an attribute's value, and the ids among them.
ghost use Rattle.std.specs.Prelude.{◌≡◌, ◌++◌, ◌∷◌, [], IfOk, OnOk, filter, map};
ghost use Rattle.ix_base.specs.Forms.{words_of};
ghost use Rattle.ix_base.specs.NcName.{is_ncname as spec_is_ncname};
ghost use Rattle.ix_base.specs.Once.{in_order};
ghost use Rattle.ix_base.specs.SortedLists.{text_cmp};

use ix_base::{NoMemory, each_once};
use scopes::is_ncname;
use std::alloc::Global;
use value_forms::first_word;

/// The words of a text.
pub(crate) fn words_in<'a>(alloc: Global, text: &'a str) -> Result<Vec<&'a str>, NoMemory>
    ensures { IfOk result (λ v. map (λ s. s.now) v.items ≡ words_of text.entry.now) }
{
    let mut words = Vec::new(alloc);
    let mut left = text;
    while let Some((word, rest)) = first_word(left) {
        words.push(word)?;
        left = rest;
    }
    Ok(words)
}

/// Adds a text at the end, where it may be an id.
fn push_id<'a>(ids: &mut Vec<&'a str>, text: &'a str) -> Result<(), NoMemory>
    ensures { OnOk result (map (λ s. s.now) ids.new.items
        ≡ map (λ s. s.now) ids.old.items ++ filter spec_is_ncname (text.entry.now ∷ [])) }
{
    if is_ncname(text) {
        ids.push(text)?;
    }
    Ok(())
}

/// The words of a text that may be ids, in order, each once.
pub fn ids_in<'a>(alloc: Global, text: &'a str) -> Result<Vec<&'a str>, NoMemory>
    ensures { IfOk result (λ v. map (λ s. s.now) v.items ≡ in_order text_cmp (filter spec_is_ncname (words_of text.entry.now))) }
{
    let words = words_in(alloc, text)?;
    let mut ids = Vec::new(alloc);
    for word in words.as_slice() {
        push_id(&mut ids, *word)?;
    }
    each_once(&mut ids);
    Ok(ids)
}
