//! Which words name pages.
ghost use Rattle.std.specs.Prelude.{◌≡◌, bytes_eq};
ghost use Rattle.std.specs.List.{list_any, list_all};
ghost use Rattle.page_names.specs.Names.{has_repeat, is_page_name};
ghost use Rattle.command_words.specs.Names.{are_pages};

use ix_base::Text;
use ix_base::limits::MOST_PAGES;
use page_names::is_page_name;

fn are_page_names(names: &[Text]) -> bool
    ensures { result ≡ list_all is_page_name names.now }
{
    names.iter().all(|name| is_page_name(name.as_str()))
}

fn is_among(name: &Text, names: &[Text]) -> bool
    ensures { result ≡ list_any (bytes_eq name.now) names.now }
{
    names.iter().any(|other| name.is_same(other))
}

/// Whether a name stands twice.
#[tactic(auto, unfolding(page_names::specs::Names::has_repeat))]
fn has_repeat(names: &[Text]) -> bool
    ensures { result ≡ has_repeat names.now }
{
    match names {
        [] => false,
        [name, rest @ ..] => is_among(name, rest) || has_repeat(rest),
    }
}

/// Whether these are names of pages: one at least, not more than a set may have, and all different.
pub fn are_pages(names: &[Text]) -> bool
    ensures { result ≡ are_pages names.now }
{
    !names.is_empty() && names.len() <= MOST_PAGES && are_page_names(names) && !has_repeat(names)
}
