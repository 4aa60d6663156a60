//! The characters that a page may have.
ghost use Rattle.std.specs.Prelude.{◌≡◌, chars};
ghost use Rattle.std.specs.List.{list_all};
ghost use Rattle.ix_base.specs.NcName as nc_name;

/// Whether a page may have a character (XML 1.0, section 2.2, production 2).
#[tactic(auto, unfolding(crate::specs::NcName::is_allowed))]
pub fn is_allowed(ch: char) -> bool
    ensures { result ≡ nc_name.is_allowed ch }
{
    matches!(ch, '\t' | '\n' | '\r' | '\u{20}'..='\u{D7FF}' | '\u{E000}'..='\u{FFFD}' | '\u{10000}'..='\u{10FFFF}')
}

fn each_allowed(text: &str) -> bool
    ensures { result ≡ list_all nc_name.is_allowed (chars text.now) }
{
    text.chars().all(|ch| is_allowed(ch))
}

/// Whether a page may have each character of a text. It takes no memory.
pub fn are_allowed(text: &str) -> bool
    ensures { result ≡ nc_name.are_allowed text.now }
{
    each_allowed(text)
}
