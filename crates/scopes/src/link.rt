//! Texts as URLs (the URL Standard), and as links.
ghost use Rattle.std.specs.Prelude.{◌≡◌, ◌||◌, nat_lt, is_some, length, IfOk, IfSome};
ghost use Rattle.url.specs.Parser.{Gives, Parsed, parse_url};
ghost use Rattle.url.specs.Parts.{Parts, IsValid};
ghost use Rattle.ix_base.specs.Address as address;

use ix_base::limits::LONGEST_LINK;
use ix_base::{NoMemory, Text, are_allowed, token};
use std::alloc::Global;
use url::{ParseError, ParseResult, Url};

/// The URL, or none where the text is refused. A text that is too long for a URL is want of memory.
pub(crate) fn accepted(given: ParseResult<Url>) -> Result<Option<Url>, NoMemory>
    ensures url { IfOk result (λ r. (expected : Parsed Parts) → Gives given expected → r ≡ address.accepted expected) }
    ensures valid { IfOk result (λ r. IfSome r IsValid) }
{
    match given {
        Ok(url) => {
            // That its parts are valid is said of a URL where its text is read.
            let _ = url.as_str();
            Ok(Some(url))
        }
        Err(ParseError::Overflow) => Err(NoMemory),
        Err(ParseError::OutOfMemory) => Err(NoMemory),
        Err(_) => Ok(None),
    }
}

/// The URL that a text is by itself, without a base (the URL Standard, section 4.4). None where it is none. A text that is too
/// long for a URL is want of memory.
pub fn parsed_url(alloc: Global, text: &str) -> Result<Option<Url>, NoMemory>
    ensures url { IfOk result (λ r. r ≡ address.url_of text.now) }
    ensures valid { IfOk result (λ r. IfSome r IsValid) }
{
    accepted(Url::parse(alloc, text))
}

#[tactic(auto, unfolding(ix_base::specs::Token::is_token))]
fn is_link(text: &str) -> bool
    ensures { result ≡ address.is_link text.now }
{
    !text.is_empty() && token(text) == text && are_allowed(text)
}

/// Whether a link stays as it is written, whatever the base: its text is too long, or is a URL by itself.
pub(crate) fn stands_alone(alloc: Global, text: &str) -> Result<bool, NoMemory>
    ensures { IfOk result (λ b. b ≡ (nat_lt address.longest_link (length text.now) || is_some (address.url_of text.now))) }
{
    Ok(LONGEST_LINK < text.len() || parsed_url(alloc, text)?.is_some())
}

/// The link, or the text where it gives none.
pub(crate) fn link_or(alloc: Global, text: &str, url: Option<Url>) -> Result<Text, NoMemory>
    ensures { IfOk result (λ t. t ≡ address.link_or text.now url) }
{
    match url {
        Some(url) if is_link(url.as_str()) => Text::of(alloc, url.as_str()),
        _ => Text::of(alloc, text),
    }
}
