//! Bases that are parsed once, however much is joined to them.
ghost use Rattle.std.specs.Prelude.{◌≡◌, Some, IfOk, IfSome, option_copied, option_map};
ghost use Rattle.url.specs.Parts.{IsValid, serialize};
ghost use Rattle.ix_base.specs.Address as address;

use crate::link::{accepted, link_or, parsed_url, stands_alone};
use ix_base::{NoMemory, Text};
use std::alloc::Global;
use std::convert::AsStr;
use std::marker::Model;
use url::Url;

/// How a base came about: it was given as a text, which is a URL or isn't, or is a URL that was joined.
#[derive(Drop)]
enum Origin {
    Given(Text, Option<Url>),
    Joined(Url),
}

/// A base, with the URL that it is, where it is one. Contracts see it as its text.
pub struct ParsedBase {
    origin: Origin,
}

impl Drop for ParsedBase {
    fn drop(self) {
        let ParsedBase { origin: _ } = self;
    }
}

impl Model for ParsedBase {
    ghost use Rattle.std.specs.Prelude.{List, ℕ};

    ghost Value = { List ℕ };

    ghost use Rattle.scopes.specs.ParsedBases.{IsParsed, text_of};

    ghost view = { λ b. text_of b.origin };

    ghost invariant = { λ b. IsParsed b.origin };
}

/// The text as it stands. It takes no memory.
impl AsStr for ParsedBase {
    ghost text = { λ b. b };

    fn as_str(&self) -> &str {
        match &self.origin {
            Origin::Given(text, _) => text.as_str(),
            Origin::Joined(url) => url.as_str(),
        }
    }
}

/// The base that a URL is.
fn base_at(url: Url) -> ParsedBase
    requires back { address.url_of (serialize url) ≡ Some url }
    requires valid { IsValid url }
    ensures { result ≡ serialize url }
{
    ParsedBase {
        origin: Origin::Joined(url),
    }
}

impl ParsedBase {
    /// The base that a text is.
    pub fn of(alloc: Global, text: &str) -> Result<ParsedBase, NoMemory>
        ensures { IfOk result (λ b. b ≡ text.now) }
    {
        let url = parsed_url(alloc, text)?;
        let text = Text::of(alloc, text)?;
        Ok(ParsedBase {
            origin: Origin::Given(text, url),
        })
    }

    /// What the text is by itself.
    fn url(&self) -> Option<&Url>
        ensures url { option_copied result ≡ address.url_of self.now }
        ensures valid { IfSome result (λ url. IsValid url.now) }
    {
        match &self.origin {
            Origin::Given(_, url) => url.as_ref(),
            Origin::Joined(url) => Some(url),
        }
    }

    /// The URL that a text gives against the base. Its own text gives it again.
    fn url_with(&self, text: &str) -> Result<Option<Url>, NoMemory>
        ensures url { IfOk result (λ r. r ≡ address.joined_url self.now text.now) }
        ensures back { IfOk result (λ r. IfSome r (λ url. address.url_of (serialize url) ≡ Some url)) }
        ensures valid { IfOk result (λ r. IfSome r IsValid) }
    {
        match self.url() {
            Some(url) => accepted(url.join(text)),
            None => Ok(None),
        }
    }

    /// The base with a text joined to it, or none where the text can't be joined to it, so that the base stays. The base
    /// isn't parsed again, nor is what is made of it.
    pub fn joined(&self, text: &str) -> Result<Option<ParsedBase>, NoMemory>
        ensures { IfOk result (λ b. b ≡ option_map serialize (address.joined_url self.now text.now)) }
    {
        match self.url_with(text)? {
            Some(url) => Ok(Some(base_at(url))),
            None => Ok(None),
        }
    }

    /// The base with a text joined to it, or as it is where the text can't be joined to it.
    pub(crate) fn with(self, text: &str) -> Result<ParsedBase, NoMemory>
        ensures { IfOk result (λ b. b ≡ address.joined_or self text.now) }
    {
        match self.joined(text)? {
            Some(joined) => Ok(joined),
            None => Ok(self),
        }
    }

    /// The link that a text which doesn't stand alone is against the base.
    pub(crate) fn link(&self, alloc: Global, text: &str) -> Result<Text, NoMemory>
        ensures { IfOk result (λ t. t ≡ address.link_or text.now (address.joined_url self.now text.now)) }
    {
        let url = self.url_with(text)?;
        link_or(alloc, text, url)
    }

    /// The link that a text is against the base. It is the text itself where the text has more than 65,536 bytes or is a URL
    /// by itself, and where joining fails or gives no token of allowed characters. The base isn't parsed again.
    pub fn resolved(&self, alloc: Global, text: &str) -> Result<Text, NoMemory>
        ensures { IfOk result (λ t. t ≡ address.resolved self.now text.now) }
    {
        if stands_alone(alloc, text)? {
            return Text::of(alloc, text);
        }
        self.link(alloc, text)
    }
}

/// The link that a text is against a base, as [`ParsedBase::resolved`] tells, which parses a base once for many links.
pub fn resolved(alloc: Global, base: &str, text: &str) -> Result<Text, NoMemory>
    ensures { IfOk result (λ t. t ≡ address.resolved base.now text.now) }
{
    ParsedBase::of(alloc, base)?.resolved(alloc, text)
}
