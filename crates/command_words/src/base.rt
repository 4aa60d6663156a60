//! The word of the command line to which links are joined (the URL Standard).
ghost use Rattle.std.specs.Prelude.{◌≡◌, IfOk};
ghost use Rattle.command_words.specs.Bases as bases;

use ix_base::NoMemory;
use ix_base::limits::LONGEST_LINK;
use scopes::parsed_url;
use std::alloc::Global;
use url::Url;

#[tactic(auto, unfolding(crate::specs::Bases::is_web_scheme))]
fn is_web_scheme(scheme: &str) -> bool
    ensures { result ≡ bases.is_web_scheme scheme.now }
{
    scheme == "http" || scheme == "https"
}

fn is_web_url(url: &Option<Url>) -> bool
    ensures { result ≡ bases.is_web_url url.now }
{
    match url {
        Some(url) => is_web_scheme(url.scheme()),
        None => false,
    }
}

/// Whether a word isn't longer than a base may be, and is by itself a URL of the web.
pub fn is_base(alloc: Global, word: &str) -> Result<bool, NoMemory>
    ensures { IfOk result (λ b. b ≡ bases.is_base word.now) }
{
    if word.len() <= LONGEST_LINK {
        let url = parsed_url(alloc, word)?;
        Ok(is_web_url(&url))
    } else {
        Ok(false)
    }
}
