//! What stands in a nonNumeric of a page, plain and as markup.
ghost use Rattle.std.specs.Prelude.{◌<◌, All, IfOk, IfSome, length};
ghost use Rattle.ix_base.specs.declared.limits.TheConstants.{DEEPEST_ELEMENT};
ghost use Rattle.ix_base.specs.Elements.{place_of};
ghost use Rattle.ix_base.specs.Sound.{IsSoundRoot};
ghost use Rattle.ix_base.specs.Spots.{IsOnOnePage};

use crate::sound_pages::sound_root;
use anyhow::{Context, Result, bail, ensure};
use bumpalo::Bump;
use escape_text::{markup, markup_as_is, plain};
use id_table::Index;
use ix_base::namespaces::XHTML;
use ix_base::{Element, Kind, NoMemory, Spot, Text, kind_of};
use row_tables::{Cell, owned};
use scopes::Bases;
use std::alloc::Global;

/// The first nonNumeric of an index.
fn first_in<'a>(index: &Index<'a>) -> Option<&'a Spot<'a>>
    ensures { IfSome result (λ s. IsOnOnePage s.now) }
{
    for spot in index.spots() {
        if kind_of(spot) == Kind::NonNumeric {
            return Some(*spot);
        }
    }
    None
}

/// The first nonNumeric of a page, which an index takes that has none.
fn first_text<'a>(
    arena: &'a Bump,
    root: &'a Element<'a>,
    index: &mut Index<'a>,
) -> Result<&'a Spot<'a>>
    requires { IsSoundRoot root.now 0 DEEPEST_ELEMENT }
    ensures { IfOk result (λ s. IsOnOnePage s.now) }
{
    index.add_page(arena, root)?;
    first_in(index).context("no text")
}

/// Appends the markup within no namespace of what the elements of a chain hold, with links as they are written.
fn push_written(alloc: Global, chain: &[&Spot<'_>], text: &mut Text) -> Result<(), NoMemory> {
    for spot in chain {
        markup_as_is(alloc, spot.element.children, "", text)?;
    }
    Ok(())
}

/// Appends what the elements of a chain hold: the plain text, the markup within the namespace of xhtml, or the markup within none
/// with links as they are written.
fn push_held(
    alloc: Global,
    which: &str,
    chain: &[&Spot<'_>],
    bases: &Bases,
    text: &mut Text,
) -> Result<()>
    requires bases { All (λ s. (place_of s.now).page < length bases.now.pages) chain.now }
    requires pages { All (λ s. IsOnOnePage s.now) chain.now }
{
    match which {
        "plain" => plain(chain, text)?,
        "resolved" => markup(alloc, chain, bases, XHTML, text)?,
        "written" => push_written(alloc, chain, text)?,
        _ => bail!("no such text"),
    }
    Ok(())
}

/// What the elements of a chain hold, as text or as markup.
fn text_of(alloc: Global, which: &str, chain: &[&Spot<'_>], bases: &Bases) -> Result<Text>
    requires bases { All (λ s. (place_of s.now).page < length bases.now.pages) chain.now }
    requires pages { All (λ s. IsOnOnePage s.now) chain.now }
{
    let mut text = Text::of(alloc, "")?;
    push_held(alloc, which, chain, bases, &mut text)?;
    Ok(text)
}

/// What an element of a page holds, against the base of the page.
fn text_on(alloc: Global, which: &Cell, spot: &Spot<'_>, root: &Element<'_>) -> Result<Text>
    requires { IsOnOnePage spot.now }
{
    ensure!(spot.element.place.page == 0, "another page");
    let mut bases = Bases::new(alloc);
    bases.add_page("http://example.com/r/", "a.html", root)?;
    text_of(alloc, which.text()?, &[spot], &bases)
}

/// One of the three texts of a page's first nonNumeric. The index takes the page, and has none before.
pub(crate) fn text<'a>(
    alloc: Global,
    arena: &'a Bump,
    index: &mut Index<'a>,
    cells: &[Cell],
) -> Result<String> {
    let [which, page] = cells else {
        bail!("which text, and a page, are wanted");
    };
    let root = sound_root(alloc, arena, 0, page.text()?)?;
    let spot = first_text(arena, root, index)?;
    let text = text_on(alloc, which, spot, root)?;
    owned(alloc, text.as_str())
}
