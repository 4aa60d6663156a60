//! Names, links and bases.
ghost use Rattle.std.specs.Prelude.{◌≡◌, [], OnOk, length};

use crate::elements::first_child;
use crate::pages::root_of;
use anyhow::{Result, bail, ensure};
use bumpalo::Bump;
use ix_base::{Element, NameFault, NoMemory, Scope, Spot, Text};
use row_tables::{Cell, owned, push_name, yes_or_no};
use scopes::{Bases, is_ncname, resolve, resolved};
use std::alloc::Global;

/// The base of the command, for bases.
const BASE: &str = "http://example.com/r/";

/// The number of a page behind another.
const SECOND: u32 = 1;

/// Appends the name for which a written one stands in a scope, or why it stands for none.
fn push_resolved(written: &str, scope: Scope<'_>, text: &mut String) -> Result<()> {
    match resolve(written, scope) {
        Ok(name) => push_name(text, name.ns, name.local)?,
        Err(NameFault::BadForm) => text.push_str("bad form")?,
        Err(NameFault::Unbound) => text.push_str("unbound")?,
    }
    Ok(())
}

/// The name for which a written one stands in the scope of a page's root.
pub(crate) fn qualified(alloc: Global, arena: &Bump, page: &[u8], written: &str) -> Result<String> {
    let root = root_of(alloc, arena, page, 0)?;
    let mut text = String::new(alloc);
    push_resolved(written, root.scope, &mut text)?;
    Ok(text)
}

/// Whether a text is a name without a colon.
pub(crate) fn ncname(alloc: Global, text: &str) -> Result<String> {
    owned(alloc, yes_or_no(is_ncname(text)))
}

/// The link that a text is against a base.
pub(crate) fn link(alloc: Global, base: &str, text: &str) -> Result<String> {
    let link = resolved(alloc, base, text)?;
    owned(alloc, link.as_str())
}

/// The spot of a root, in the arena.
fn root_spot<'a>(arena: &'a Bump, root: &'a Element<'a>) -> Result<&'a Spot<'a>, NoMemory> {
    let spot = arena.try_alloc(Spot {
        element: root,
        up: None,
    })?;
    Ok(spot)
}

/// The spot of a root, or of the first element in it.
fn spot_of<'a>(arena: &'a Bump, root: &'a Element<'a>, which: &str) -> Result<Spot<'a>> {
    match which {
        "root" => Ok(Spot {
            element: root,
            up: None,
        }),
        "child" => Ok(Spot {
            element: first_child(root)?,
            up: Some(root_spot(arena, root)?),
        }),
        _ => bail!("neither the root nor the child"),
    }
}

/// Adds a page of this name behind another, where there is none yet.
fn add_second(bases: &mut Bases, name: &str, root: &Element<'_>) -> Result<(), NoMemory>
    requires { bases.old.pages ≡ [] }
    ensures { OnOk result (length bases.new.pages ≡ 2) }
{
    bases.add_page(BASE, "first.html", root)?;
    bases.add_page(BASE, name, root)
}

/// The base of the root of the second of two pages, or of the first element in it.
fn base_in<'a>(bases: &Bases, arena: &'a Bump, root: &'a Element<'a>, which: &str) -> Result<Text>
    requires { length bases.now.pages ≡ 2 }
{
    let spot = spot_of(arena, root, which)?;
    ensure!(
        spot.element.place.page == SECOND,
        "an element of another page"
    );
    Ok(bases.of(&spot)?)
}

/// The base of the root of a page of this name, or of the first element in it. The page is added behind another.
fn second_base<'a>(
    alloc: Global,
    arena: &'a Bump,
    root: &'a Element<'a>,
    name: &str,
    which: &str,
) -> Result<Text> {
    let mut bases = Bases::new(alloc);
    add_second(&mut bases, name, root)?;
    base_in(&bases, arena, root, which)
}

/// The base of the root of a page, or of the first element in it. The page is added behind another.
pub(crate) fn base(alloc: Global, arena: &Bump, cells: &[Cell]) -> Result<String> {
    let [name, page, which] = cells else {
        bail!("a name, a page, and which element, are wanted");
    };
    let root = root_of(alloc, arena, page.bytes(), SECOND)?;
    let base = second_base(alloc, arena, root, name.text()?, which.text()?)?;
    owned(alloc, base.as_str())
}
