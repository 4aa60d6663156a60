//! Prefixes of namespaces.
ghost use Rattle.std.specs.Prelude.{◌≡◌, ◌<◌, ◌∷◌, [], ℕ, List, Some, option_map, unwrap_or, IfOk, OnOk, if◌then◌else◌, bytes_eq};
ghost use Rattle.std.specs.Ordering.{nat_cmp};
ghost use Rattle.std.specs.Cmp.Lexicographic.{slice_cmp};
ghost use Rattle.std.specs.BTreeMap.{get_by};
ghost use Rattle.ix_base.specs.WrittenMarkup.{attrs_text};
ghost use Rattle.instance_lines.specs.Canonical.{root_line};
ghost use Rattle.instance_lines.specs.Gains.{Gains};
ghost use Rattle.instance_lines.specs.Prefixes.{xml, fixed, declared_for, declaration, is_known as known, name_text, numeral};
ghost use Rattle.instance_lines.specs.SpelledNames.{spelled as spelled_name, start_in};
ghost use Rattle.instance_lines.specs.Tables.{Agrees, values_of};

use crate::markup::{Valued, push_attribute};
use crate::spelled::Spelled;
use ix_base::{NoMemory, OwnName, Text};
use std::alloc::Global;
use std::collections::BTreeMap;
use std::marker::Model;

/// The root's start tag up to the declarations of the prefixes that every instance has.
const ROOT: &str = "<xbrli:xbrl xmlns:iso4217=\"http://www.xbrl.org/2003/iso4217\" \
    xmlns:link=\"http://www.xbrl.org/2003/linkbase\" xmlns:xbrldi=\"http://xbrl.org/2006/xbrldi\" \
    xmlns:xbrli=\"http://www.xbrl.org/2003/instance\" xmlns:xlink=\"http://www.w3.org/1999/xlink\" \
    xmlns:xsi=\"http://www.w3.org/2001/XMLSchema-instance\"";

/// The prefixes of an instance: those that every instance has, and `n1`, `n2` and so on for its own namespaces. Contracts
/// see it as its own namespaces, in order.
pub struct Prefixes<'a> {
    spaces: Vec<&'a str>,
    table: BTreeMap<&'a str, Text>,
}

impl Drop for Prefixes<'_> {
    fn drop(self) {
        let Prefixes {
            spaces: _,
            table: _,
        } = self;
    }
}

impl<'a> Model for Prefixes<'a> {
    ghost use Rattle.std.specs.Prelude.{List as Items, ℕ};
    ghost use Rattle.instance_lines.specs.SpelledNames.{spelled as spelled_name};
    ghost use Rattle.instance_lines.specs.Tables.{Agrees, values_of};

    ghost Value = { Items (Items ℕ) };

    ghost view = { λ p. values_of p.spaces.items };

    ghost invariant = { λ p. Agrees p.table 1 p.spaces.items };
}

/// The prefix of a namespace that an instance always binds, with its colon.
#[tactic(auto, using(crate::proofs::PrefixLaws::bound_are))]
fn known_start(space: &str) -> Option<&'static str>
    ensures { option_map (λ p. p.now) result ≡ start_in (xml ∷ fixed) space.now }
{
    match space {
        "http://www.w3.org/XML/1998/namespace" => Some("xml:"),
        "http://www.xbrl.org/2003/iso4217" => Some("iso4217:"),
        "http://www.xbrl.org/2003/linkbase" => Some("link:"),
        "http://xbrl.org/2006/xbrldi" => Some("xbrldi:"),
        "http://www.xbrl.org/2003/instance" => Some("xbrli:"),
        "http://www.w3.org/1999/xlink" => Some("xlink:"),
        "http://www.w3.org/2001/XMLSchema-instance" => Some("xsi:"),
        _ => None,
    }
}

/// Whether names in a namespace need no further prefix.
#[tactic(auto, using(crate::proofs::PrefixLaws::has_start))]
pub fn is_known(space: &str) -> bool
    ensures { result ≡ known space.now }
{
    space.is_empty() || known_start(space).is_some()
}

/// The prefix of an instance's own namespace of this number.
fn own_prefix(alloc: Global, number: usize) -> Result<Text, NoMemory>
    requires { 0 < number }
    ensures { IfOk result (λ t. t ≡ 110 ∷ numeral number) }
{
    let digits = number.to_string(alloc)?;
    let mut prefix = Text::of(alloc, "n")?;
    prefix.push(digits.as_str())?;
    Ok(prefix)
}

/// Puts a prefix into a table.
fn put<'a>(
    table: &mut BTreeMap<&'a str, Text>,
    space: &'a str,
    prefix: Text,
) -> Result<(), NoMemory>
    ensures { OnOk result ((q : List ℕ) → get_by (λ k. slice_cmp nat_cmp q k.now) table.new
        ≡ (if bytes_eq q space.entry.now then Some prefix else get_by (λ k. slice_cmp nat_cmp q k.now) table.old)) }
{
    match table.insert(space, prefix) {
        Ok(_) => Ok(()),
        Err(_) => Err(NoMemory),
    }
}

/// The prefixes of these namespaces with their colons, the last first, so that the first of equal ones counts.
fn table_of<'a>(alloc: Global, spaces: &[&'a str]) -> Result<BTreeMap<&'a str, Text>, NoMemory>
    ensures { IfOk result (λ t. Agrees t 1 spaces.now) }
{
    let mut table = BTreeMap::new(alloc);
    let mut left = spaces.len();
    while left > 0 {
        let mut prefix = own_prefix(alloc, left)?;
        prefix.push(":")?;
        left -= 1;
        put(&mut table, spaces[left], prefix)?;
    }
    Ok(table)
}

/// Appends the declaration of an own namespace of this number.
fn push_declaration(
    alloc: Global,
    number: usize,
    space: &str,
    out: &mut Text,
) -> Result<(), NoMemory>
    requires { 0 < number }
    ensures { OnOk result (Gains out.old out.new
        (attrs_text (declaration (record { prefix = 110 ∷ numeral number; ns = space.now }) ∷ []))) }
{
    let mut name = Text::of(alloc, "xmlns:")?;
    let prefix = own_prefix(alloc, number)?;
    name.push(prefix.as_str())?;
    let declaration = Valued {
        name: name.as_str(),
        value: Some(space),
    };
    push_attribute(declaration, out)
}

/// The root's start tag, in an instance that has these further namespaces.
fn root_of(alloc: Global, spaces: &[&str]) -> Result<Text, NoMemory>
    ensures { IfOk result (λ t. t ≡ root_line (values_of spaces.now)) }
{
    let mut out = Text::of(alloc, ROOT)?;
    let mut number = 1;
    for space in spaces {
        push_declaration(alloc, number, space, &mut out)?;
        number += 1;
    }
    out.push(">\n")?;
    Ok(out)
}

impl<'a> Prefixes<'a> {
    /// The prefixes of an instance that has these further namespaces.
    pub fn of(alloc: Global, spaces: Vec<&'a str>) -> Result<Prefixes<'a>, NoMemory>
        ensures { IfOk result (λ p. p ≡ values_of spaces.entry.items) }
    {
        let table = table_of(alloc, spaces.as_slice())?;
        Ok(Prefixes { spaces, table })
    }

    /// The line of the root's start tag.
    pub fn root_line(&self, alloc: Global) -> Result<Text, NoMemory>
        ensures { IfOk result (λ t. t ≡ root_line self.now) }
    {
        root_of(alloc, self.spaces.as_slice())
    }

    /// What names in a namespace start with: its prefix and a colon, or nothing.
    fn start(&self, space: &str) -> &str
        ensures { result.now ≡ unwrap_or (start_in (xml ∷ declared_for self.now) space.now) [] }
    {
        if let Some(start) = known_start(space) {
            return start;
        }
        match self.table.get(space) {
            Some(start) => start.as_str(),
            None => "",
        }
    }

    /// A name with the prefix of its namespace. It takes no memory.
    pub(crate) fn spelled<'p, 'n>(&'p self, name: &'n OwnName) -> Spelled<'p, 'n>
        ensures { spelled_name result ≡ name_text self.now name.now }
    {
        Spelled {
            start: self.start(name.ns.as_str()),
            local: name.local.as_str(),
        }
    }

    /// A name behind the prefix of its namespace. One in no namespace has no prefix.
    pub fn name(&self, alloc: Global, name: &OwnName) -> Result<Text, NoMemory>
        ensures { IfOk result (λ t. t ≡ name_text self.now name.now) }
    {
        let Spelled { start, local } = self.spelled(name);
        let room = start.len().saturating_add(local.len());
        let mut out = Text::with_room(alloc, room)?;
        out.push(start)?;
        out.push(local)?;
        Ok(out)
    }
}
