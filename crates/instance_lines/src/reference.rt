//! The lines of references.
ghost use Rattle.std.specs.Prelude.{◌≡◌, map, IfOk};
ghost use Rattle.ix_base.specs.Once.{in_order};
ghost use Rattle.instance_lines.specs.Canonical.{line, line_cmp, linkbase_markup, schema_markup, role_markup, arcrole_markup};
ghost use Rattle.instance_lines.specs.Elements.{reference_markup};
ghost use Rattle.instance_lines.specs.Tags.{attrs_of};
ghost use Rattle.ix_base.specs.WrittenMarkup.{leaf, nothing};

use crate::keys::{ByArcroleElement, ByElement};
use crate::markup::{Valued, push_leaf};
use crate::sort::keys_once;
use ix_base::{Linkbase, NoMemory, RoleRef, Text, shown};
use std::alloc::Global;

/// Each reference is a simple link.
const SIMPLE: Valued<'static> = Valued {
    name: "xlink:type",
    value: Some("simple"),
};

/// The line of an element without content.
fn leaf_line(alloc: Global, name: &str, attributes: &[Valued<'_>]) -> Result<Text, NoMemory>
    ensures { IfOk result (λ t. t ≡ line (leaf name.now (attrs_of attributes.now) nothing)) }
{
    let mut out = Text::of(alloc, "")?;
    push_leaf(name, attributes, &mut out)?;
    out.push("\n")?;
    Ok(out)
}

/// The line of a schema's address.
pub fn schema_line(alloc: Global, href: &str) -> Result<Text, NoMemory>
    ensures { IfOk result (λ t. t ≡ line (schema_markup href.now)) }
{
    let attributes = [
        SIMPLE,
        Valued {
            name: "xlink:href",
            value: Some(href),
        },
    ];
    let line = leaf_line(alloc, "link:schemaRef", &attributes)?;
    Ok(line)
}

/// The lines of schemas, in order, each once.
pub fn schema_lines(alloc: Global, hrefs: &[Text]) -> Result<Vec<Text>, NoMemory>
    ensures { IfOk result (λ v. v.items ≡ map line (in_order line_cmp (map schema_markup hrefs.now))) }
{
    keys_once::<ByElement, Text>(alloc, hrefs)
}

/// The line of a linkbase.
pub fn linkbase_line(alloc: Global, linkbase: &Linkbase) -> Result<Text, NoMemory>
    ensures { IfOk result (λ t. t ≡ line (linkbase_markup linkbase.now)) }
{
    let attributes = [
        SIMPLE,
        Valued {
            name: "xlink:href",
            value: Some(linkbase.href.as_str()),
        },
        Valued {
            name: "xlink:role",
            value: shown(&linkbase.role),
        },
        Valued {
            name: "xlink:arcrole",
            value: Some("http://www.w3.org/1999/xlink/properties/linkbase"),
        },
    ];
    let line = leaf_line(alloc, "link:linkbaseRef", &attributes)?;
    Ok(line)
}

/// The lines of linkbases, in order, each once.
pub fn linkbase_lines(alloc: Global, linkbases: &[Linkbase]) -> Result<Vec<Text>, NoMemory>
    ensures { IfOk result (λ v. v.items ≡ map line (in_order line_cmp (map linkbase_markup linkbases.now))) }
{
    keys_once::<ByElement, Linkbase>(alloc, linkbases)
}

/// The line of a role or an arcrole, in an element of this name with its URI in this attribute.
pub fn role_line(alloc: Global, name: &str, uri: &str, role: &RoleRef) -> Result<Text, NoMemory>
    ensures { IfOk result (λ t. t ≡ line (reference_markup name.now uri.now role.now)) }
{
    let attributes = [
        Valued {
            name: uri,
            value: Some(role.uri.as_str()),
        },
        SIMPLE,
        Valued {
            name: "xlink:href",
            value: Some(role.href.as_str()),
        },
    ];
    let line = leaf_line(alloc, name, &attributes)?;
    Ok(line)
}

/// The lines of roles, in order, each once.
pub fn role_lines(alloc: Global, roles: &[RoleRef]) -> Result<Vec<Text>, NoMemory>
    ensures { IfOk result (λ v. v.items ≡ map line (in_order line_cmp (map role_markup roles.now))) }
{
    keys_once::<ByElement, RoleRef>(alloc, roles)
}

/// The lines of arcroles, in order, each once.
pub fn arcrole_lines(alloc: Global, roles: &[RoleRef]) -> Result<Vec<Text>, NoMemory>
    ensures { IfOk result (λ v. v.items ≡ map line (in_order line_cmp (map arcrole_markup roles.now))) }
{
    keys_once::<ByArcroleElement, RoleRef>(alloc, roles)
}
