//! Names.
ghost use Rattle.std.specs.Prelude.{◌≡◌};
ghost use Rattle.std.specs.List.{list_all};
ghost use Rattle.ix_base.specs.PlainContents.{said_of};
ghost use Rattle.proper_texts.specs.Model.{IsHeld};
ghost use Rattle.instance_out.specs.Proper as proper;
ghost use Rattle.instance_lines.specs.Tables.{values_of};

use ix_base::namespaces::{LINK, XBRLI, XMLNS};
use ix_base::{Content, OwnName};
use proper_texts::Held;
use scopes::is_ncname;

/// Whether a name is an NCName in no namespace of declarations.
#[tactic(auto, unfolding(ix_base::specs::Namespaces::xmlns_namespace))]
fn is_name(name: &OwnName) -> bool
    ensures { result ≡ proper.is_name name.now }
{
    is_ncname(name.local.as_str()) && name.ns.as_str() != XMLNS
}

/// Whether names are NCNames in no namespace of declarations.
fn are_names(names: &[&OwnName]) -> bool
    ensures { result ≡ list_all proper.is_name (values_of names.now) }
{
    for name in names {
        if !is_name(name) {
            return false;
        }
    }
    true
}

/// Whether a name is in none of the namespaces of XBRL's instances and links.
#[tactic(auto, unfolding(ix_base::specs::Namespaces::xbrli_namespace, ix_base::specs::Namespaces::link_namespace))]
fn is_fact_name(name: &OwnName) -> bool
    ensures { result ≡ proper.is_fact_name name.now }
{
    let ns = name.ns.as_str();
    ns != XBRLI && ns != LINK
}

/// Whether names are in none of the namespaces of XBRL's instances and links.
fn are_fact_names(names: &[&OwnName]) -> bool
    ensures { result ≡ list_all proper.is_fact_name (values_of names.now) }
{
    for name in names {
        if !is_fact_name(name) {
            return false;
        }
    }
    true
}

/// Whether names are NCNames in no namespace of declarations, and those of facts in none of XBRL's own. It takes no memory.
#[tactic(auto, unfolding(instance_out::specs::Proper::names_fit))]
pub(crate) fn names_fit(content: &Content, held: &Held) -> bool
    requires { IsHeld (said_of content.now) held.now }
    ensures { result ≡ proper.names_fit (said_of content.now) }
{
    are_names(held.names.as_slice()) && are_fact_names(held.fact_names.as_slice())
}
