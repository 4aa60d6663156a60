//! Names of facts as they are written, and tags with them. Nothing is copied for a name: an instance has as many as facts.
ghost use Rattle.std.specs.Prelude.{◌≡◌, ◌++◌, OnOk};
ghost use Rattle.ix_base.specs.WrittenMarkup.{start_text, leaf_text, close_text};
ghost use Rattle.instance_lines.specs.Gains.{Gains, GainsUnclosed};
ghost use Rattle.instance_lines.specs.SpelledNames.{spelled};
ghost use Rattle.instance_lines.specs.Tags.{attrs_of};

use crate::markup::{Valued, push_attributes, push_plain};
use ix_base::{NoMemory, Text};

/// A local name, behind the prefix of its namespace and a colon, or behind nothing.
#[derive(Clone, Copy)]
pub(crate) struct Spelled<'p, 'n> {
    pub start: &'p str,
    pub local: &'n str,
}

/// Appends a name.
pub(crate) fn push_name(name: Spelled<'_, '_>, out: &mut Text) -> Result<(), NoMemory>
    ensures { OnOk result (Gains out.old out.new (λ more. spelled name.entry ++ more)) }
{
    push_plain(name.start, out)?;
    push_plain(name.local, out)?;
    Ok(())
}

/// Appends the start tag of an element of this name.
pub(crate) fn push_named_start(
    name: Spelled<'_, '_>,
    attributes: &[Valued<'_>],
    out: &mut Text,
) -> Result<(), NoMemory>
    ensures { OnOk result (Gains out.old out.new (λ more. start_text (spelled name.entry) (attrs_of attributes.now) ++ more)) }
{
    push_plain("<", out)?;
    push_name(name, out)?;
    push_attributes(attributes, out)?;
    push_plain(">", out)?;
    Ok(())
}

/// Appends the one tag of an element of this name without content, before its last `>`.
pub(crate) fn push_named_leaf(
    name: Spelled<'_, '_>,
    attributes: &[Valued<'_>],
    out: &mut Text,
) -> Result<(), NoMemory>
    ensures { OnOk result (GainsUnclosed out.old out.new
        (λ more. leaf_text (spelled name.entry) (attrs_of attributes.now) ++ more)) }
{
    push_plain("<", out)?;
    push_name(name, out)?;
    push_attributes(attributes, out)?;
    push_plain("/", out)?;
    Ok(())
}

/// Appends the end tag of an element of this name, before its last `>`.
pub(crate) fn push_named_close(name: Spelled<'_, '_>, out: &mut Text) -> Result<(), NoMemory>
    ensures { OnOk result (GainsUnclosed out.old out.new (λ more. close_text (spelled name.entry) ++ more)) }
{
    push_plain("</", out)?;
    push_name(name, out)?;
    Ok(())
}
