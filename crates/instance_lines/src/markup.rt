//! Tags, texts and elements, appended to a line.
ghost use Rattle.std.specs.Prelude.{◌≡◌, ◌++◌, ◌∷◌, ℕ, List, OnOk};
ghost use Rattle.ix_base.specs.Escapes.{te};
ghost use Rattle.ix_base.specs.WrittenMarkup.{attrs_text, start_text, leaf_text, close_text, written, nothing};
ghost use Rattle.instance_lines.specs.Canonical.{attr_if, text_element};
ghost use Rattle.instance_lines.specs.Gains.{Gains, GainsAttributes};
ghost use Rattle.instance_lines.specs.Tags.{attrs_of, between_values};
ghost use Rattle.std.specs.Prelude.{option_map};

use ix_base::{NoMemory, Text, push_ae, push_te};

/// An attribute: its written name, and its value where it has one. It is left out where it has none.
#[derive(Clone, Copy)]
pub struct Valued<'a> {
    pub name: &'a str,
    pub value: Option<&'a str>,
}

/// Appends a text as it stands.
pub fn push_plain(text: &str, out: &mut Text) -> Result<(), NoMemory>
    ensures { OnOk result (Gains out.old out.new (λ more. text.now ++ more)) }
{
    out.push(text)?;
    Ok(())
}

/// Appends a text between tags.
pub fn push_text(text: &str, out: &mut Text) -> Result<(), NoMemory>
    ensures { OnOk result (Gains out.old out.new (λ more. te text.now ++ more)) }
{
    push_te(text, out)?;
    Ok(())
}

/// Appends an attribute, if it has a value.
pub fn push_attribute(attribute: Valued<'_>, out: &mut Text) -> Result<(), NoMemory>
    ensures { OnOk result (Gains out.old out.new
        (attrs_text (attr_if attribute.entry.name.now (option_map (λ v. v.now) attribute.entry.value)))) }
{
    let Some(value) = attribute.value else {
        return Ok(());
    };
    out.push(" ")?;
    out.push(attribute.name)?;
    out.push("=\"")?;
    push_ae(value, out)?;
    out.push("\"")?;
    Ok(())
}

/// Appends an attribute, if it has a value, behind the value of another one. Neither has its end quote yet, so that this one and
/// what opens the next value are appended in one step.
pub(crate) fn push_further(
    opening: &str,
    value: Option<&str>,
    out: &mut Text,
) -> Result<(), NoMemory>
    ensures { OnOk result ((name : List ℕ) → opening.now ≡ between_values name
        → GainsAttributes out.old out.new (attr_if name (option_map (λ v. v.now) value.entry))) }
{
    let Some(value) = value else {
        return Ok(());
    };
    out.push(opening)?;
    push_ae(value, out)?;
    Ok(())
}

/// Appends attributes.
pub(crate) fn push_attributes(attributes: &[Valued<'_>], out: &mut Text) -> Result<(), NoMemory>
    ensures { OnOk result (Gains out.old out.new (attrs_text (attrs_of attributes.now))) }
{
    for attribute in attributes {
        push_attribute(*attribute, out)?;
    }
    Ok(())
}

/// Appends a start tag.
pub fn push_start(name: &str, attributes: &[Valued<'_>], out: &mut Text) -> Result<(), NoMemory>
    ensures { OnOk result (Gains out.old out.new (λ more. start_text name.now (attrs_of attributes.now) ++ more)) }
{
    push_plain("<", out)?;
    push_plain(name, out)?;
    push_attributes(attributes, out)?;
    push_plain(">", out)?;
    Ok(())
}

/// Appends the one tag of an element without content.
pub fn push_leaf(name: &str, attributes: &[Valued<'_>], out: &mut Text) -> Result<(), NoMemory>
    ensures { OnOk result (Gains out.old out.new (λ more. leaf_text name.now (attrs_of attributes.now) ++ more)) }
{
    push_plain("<", out)?;
    push_plain(name, out)?;
    push_attributes(attributes, out)?;
    push_plain("/>", out)?;
    Ok(())
}

/// Appends an end tag.
pub fn push_close(name: &str, out: &mut Text) -> Result<(), NoMemory>
    ensures { OnOk result (Gains out.old out.new (λ more. close_text name.now ++ more)) }
{
    push_plain("</", out)?;
    push_plain(name, out)?;
    push_plain(">", out)?;
    Ok(())
}

/// Appends an element that holds a text, which may be empty.
pub fn push_element(
    name: &str,
    attributes: &[Valued<'_>],
    text: &str,
    out: &mut Text,
) -> Result<(), NoMemory>
    ensures { OnOk result (Gains out.old out.new (written (text_element name.now (attrs_of attributes.now) text.now nothing))) }
{
    push_start(name, attributes, out)?;
    push_text(text, out)?;
    push_close(name, out)?;
    Ok(())
}
