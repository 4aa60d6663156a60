//! End tags.
ghost use Rattle.std.specs.Prelude.{◌≡◌, ◌++◌, OnOk};
ghost use Rattle.ix_base.specs.WrittenMarkup.{close_text};

use ix_base::{NoMemory, Text};

/// Appends an end tag (XML 1.0, section 3.1, production 42).
pub fn push_close(name: &str, out: &mut Text) -> Result<(), NoMemory>
    ensures { OnOk result (out.new ≡ out.old ++ close_text name.now) }
{
    out.push("</")?;
    out.push(name)?;
    out.push(">")
}
