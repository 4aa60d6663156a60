//! Laws of arranged contents, for the crates that rest on them.
ghost use Rattle.std.specs.Prelude.{◌≡◌};
ghost use Rattle.ix_base.specs.declared.content.Content.{Content};
ghost use Rattle.instance_lines.specs.Arrangement.{arranged, with_arranged_links};
ghost use Rattle.instance_lines.specs.Canonical.{canon_lines};
ghost use Rattle.instance_lines.specs.Writable.{IsWritable};

/// An arranged content can be written where the content can.
pub fn arranged_writable()
    ensures { (c : Content) → IsWritable c → IsWritable (arranged c) }
{}

/// Arranging twice is arranging once.
pub fn arranged_twice()
    ensures { (c : Content) → arranged (arranged c) ≡ arranged c }
{}

/// An arranged content has the lines of the content whose footnote links alone are arranged.
pub fn arranged_lines()
    ensures { (c : Content) → canon_lines (arranged c) ≡ canon_lines (with_arranged_links c) }
{}
