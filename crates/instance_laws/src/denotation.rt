//! What the text of an instance denotes: laws of canonical texts and of the trees of pages, for whoever reads an instance.

ghost use Rattle.std.specs.Prelude.{◌≡◌, None};
ghost use Rattle.ix_base.specs.declared.content.Content.{Content};
ghost use Rattle.ix_base.specs.PlainContents.{said_of};
ghost use Rattle.page_tree.specs.Break.{w};
ghost use Rattle.instance_lines.specs.Canonical.{canon};
ghost use Rattle.instance_out.specs.Proper.{Proper};
ghost use Rattle.instance_out.specs.Theorem.{DenotesOne, IsReadBack, IsTextOfTree, ProperIsDenoted};

/// The canonical text of a proper content is the first line and the markup of a root, and from wherever it begins, in the scope
/// above every root, the nodes that this markup means denote the content.
pub fn canonical_markup()
    ensures { ProperIsDenoted }
{}

/// A tree denotes one content at most.
pub fn one_content()
    ensures { DenotesOne }
{}

/// The canonical text of a proper content is a page of one tree, which denotes the content and no other. So it has no break, and
/// two proper contents with one text are one content. Its elements are at most 258 deep: at most 255 in the body of a footnote,
/// within the footnote, its link and the root.
pub fn read_back()
    ensures read { (c : Content) → Proper (said_of c) → IsReadBack (canon c) c }
    ensures unbroken { (c : Content) → Proper (said_of c) → w (canon c) 260 ≡ None }
    ensures shallow { (c : Content) → Proper (said_of c) → IsTextOfTree (canon c) 258 c }
    ensures one { (c d : Content) → Proper (said_of c) → Proper (said_of d) → canon c ≡ canon d → c ≡ d }
{}
