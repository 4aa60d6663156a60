//! Laws of contents and of written markup, for the crates that rest on them.
ghost use Rattle.std.specs.Prelude.{◌≡◌, ℕ, List};
ghost use Rattle.ix_base.specs.declared.content.Content.{Content};
ghost use Rattle.ix_base.specs.FilledMarkup.{filled, AreBodies};
ghost use Rattle.ix_base.specs.PlainContents.{Said, said_of};
ghost use Rattle.ix_base.specs.WrittenMarkup.{Markup, written};

/// Contents that look alike apart from where their facts lie are equal.
pub fn same_content()
    ensures { (c d : Content) → said_of c ≡ said_of d → c ≡ d }
{}

/// Each look is that of a content.
pub fn some_content()
    ensures { (s : Said) → (c : Content) × (said_of c ≡ s) }
{}

/// Markup may be put in the place of bytes that stand as they are and that it writes: the whole writes the same.
pub fn filled_markup()
    ensures { (f : List ℕ → Markup) (m : Markup) → AreBodies f m
        → (more : List ℕ) → written (filled f m) more ≡ written m more }
{}
