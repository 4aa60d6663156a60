//! Laws of spans.
ghost use Rattle.std.specs.Prelude.{◌≡◌, ℕ, List, false, All, Contains, map};
ghost use Rattle.std.specs.List.{flat_map};
ghost use Rattle.std.specs.List.Sorted.{IsPermutation};
ghost use Rattle.ix_base.specs.declared.kind.Kind.TheVariants as kind;
ghost use Rattle.ix_base.specs.Asks.{asks};
ghost use Rattle.ix_base.specs.Chain.{chain};
ghost use Rattle.ix_base.specs.Elements.{elements_of};
ghost use Rattle.ix_base.specs.Kinds.{kind_of};
ghost use Rattle.ix_base.specs.LocatedElements.{Located, is_nil};
ghost use Rattle.ix_base.specs.Markup.{plain, plain_along};
ghost use Rattle.ix_base.specs.Trees.{Tree};
ghost use Rattle.facts.specs.NumberValue.{number_text};
ghost use Rattle.page_tree.specs.Page.{page};
ghost use Rattle.fact_trace.specs.Model.{AreNew};
ghost use Rattle.fact_trace.specs.Spans.{Source, element_spans, elements, said, said_on, span_of, spans, text_elements, traces};
ghost use Rattle.fact_trace.specs.ValidPages.{BreakNoRule, HaveTrees, names_of};

/// What the spans of an element say, joined, is the plain text of what it holds.
pub fn spans_say_the_text()
    ensures { (name b : List ℕ) (n : ℕ) (t : Tree) → page b n t
        → All (λ e. flat_map (said b) (map (span_of name) (element_spans b e.tree)) ≡ plain e.tree.children) (elements_of t) }
{}

/// What the spans of an item that isn't nil say, joined, is the plain text of its text elements, joined. Of a nonNumeric this
/// is the plain text of its chain, and of a nonFraction of pages that break no rule the text of its number: what its format
/// is given.
pub fn items_say_their_text()
    ensures text { (ps : List Source) → HaveTrees ps → AreNew (names_of ps)
        → (e : Located) → Contains (elements ps) e → is_nil e ≡ false
        → flat_map (said_on ps) (spans ps e) ≡ flat_map (λ l. plain l.tree.children) (text_elements (asks (elements ps)) e) }
    ensures nonnumeric { (ps : List Source) → HaveTrees ps → AreNew (names_of ps)
        → (e : Located) → Contains (elements ps) e → is_nil e ≡ false → kind_of e.placed ≡ kind.NonNumeric
        → flat_map (said_on ps) (spans ps e) ≡ plain_along (chain (asks (elements ps)) e) }
    ensures nonfraction { (ps : List Source) → HaveTrees ps → AreNew (names_of ps) → BreakNoRule ps
        → (e : Located) → Contains (elements ps) e → is_nil e ≡ false → kind_of e.placed ≡ kind.NonFraction
        → flat_map (said_on ps) (spans ps e) ≡ number_text e.placed.tree.children }
{}

/// Pages that are handed over in another order give the same items with the same spans.
pub fn traced_in_any_order()
    ensures { (ps qs : List Source) → HaveTrees ps → AreNew (names_of ps) → BreakNoRule ps → IsPermutation ps qs → traces ps ≡ traces qs }
{}
