//! Laws of what pages come to.
ghost use Rattle.std.specs.Prelude.{◌≡◌, ◌↔◌, ◌++◌, ℕ, true, false, All, List, Some, map, option_and_then};
ghost use Rattle.ix_base.specs.declared.content.Item.{Item};
ghost use Rattle.ix_base.specs.declared.kind.Kind.TheVariants as kind;
ghost use Rattle.ix_base.specs.declared.limits.TheConstants.{DEEPEST_ELEMENT};
ghost use Rattle.ix_base.specs.Asks.{if_such};
ghost use Rattle.ix_base.specs.Facts.{Facts, joined};
ghost use Rattle.ix_base.specs.Ids.{context_for, one, unit_for};
ghost use Rattle.ix_base.specs.LocatedElements.{Located, is_kind, is_tuple};
ghost use Rattle.ix_base.specs.Membership.{deepest, fact};
ghost use Rattle.ix_base.specs.Sound.{IsSoundTree};
ghost use Rattle.id_table.specs.Model.{AreChosen, Held, one_held};
ghost use Rattle.page_links.specs.Choices.{HasChoices};
ghost use Rattle.targets.specs.ValidSets.{AreProper};
ghost use Rattle.target_contents.specs.Contents.{SaysItem, context_at, unit_at};
ghost use Rattle.target_contents.specs.SetOutcomes.{ComesTo, ComesToAlways};
ghost use Rattle.target_contents.specs.PageSet.{PageSet};
ghost use Rattle.target_contents.specs.TargetFacts.{AreFacts};
ghost use Rattle.page_links.specs.LinkStates.{GoesOn, doubled, holder, is_doubled, is_pending, link_stands, pending, resolved};
ghost use Rattle.link_ids.specs.Links.{Link, links};
ghost use Rattle.target_contents.specs.declared.outcome.Outcome.{Outcome};

/// Sound pages come to the same in every order, and each content that they come to is proper.
pub fn sound_pages()
    ensures rearranged { (s : PageSet) → All (λ p. IsSoundTree p.tree DEEPEST_ELEMENT) s.pages
        → (o : Outcome) → ComesTo s o → ComesToAlways s o }
    ensures proper { (s : PageSet) → All (λ p. IsSoundTree p.tree DEEPEST_ELEMENT) s.pages
        → (o : Outcome) → ComesTo s o → AreProper o }
{}

/// With more elements each link stays, and how it stands never goes back. The pages have these names, those that are still to come
/// too.
pub fn links_go_on()
    ensures stay { (es more : List Located) → links (es ++ more) ≡ links es ++ links more }
    ensures go_on { (names : ℕ → List ℕ) (es more : List Located) (l : Link)
        → GoesOn (link_stands names es l) (link_stands names (es ++ more) l) }
{}

/// A link is resolved with the one element that has its id, and with no other; it is pending where no element has the id, and doubled
/// where several have it that don't agree.
pub fn links_stand()
    ensures resolved { (names : ℕ → List ℕ) (es : List Located) (l : Link) (e : Located)
        → link_stands names es l ≡ resolved e ↔ holder names es l ≡ Some e }
    ensures pending { (names : ℕ → List ℕ) (es : List Located) (l : Link) → link_stands names es l ≡ pending ↔ is_pending es l ≡ true }
    ensures doubled { (names : ℕ → List ℕ) (es : List Located) (l : Link) → link_stands names es l ≡ doubled ↔ is_doubled es l ≡ true }
{}

/// What contents have of an id is what the one element with it says: the first of those that agree by the names of their pages, whatever
/// these are.
pub fn contents_of_the_one()
    ensures context { (names : ℕ → List ℕ) (es : List Located) (id : List ℕ)
        → option_and_then context_at (if_such (is_kind kind.Context) (one names es id)) ≡ context_for es id }
    ensures unit { (names : ℕ → List ℕ) (es : List Located) (id : List ℕ)
        → option_and_then unit_at (if_such (is_kind kind.Unit) (one names es id)) ≡ unit_for es id }
{}

/// An index with the choices that a set makes gives for each id the one element with it; and these are the choices that its elements
/// ask for, one for each id that several have that agree, and for no other.
pub fn chosen_by_a_set()
    ensures one { (names : ℕ → List ℕ) (h : Held) → HasChoices names h.spots h → (id : List ℕ) → one_held h id ≡ one names h.spots id }
    ensures chosen { (names : ℕ → List ℕ) (h : Held) → HasChoices names h.spots h → AreChosen h }
{}

/// Where a function tells what items say, the facts of elements are those that it gives.
pub fn facts_by_items()
    ensures { (bases : Located → List ℕ) (all es : List Located) (items : Located → Item) (facts : Facts)
        → ((e : Located) (i : Item) → is_tuple e ≡ false → SaysItem bases all e i → i ≡ items e)
        → AreFacts (SaysItem bases all) all deepest es facts → facts ≡ joined (map (fact items all) es) }
{}
