//! Laws of what items say.
ghost use Rattle.std.specs.Prelude.{◌≡◌, ℕ, List, Result, map};
ghost use Rattle.ix_base.specs.Asks.{Asks, asks};
ghost use Rattle.ix_base.specs.LocatedElements.{Located};
ghost use Rattle.ix_base.specs.Trees.{Named};
ghost use Rattle.ix_base.specs.declared.content.Item.{Item};
ghost use Rattle.ix_base.specs.declared.rule.Rule.{Rule};
ghost use Rattle.id_table.specs.Renumbering.{moved, KeepsApart};
ghost use Rattle.facts.specs.ItemValue.{IsItem};
ghost use Rattle.facts.specs.NumberValue.{IsNumberValue, Number};
ghost use Rattle.facts.specs.TextValue.{IsTransformed};

/// A text has one value in the format of a name, or breaks one rule.
pub fn one_text()
    ensures { (name : Named) (text : List ℕ) (r s : Result (List ℕ) Rule)
        → IsTransformed name text r → IsTransformed name text s → r ≡ s }
{}

/// A number has one value, or breaks one rule.
pub fn one_number()
    ensures { (n : Number) (r s : Result (List ℕ) Rule) → IsNumberValue n r → IsNumberValue n s → r ≡ s }
{}

/// An element of a set says one item, or breaks one rule.
pub fn one_item()
    ensures { (bases : Located → List ℕ) (a : Asks Located) (e : Located) (r s : Result Item Rule)
        → IsItem bases a e r → IsItem bases a e s → r ≡ s }
{}

/// No element of a set is without an item and without a rule that it breaks.
pub fn some_item()
    ensures { (bases : Located → List ℕ) (a : Asks Located) (e : Located)
        → ((r : Result Item Rule) → ¬ IsItem bases a e r) → ⊥ }
{}

/// Where the pages have other numbers, each element says what it said.
pub fn renumbered_item()
    ensures { (bases new_bases : Located → List ℕ) (numbers : ℕ → ℕ) → KeepsApart numbers
        → ((e : Located) → new_bases (moved numbers e) ≡ bases e)
        → (es : List Located) (e : Located) (r : Result Item Rule)
        → IsItem bases (asks es) e r → IsItem new_bases (asks (map (moved numbers) es)) (moved numbers e) r }
{}
