//! Laws of sessions.
ghost use Rattle.std.specs.Prelude.{◌≡◌, ◌++◌, ◌∷◌, [], ℕ, List, true, false};
ghost use Rattle.ix_base.specs.declared.rule.Rule.TheVariants.{X2, X3, X4};
ghost use Rattle.page_session.specs.Course.{Standing, StandsAs, breaks, effect_of, leads, nothing_put, stops, with_page, without_page};
ghost use Rattle.page_session.specs.HandedPages.{Handed, bytes_of, handed, is_one_too_many, is_there, names_of};
ghost use Rattle.page_names.specs.Names.{has_repeat};
ghost use Rattle.page_session.specs.Sessions.{HasDropped, HasPut, IsOver, IsSame, IsWithin, StandsFor, base_of, bytes_put, names_in, tags_put};
ghost use Rattle.page_session.specs.Steps.{Does, Goes, Step, after};
ghost use Rattle.page_session.specs.declared.script.Line.TheVariants as line;
ghost use Rattle.page_session.specs.declared.session.Session.{Session};
ghost use Rattle.targets.specs.Breaches.{PagesComeTo};
ghost use Rattle.target_contents.specs.declared.outcome.Outcome.{Outcome};

/// A session that stands for what steps led to stands, after one step more, for what all of them lead to.
pub fn one_step_more()
    ensures { (steps : List Step) (step : Step) (old new : Session) → StandsFor old (after steps) → Does step old new
        → StandsFor new (after (steps ++ step ∷ [])) }
{}

/// A refused put leaves what a session stands for.
pub fn refused_stands_on()
    ensures { (old new : Session) (pages : List Handed) → IsSame old new → StandsFor old pages → StandsFor new pages }
{}

/// A session that stood for no page and went through steps stands for the pages that these lead to, under the same base. So what is
/// true of all pages for which it stands, as an answer, is true of these.
pub fn steps_lead_on()
    ensures stands { (old new : Session) (steps : List Step) → StandsFor old [] → Goes old steps new → StandsFor new (after steps) }
    ensures base { (old new : Session) (steps : List Step) → Goes old steps new → base_of new ≡ base_of old }
    ensures answer { (old new : Session) (steps : List Step) (o : Outcome) → StandsFor old [] → Goes old steps new
        → ((pages : List Handed) → StandsFor new pages → PagesComeTo (base_of new) (names_of pages) (bytes_of pages) o)
        → PagesComeTo (base_of old) (names_of (after steps)) (bytes_of (after steps)) o }
{}

/// A session that stands as a script's course does before a line does with it what the line does, and stands as the course behind it.
pub fn lines_by_calls()
    ensures begins { (s : Session) → StandsFor s [] → bytes_put s ≡ 0 → tags_put s ≡ 0 → StandsAs s nothing_put }
    ensures refuses { (old new : Session) (t : Standing) → IsSame old new → StandsAs old t → StandsAs new t }
    ensures puts { (old new : Session) (t : Standing) (n : ℕ) (name b : List ℕ) (bs : List (List ℕ)) → StandsAs old t
        → HasPut (handed name b) old new → is_one_too_many (names_in old) name ≡ false → IsWithin new
        → (effect_of t n (line.Put name) (b ∷ bs) ≡ leads (with_page t name b)) × StandsAs new (with_page t name b) }
    ensures passes { (s : Session) (t : Standing) (n : ℕ) (name b : List ℕ) (bs : List (List ℕ)) → StandsAs s t
        → is_one_too_many (names_in s) name ≡ false → IsOver s b → effect_of t n (line.Put name) (b ∷ bs) ≡ stops (breaks n X4) }
    ensures fills { (s : Session) (t : Standing) (n : ℕ) (name : List ℕ) (bs : List (List ℕ)) → StandsAs s t
        → is_one_too_many (names_in s) name ≡ true → effect_of t n (line.Put name) bs ≡ stops (breaks n X3) }
    ensures drops { (old new : Session) (t : Standing) (n : ℕ) (name : List ℕ) (bs : List (List ℕ)) → StandsAs old t
        → HasDropped name old new → is_there (names_in old) name ≡ true
        → (effect_of t n (line.Drop name) bs ≡ leads (without_page t name)) × StandsAs new (without_page t name) }
    ensures misses { (s : Session) (t : Standing) (n : ℕ) (name : List ℕ) (bs : List (List ℕ)) → StandsAs s t
        → is_there (names_in s) name ≡ false → effect_of t n (line.Drop name) bs ≡ stops (breaks n X2) }
{}

/// The pages that steps lead to have names that differ.
pub fn names_differ()
    ensures { (steps : List Step) → has_repeat (names_of (after steps)) ≡ false }
{}
