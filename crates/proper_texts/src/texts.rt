//! What is asked of texts.
ghost use Rattle.std.specs.Prelude.{◌≡◌, ◌∷◌, []};
ghost use Rattle.std.specs.List.{list_all};
ghost use Rattle.ix_base.specs.Forms.{is_empty};
ghost use Rattle.instance_lines.specs.Holdings as holds;
ghost use Rattle.instance_lines.specs.Lists.{of_option};
ghost use Rattle.instance_out.specs.Proper as proper;
ghost use Rattle.instance_lines.specs.Tables.{values_of};
ghost use Rattle.ix_base.specs.PlainContents.{said_of};
ghost use Rattle.proper_texts.specs.Model.{IsHeld};
ghost use Rattle.proper_texts.specs.TextTests.{parts, passes, references, rest};

use crate::held::Held;
use ix_base::{
    Accuracy, Arc, Content, Context, Dim, Footnote, Item, Linkbase, Member, NoteLink, OwnName,
    RoleRef, Text, Unit, Value, are_allowed, token,
};

/// What is asked of a text.
#[derive(Clone, Copy)]
pub enum Test {
    /// Allowed characters.
    Allowed,
    /// A token that isn't empty.
    Full,
}

/// Whether a text is a token that isn't empty.
#[tactic(auto, unfolding(ix_base::specs::Token::is_token))]
pub fn is_full(text: &str) -> bool
    ensures { result ≡ proper.is_full text.now }
{
    !text.is_empty() && token(text) == text
}

impl Test {
    /// Whether a text passes.
    pub fn passes(self, text: &str) -> bool
        ensures { result ≡ passes self text.now }
    {
        match self {
            Test::Allowed => are_allowed(text),
            Test::Full => is_full(text),
        }
    }

    /// Whether a text passes, if there is one.
    fn passes_if_some(self, text: &Option<Text>) -> bool
        ensures { result ≡ list_all (passes self) (of_option text.now) }
    {
        match text {
            Some(text) => self.passes(text.as_str()),
            None => true,
        }
    }
}

/// Whether each text passes.
pub fn texts_pass(test: Test, texts: &[Text]) -> bool
    ensures { result ≡ list_all (passes test) texts.now }
{
    texts.iter().all(|text| test.passes(text.as_str()))
}

#[tactic(auto, using(crate::proofs::GainLaws::all_both))]
fn linkbase_passes(test: Test, linkbase: &Linkbase) -> bool
    ensures { result ≡ list_all (passes test) (linkbase.now.href ∷ of_option linkbase.now.role) }
{
    test.passes(linkbase.href.as_str()) && test.passes_if_some(&linkbase.role)
}

/// Whether what references to linkbases say passes.
pub fn linkbases_pass(test: Test, linkbases: &[Linkbase]) -> bool
    ensures { result ≡ list_all (λ l. list_all (passes test) (l.href ∷ of_option l.role)) linkbases.now }
{
    linkbases
        .iter()
        .all(|linkbase| linkbase_passes(test, linkbase))
}

fn role_passes(test: Test, role: &RoleRef) -> bool
    ensures { result ≡ list_all (passes test) (holds.ref_texts role.now) }
{
    test.passes(role.uri.as_str()) && test.passes(role.href.as_str())
}

/// Whether what references to roles say passes.
pub fn roles_pass(test: Test, roles: &[RoleRef]) -> bool
    ensures { result ≡ list_all (λ r. list_all (passes test) (holds.ref_texts r)) roles.now }
{
    roles.iter().all(|role| role_passes(test, role))
}

fn member_passes(test: Test, member: &Member) -> bool
    ensures { result ≡ list_all (passes test) (holds.member_texts member.now) }
{
    match member {
        Member::Explicit(_) => true,
        Member::Typed(_, text) => test.passes(text.as_str()),
    }
}

fn dims_pass(test: Test, dims: &[Dim]) -> bool
    ensures { result ≡ list_all (λ d. list_all (passes test) (holds.member_texts d.member)) dims.now }
{
    dims.iter().all(|dim| member_passes(test, &dim.member))
}

#[tactic(auto, using(crate::proofs::GainLaws::all_both, crate::proofs::GainLaws::all_flat))]
fn context_passes(test: Test, context: &Context) -> bool
    ensures { result ≡ list_all (passes test) (holds.context_texts context.now) }
{
    test.passes(context.id.as_str())
        && test.passes(context.scheme.as_str())
        && test.passes(context.identifier.as_str())
        && dims_pass(test, context.segment.as_slice())
        && dims_pass(test, context.scenario.as_slice())
}

/// Whether what contexts say passes.
pub fn contexts_pass(test: Test, contexts: &[Context]) -> bool
    ensures { result ≡ list_all (λ x. list_all (passes test) (holds.context_texts x)) contexts.now }
{
    contexts.iter().all(|context| context_passes(test, context))
}

/// Whether the ids of units pass.
pub fn units_pass(test: Test, units: &[Unit]) -> bool
    ensures { result ≡ list_all (λ u. passes test u.id) units.now }
{
    units.iter().all(|unit| test.passes(unit.id.as_str()))
}

fn accuracy_passes(test: Test, accuracy: &Option<Accuracy>) -> bool
    ensures { result ≡ list_all (passes test) (holds.accuracy_texts accuracy.now) }
{
    match accuracy {
        None => true,
        Some(Accuracy::Decimals(digits)) => test.passes(digits.as_str()),
        Some(Accuracy::Precision(digits)) => test.passes(digits.as_str()),
    }
}

fn value_passes(test: Test, value: &Value) -> bool
    ensures { result ≡ list_all (passes test) (holds.value_texts value.now) }
{
    match value {
        Value::Nil => true,
        Value::Plain(text) => test.passes(text.as_str()),
        Value::Fraction(above, below) => {
            test.passes(above.as_str()) && test.passes(below.as_str())
        }
    }
}

#[tactic(auto, using(crate::proofs::GainLaws::all_both))]
fn item_passes(test: Test, item: &Item) -> bool
    ensures { result ≡ list_all (passes test) (holds.item_texts item.now) }
{
    test.passes(item.context.as_str())
        && test.passes_if_some(&item.unit)
        && accuracy_passes(test, &item.accuracy)
        && test.passes_if_some(&item.id)
        && value_passes(test, &item.value)
}

/// Whether what items say passes.
pub fn items_pass(test: Test, items: &[&Item]) -> bool
    ensures { result ≡ list_all (λ i. list_all (passes test) (holds.item_texts i)) (values_of items.now) }
{
    for item in items {
        if !item_passes(test, item) {
            return false;
        }
    }
    true
}

/// Whether ids pass.
pub fn ids_pass(test: Test, ids: &[&str]) -> bool
    ensures { result ≡ list_all (passes test) (values_of ids.now) }
{
    for id in ids {
        if !test.passes(id) {
            return false;
        }
    }
    true
}

fn note_passes(test: Test, note: &Footnote) -> bool
    ensures { result ≡ list_all (passes test) (holds.note_texts note.now) }
{
    test.passes(note.id.as_str())
        && test.passes(note.role.as_str())
        && test.passes(note.lang.as_str())
        && test.passes(note.body.as_str())
        && test.passes_if_some(&note.title)
}

fn notes_pass(test: Test, notes: &[Footnote]) -> bool
    ensures { result ≡ list_all (λ f. list_all (passes test) (holds.note_texts f)) notes.now }
{
    notes.iter().all(|note| note_passes(test, note))
}

fn arc_passes(test: Test, arc: &Arc) -> bool
    ensures { result ≡ list_all (passes test) (holds.arc_texts arc.now) }
{
    test.passes(arc.arcrole.as_str())
        && test.passes(arc.from_id.as_str())
        && test.passes(arc.to_id.as_str())
        && test.passes(arc.order.as_str())
}

fn arcs_pass(test: Test, arcs: &[Arc]) -> bool
    ensures { result ≡ list_all (λ a. list_all (passes test) (holds.arc_texts a)) arcs.now }
{
    arcs.iter().all(|arc| arc_passes(test, arc))
}

#[tactic(auto, using(crate::proofs::GainLaws::all_both, crate::proofs::GainLaws::all_flat))]
fn link_passes(test: Test, link: &NoteLink) -> bool
    ensures { result ≡ list_all (passes test) (holds.link_texts link.now) }
{
    test.passes(link.role.as_str())
        && texts_pass(test, link.locs.as_slice())
        && notes_pass(test, link.footnotes.as_slice())
        && arcs_pass(test, link.arcs.as_slice())
}

/// Whether what footnote links say passes.
pub fn links_pass(test: Test, links: &[NoteLink]) -> bool
    ensures { result ≡ list_all (λ l. list_all (passes test) (holds.link_texts l)) links.now }
{
    links.iter().all(|link| link_passes(test, link))
}

/// Whether the namespaces and local names of names pass.
pub fn names_pass(test: Test, names: &[&OwnName]) -> bool
    ensures { result ≡ list_all (λ n. list_all (passes test) (n.ns ∷ n.local ∷ [])) (values_of names.now) }
{
    for name in names {
        if !(test.passes(name.ns.as_str()) && test.passes(name.local.as_str())) {
            return false;
        }
    }
    true
}

/// Whether what references say passes.
pub fn references_pass(test: Test, content: &Content) -> bool
    ensures { result ≡ references (passes test) (said_of content.now) }
{
    texts_pass(test, content.schemas.as_slice())
        && linkbases_pass(test, content.linkbases.as_slice())
        && roles_pass(test, content.roles.as_slice())
        && roles_pass(test, content.arcroles.as_slice())
}

/// Whether what contexts, units and facts say passes.
fn parts_pass(test: Test, content: &Content, held: &Held) -> bool
    requires { IsHeld (said_of content.now) held.now }
    ensures { result ≡ parts (passes test) (said_of content.now) }
{
    contexts_pass(test, content.contexts.as_slice())
        && units_pass(test, content.units.as_slice())
        && items_pass(test, held.items.as_slice())
        && ids_pass(test, held.ids.as_slice())
}

/// Whether what footnote links say passes, and names.
fn rest_passes(test: Test, content: &Content, held: &Held) -> bool
    requires { IsHeld (said_of content.now) held.now }
    ensures { result ≡ rest (passes test) (said_of content.now) }
{
    links_pass(test, content.notes.as_slice()) && names_pass(test, held.names.as_slice())
}

/// Whether the characters of all texts are allowed ones. It takes no memory.
#[tactic(auto, using(crate::proofs::TextLaws::texts_told))]
pub fn texts_fit(content: &Content, held: &Held) -> bool
    requires { IsHeld (said_of content.now) held.now }
    ensures { result ≡ proper.texts_fit (said_of content.now) }
{
    references_pass(Test::Allowed, content)
        && parts_pass(Test::Allowed, content, held)
        && rest_passes(Test::Allowed, content, held)
}
