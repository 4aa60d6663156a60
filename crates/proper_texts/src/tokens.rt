//! Texts that are tokens.
ghost use Rattle.std.specs.Prelude.{◌≡◌, ◌∷◌, ◌&&◌, []};
ghost use Rattle.std.specs.List.{list_all};
ghost use Rattle.ix_base.specs.PlainContents.{said_of};
ghost use Rattle.proper_texts.specs.Model.{IsHeld};
ghost use Rattle.instance_lines.specs.Holdings.{all_arcs, all_notes};
ghost use Rattle.instance_out.specs.Proper as proper;
ghost use Rattle.instance_lines.specs.Tables.{values_of};

use crate::held::Held;
use crate::texts::{Test, is_full, references_pass};
use ix_base::{Arc, Content, Context, Footnote, NoteLink};

fn is_full_context(context: &Context) -> bool
    ensures { result ≡ list_all proper.is_full (context.now.scheme ∷ context.now.identifier ∷ []) }
{
    is_full(context.scheme.as_str()) && is_full(context.identifier.as_str())
}

fn are_full_contexts(contexts: &[Context]) -> bool
    ensures { result ≡ list_all (λ x. list_all proper.is_full (x.scheme ∷ x.identifier ∷ [])) contexts.now }
{
    contexts.iter().all(|context| is_full_context(context))
}

fn are_full_links(links: &[NoteLink]) -> bool
    ensures { result ≡ list_all (λ l. proper.is_full l.role) links.now }
{
    links.iter().all(|link| is_full(link.role.as_str()))
}

fn are_full_notes(notes: &[&Footnote]) -> bool
    ensures { result ≡ list_all (λ f. list_all proper.is_full (f.role ∷ f.lang ∷ [])) (values_of notes.now) }
{
    for note in notes {
        if !(is_full(note.role.as_str()) && is_full(note.lang.as_str())) {
            return false;
        }
    }
    true
}

fn are_full_arcs(arcs: &[&Arc]) -> bool
    ensures { result ≡ list_all (λ a. proper.is_full a.arcrole) (values_of arcs.now) }
{
    for arc in arcs {
        if !is_full(arc.arcrole.as_str()) {
            return false;
        }
    }
    true
}

/// Whether roles, languages and arcroles of footnote links are tokens that aren't empty.
fn are_full(content: &Content, held: &Held) -> bool
    requires { IsHeld (said_of content.now) held.now }
    ensures { result ≡ (list_all (λ l. proper.is_full l.role) content.now.notes
        && (list_all (λ f. list_all proper.is_full (f.role ∷ f.lang ∷ [])) (all_notes (said_of content.now))
        && list_all (λ a. proper.is_full a.arcrole) (all_arcs (said_of content.now)))) }
{
    are_full_links(content.notes.as_slice())
        && are_full_notes(held.notes.as_slice())
        && are_full_arcs(held.arcs.as_slice())
}

/// Whether addresses, roles, schemes, identifiers and languages are tokens that aren't empty. It takes no memory.
#[tactic(auto, using(crate::proofs::TextLaws::tokens_told))]
pub fn tokens_fit(content: &Content, held: &Held) -> bool
    requires { IsHeld (said_of content.now) held.now }
    ensures { result ≡ proper.tokens_fit (said_of content.now) }
{
    references_pass(Test::Full, content)
        && are_full_contexts(content.contexts.as_slice())
        && are_full(content, held)
}
