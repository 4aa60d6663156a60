//! Laws of what words give and of what a run gives.
ghost use Rattle.std.specs.Prelude.{◌≡◌, ◌⊎◌, ◌∷◌, [], ℕ, List, Some};
ghost use Rattle.std.specs.List.{flat_map};
ghost use Rattle.std.specs.List.Sorted.{IsPermutation};
ghost use Rattle.ix_base.specs.Breaches.{report_of};
ghost use Rattle.ix_base.specs.MemTargets.{sink_targets};
ghost use Rattle.ix_base.specs.MemText.{text_taken};
ghost use Rattle.ix_base.specs.declared.breach.Breach.{Breach};
ghost use Rattle.ixds_run.specs.Answers.{Answers, outside};
ghost use Rattle.command_words.specs.Commands.{command_of, IsGiven};
ghost use Rattle.ixds_run.specs.DueOutcomes.{AreReadBack, DueOutcome, IsOutcome};
ghost use Rattle.targets.specs.Breaches.{PagesComeTo};
ghost use Rattle.ixds_run.specs.Deliveries.{Gives};
ghost use Rattle.ixds_run.specs.InMemory.{AreFit, memory_outside};
ghost use Rattle.page_session.specs.HandedPages.{Handed, bytes_of, names_of};
ghost use Rattle.ixds_run.specs.Rearrangement.{IsRearranged};
ghost use Rattle.page_verdicts.specs.Texts.{breach_line};
ghost use Rattle.command_words.specs.declared.command.Command.{Command};
ghost use Rattle.ixds_run.specs.declared.status.Status.{Status};
ghost use Rattle.ixds_run.specs.declared.status.Status.TheVariants.{NoMemory};
ghost use Rattle.page_verdicts.specs.declared.verdict.Verdict.{Verdict};
ghost use Rattle.page_verdicts.specs.Verdicts.{CommandMakes, PagesMake};
ghost use Rattle.target_contents.specs.declared.outcome.Outcome.{Outcome};

use fact_trace::laws::traced_in_any_order;
use facts::laws::one_item;
use instance_laws::read_back;
use ix_base::{MemPages, MemTargets, MemText, PageSource, TargetSink, TextSink};
use page_tree::laws::{no_tree, one_tree, sound_tree};

/// A command that words give has a base, a directory and pages that it may have.
pub fn given_command()
    ensures { (words : List (List ℕ)) (c : Command) → command_of words ≡ Some c → IsGiven c }
{}

/// The report of one breach is its line.
pub fn one_line()
    ensures { (b : Breach) → flat_map breach_line (report_of (b ∷ [])) ≡ breach_line b }
{}

/// The targets that pages mark are read back: the bytes of each denote its content, and nothing else.
pub fn said_read_back()
    ensures { (c : Command) (names bs : List (List ℕ)) (v : Verdict) → PagesMake c names bs v → AreReadBack v }
{
    sound_tree();
    read_back();
}

/// Pages that are handed over in another order say the same: as a set under any base, and under each command that may have them.
pub fn said_in_any_order()
    ensures set { (base : List ℕ) (o : Outcome) (pages others : List Handed) → IsPermutation pages others
        → PagesComeTo base (names_of pages) (bytes_of pages) o → PagesComeTo base (names_of others) (bytes_of others) o }
    ensures command { (c d : Command) (bs cs : List (List ℕ)) (v : Verdict) → IsGiven c → IsRearranged c bs d cs
        → CommandMakes c bs v → CommandMakes d cs v }
{
    sound_tree();
    traced_in_any_order();
}

/// For the pages of a command at most one outcome is due.
pub fn one_outcome()
    ensures { (c : Command) (bs : List (List ℕ)) (due other : DueOutcome) → IsOutcome c bs due → IsOutcome c bs other → due ≡ other }
{
    one_tree();
    no_tree();
    one_item();
}

/// What three objects in memory tell, in the words of the traits.
pub fn outside_in_memory(p: &MemPages, s: &MemTargets, t: &MemText)
    ensures { outside ⟦<MemPages as PageSource>⟧ ⟦<MemTargets as TargetSink>⟧ ⟦<MemText as TextSink>⟧ p.now s.now t.now
        ≡ memory_outside p.now s.now t.now }
{}

/// What a run answers to a command over objects in memory that are fit for it: the outcome is given, or memory is wanted.
pub fn complete_in_memory()
    ensures { (c : Command) (bs : List (List ℕ)) (p q : MemPages) (s u : MemTargets) (t v : MemText) (status : Status) → AreFit c bs p s t
        → Answers (Some c) (memory_outside p s t) (memory_outside q u v) (q ≡ p) (u ≡ s) (v ≡ t) status
        → Gives status (Some (sink_targets s)) (Some (sink_targets u)) (Some (text_taken t)) (Some (text_taken v)) c bs
        ⊎ (status ≡ NoMemory) }
{}
