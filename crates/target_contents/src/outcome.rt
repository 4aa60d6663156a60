//! Outcomes of sets of pages.
ghost use Rattle.std.specs.Prelude.{◌≡◌, ◌<◌, All, length, IfOk};
ghost use Rattle.instance_lines.specs.Elements.{lines_of_facts};

use ix_base::{Breaches, Content, List, NoMemory, Report, Text};

/// A target with its content. It keeps the lines of the facts, which are made to put these in order, so that none is made again
/// where the instance is written.
pub struct Target {
    /// The token of the target's name; the default target's is empty.
    pub name: Text,
    pub content: Content,
    lines: List<Text>,
    ghost of_facts: { lines ≡ lines_of_facts content },
}

impl Drop for Target {
    fn drop(self) {
        let Target {
            name: _,
            content: _,
            lines: _,
        } = self;
    }
}

impl Target {
    /// The target of this name with this content, whose facts have these lines.
    pub(crate) fn of(name: Text, content: Content, lines: List<Text>) -> Target
        requires { lines ≡ lines_of_facts content }
        ensures name { result.name ≡ name }
        ensures content { result.content ≡ content }
    {
        Target {
            name,
            content,
            lines,
        }
    }

    /// The name, the content, and the lines of its facts in order. It takes no memory.
    pub fn into_parts(self) -> (Text, Content, List<Text>)
        ensures name { result.0 ≡ self.name }
        ensures content { result.1 ≡ self.content }
        ensures lines { result.2 ≡ lines_of_facts self.content }
    {
        let Target {
            name,
            content,
            lines,
        } = self;
        (name, content, lines)
    }
}

/// What a set of pages comes to.
#[derive(Drop)]
pub enum Outcome {
    /// The rules that it breaks, of the first class that has any.
    Broken(Report),
    /// It breaks none, and these are its targets, in the byte order of their names.
    Whole(List<Target>),
}

impl Outcome {
    ghost use Rattle.target_contents.specs.SetOutcomes.{CanBeWritten, IsReport};

    /// The outcome of pages of these names that break these rules: the report of them.
    pub fn broken(found: Breaches, names: &[Text]) -> Result<Outcome, NoMemory>
        requires { All (λ f. f.place.page < length names.now) found }
        ensures report { IfOk result (IsReport names.now found) }
        ensures written { IfOk result CanBeWritten }
    {
        let report = found.report(names)?;
        Ok(Outcome::Broken(report))
    }
}
