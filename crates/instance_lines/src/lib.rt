//! The lines of the canonical text of a content, and the content in the order of these.
#![tactic(auto)]

ghost use Rattle.std.specs.Prelude.{◌≡◌, ◌+◌, ◌^◌, ◌<◌, IsTrue, OnOk, OnErr, IfOk, option_map};
ghost use Rattle.std.specs.List.{concat};
ghost use Rattle.ix_base.specs.Outside.{HasCause, last_grown, GainsFront};
ghost use Rattle.instance_lines.specs.Arrangement.{arranged};
ghost use Rattle.instance_lines.specs.Elements.{lines_of_facts};
ghost use Rattle.instance_lines.specs.Writable.{IsWritable};

use ix_base::{Content, Failed, List, NoMemory, TargetSink, Text};
use std::alloc::Global;

mod arranged_note;
mod arrangement;
mod context;
mod fact;
mod keys;
mod lines;
mod markup;
mod moment;
mod names;
mod note;
mod prefix;
mod reference;
mod sort;
mod spaces;
mod spelled;
mod unit;

pub use fact::fact_lines_in;
pub use lines::{all_lines, all_lines_with};
pub use names::names_in;
pub use note::arc_of;
pub use reference::{linkbase_line, role_line, schema_line};

/// The same content with each list in the order in which its instance is written. References, locators, footnotes and arcs
/// stand once, contexts, units and facts as often as before, and the members of a tuple keep their order. The content is given
/// up where memory is wanting.
pub fn arrange(alloc: Global, content: Content) -> Result<Content, NoMemory>
    requires { IsWritable content }
    ensures { IfOk result (λ c. c ≡ arranged content) }
{
    let (content, _) = arrange_with_lines(alloc, content)?;
    Ok(content)
}

/// The same content in that order, and the lines of its facts, which are made to put the facts in order.
pub fn arrange_with_lines(
    alloc: Global,
    content: Content,
) -> Result<(Content, List<Text>), NoMemory>
    requires { IsWritable content }
    ensures content { IfOk result (λ p. p.0 ≡ arranged content) }
    ensures lines { IfOk result (λ p. p.1 ≡ lines_of_facts p.0) }
{
    let mut content = content;
    let lines = arrangement::put_all_in_order(alloc, &mut content)?;
    Ok((content, lines))
}

/// Puts lines into the target begun last, one piece for each.
pub fn put_lines<S: TargetSink>(lines: &[Text], sink: &mut S) -> Result<(), Failed>
    requires count { S.faults sink.old + 1 < 2 ^ 64 }
    requires opened { IsTrue (S.is_open sink.old) }
    ensures cause { HasCause (S.faults sink.old) (S.faults sink.new) result }
    ensures ok { OnOk result (S.targets sink.new ≡ option_map (last_grown (concat lines.now)) (S.targets sink.old)) }
    ensures err { OnErr result (GainsFront (concat lines.now) (S.targets sink.old) (S.targets sink.new)
        × IsTrue (S.last_failed sink.new)) }
    ensures opened { IsTrue (S.is_open sink.new) }
    ensures asked { (S.asked sink.new ≡ S.asked sink.old) × (S.asked_len sink.new ≡ S.asked_len sink.old) }
    ensures numbers { S.numbers sink.new ≡ S.numbers sink.old }
{
    for line in lines {
        sink.put(line.as_str().as_bytes())?;
    }
    Ok(())
}
