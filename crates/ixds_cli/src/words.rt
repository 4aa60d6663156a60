//! The words of the command line, as the system hands them over.
ghost use Rattle.std.specs.Prelude.{◌≡◌, Some, IfOk, drop, map, string_bytes};
ghost use Rattle.std.specs.Vec.Iter.{into_iter_items};
ghost use Rattle.ixds_cli.specs.Words.{words_in};

use ix_base::{NoMemory, Text};
use std::alloc::Global;
use std::env::Args;
use std::io;

/// The texts of all words but the first.
fn texts_of(alloc: Global, all: Args) -> Result<Vec<Text>, NoMemory>
    ensures { IfOk result (λ words. words.items ≡ drop 1 (map string_bytes (into_iter_items all))) }
{
    let mut words = Vec::new(alloc);
    for word in all.skip(1) {
        let word = Text::of(alloc, word.as_str())?;
        words.push(word)?;
    }
    Ok(words)
}

/// The words behind the program's name. Where one of them isn't text there are none, which give no command.
pub(crate) fn words_of(alloc: Global, handed: io::Result<Args>) -> Result<Vec<Text>, NoMemory>
    ensures { IfOk result (λ words. words_in handed ≡ Some words.items) }
{
    match handed {
        Ok(all) => texts_of(alloc, all),
        Err(error) => match error.kind() {
            io::ErrorKind::InvalidData => Ok(Vec::new(alloc)),
            _ => Err(NoMemory),
        },
    }
}
