//! Contexts and units.

use crate::children::Reader;
use ix_base::{Context, Element, NoMemory, Unit};
use std::alloc::Global;
use xbrl_parts::{read_context, read_unit};

/// The reader of contexts.
#[derive(Clone, Copy)]
pub(super) struct ContextReader;

/// The reader of units.
#[derive(Clone, Copy)]
pub(super) struct UnitReader;

impl Reader for ContextReader {
    type Part = Context;

    ghost use Rattle.ix_base.specs.ContextForm.{context};

    ghost reads = { λ _. context };

    fn read(&self, alloc: Global, e: &Element<'_>) -> Result<Option<Context>, NoMemory> {
        read_context(alloc, e)
    }
}

impl Reader for UnitReader {
    type Part = Unit;

    ghost use Rattle.ix_base.specs.UnitForm.{unit};

    ghost reads = { λ _. unit };

    fn read(&self, alloc: Global, e: &Element<'_>) -> Result<Option<Unit>, NoMemory> {
        read_unit(alloc, e)
    }
}
