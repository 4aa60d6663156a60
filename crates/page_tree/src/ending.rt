//! The end of a page.
ghost use Rattle.std.specs.Prelude.{◌≡◌, ◌≢◌, ◌≤◌, ℕ, List, Option, length, drop, string_bytes, Some, None, Err, Ok, IfOk, MatchResult, true, []};
ghost use Rattle.ix_base.specs.Elements.{pages_of};
ghost use Rattle.ix_base.specs.Spaces.{AreNumbered, spaces_of};
ghost use Rattle.ix_base.specs.Trees.{tree_of};
ghost use Rattle.page_text.specs.Model.{answer};
ghost use Rattle.page_tree.specs.MachineSteps.{acted_on, end_of};
ghost use Rattle.page_tree.specs.Break.{fault, behind_constructs};
ghost use Rattle.page_tree.specs.Buildings.{state_of, IsOnPage};
ghost use Rattle.page_constructs.specs.Constructs.{Byte, finished, first_offset};
ghost use Rattle.page_tree.specs.Machine.{outline_of, whole, State};
ghost use Rattle.page_tree.specs.Stacks.{AreAll};
ghost use Rattle.page_tree.specs.Model.{verdict_of};
ghost use Rattle.page_tree.specs.PendingText.{Waits, fault_at};

use crate::builder::PageFault;
use crate::pending::Pending;
use crate::setting::Setting;
use crate::settle::{Break, settle};
use crate::tree::Building;
use ix_base::{Element, Rule};
use page_constructs::TagRoom;
use page_text::TextFault;

pub(crate) fn fault_of(broken: Break) -> PageFault
    ensures { result ≡ PageFault.Broken broken.offset broken.rule }
{
    PageFault::Broken {
        offset: broken.offset,
        rule: broken.rule,
    }
}

/// What is broken in the text of a page, whose constructs have no break before it.
fn fault_in_text(fault: TextFault) -> PageFault
    ensures told { result ≢ PageFault.NoMemory → (size : _) (us : _) (o : _)
        → verdict_of (Err result) ≡ behind_constructs size (Some fault) us o }
    ensures memory { result ≡ PageFault.NoMemory → fault ≡ TextFault.NoMemory }
{
    match fault {
        TextFault::BadBytes { offset } => PageFault::Broken {
            offset,
            rule: Rule::W1,
        },
        TextFault::BadChar { offset } => PageFault::Broken {
            offset,
            rule: Rule::W2,
        },
        TextFault::NoMemory => PageFault::NoMemory,
    }
}

/// The root of a page whose text has no break, or else the break that is left: `rest` is the offset of the first byte that
/// no whole construct has.
fn root_behind<'a>(
    building: &Building<'a>,
    rest: Option<u64>,
    size: u64,
) -> Result<&'a Element<'a>, Break>
    ensures told { (us : _) → first_offset us ≡ rest → MatchResult result
        (λ e. None ≡ behind_constructs size None us (outline_of (state_of building.now)))
        (λ b. Some (fault_at b) ≡ behind_constructs size None us (outline_of (state_of building.now))) }
    ensures root { IfOk result (λ e. Some (tree_of e.now) ≡ (state_of building.now).root) }
    ensures page { (page : ℕ) → IsOnPage page building.now → IfOk result (λ e. AreAll page (pages_of e.now)) }
    ensures spaces { (page : ℕ) → IsOnPage page building.now → IfOk result (λ e. AreNumbered (spaces_of e.now)) }
{
    if let Some(offset) = rest {
        return Err(Break {
            offset,
            rule: Rule::W3,
        });
    }
    if !building.is_outside() {
        return Err(Break {
            offset: size,
            rule: Rule::W6,
        });
    }
    match building.finished() {
        Some(root) => Ok(root),
        None => Err(Break {
            offset: size,
            rule: Rule::W12,
        }),
    }
}

/// The offset of the first byte from a place on, where there is one.
fn rest_offset(pending: &Pending, at: usize) -> Option<u64>
    requires within { at ≤ length (string_bytes pending.now.text) }
    requires behind { at ≢ 0 → pending.now.places.even ≤ at }
    ensures { (us : List Byte) → Waits pending.now us → first_offset (drop at us) ≡ result }
{
    if at < pending.text.len() {
        Some(pending.places.offset(at))
    } else {
        None
    }
}

/// Ends a page of so many bytes, whose characters ended so.
pub(crate) fn end<'a>(
    setting: &Setting<'a>,
    building: &mut Building<'a>,
    room: &mut TagRoom<'a>,
    stop: Result<(), TextFault>,
    pending: &Pending,
    size: u64,
) -> Result<&'a Element<'a>, PageFault>
    ensures verdict { (us : List Byte) (z : _) → Waits pending.now us → stop ≡ answer z → result ≢ Err PageFault.NoMemory
        → verdict_of result ≡ end_of setting.now.depth (state_of building.old) pending.now.is_first us z size }
    ensures root { IfOk result (λ e. (us : List Byte) (z : _) → Waits pending.now us → stop ≡ answer z → (t : State) × (z ≡ None)
        × ((finished true pending.now.is_first us).rest ≡ [])
        × (acted_on setting.now.depth (state_of building.old) true pending.now.is_first us ≡ Ok t)
        × (whole t.frames t.root ≡ Some (tree_of e.now))) }
    ensures page { IfOk result (λ e. IsOnPage setting.now.page building.old
        → AreAll setting.now.page (pages_of e.now)) }
    ensures spaces { IfOk result (λ e. IsOnPage setting.now.page building.old → AreNumbered (spaces_of e.now)) }
{
    let Ok(settled) = settle(
        setting,
        building,
        room,
        stop.is_ok(),
        pending.is_first,
        pending.text.as_str(),
        pending.places,
        pending.sought,
    ) else {
        return Err(PageFault::NoMemory);
    };
    if let Some(broken) = settled.broken {
        return Err(fault_of(broken));
    }
    if let Err(fault) = stop {
        return Err(fault_in_text(fault));
    }
    let rest = rest_offset(pending, settled.taken);
    match root_behind(building, rest, size) {
        Ok(root) => Ok(root),
        Err(broken) => Err(fault_of(broken)),
    }
}
