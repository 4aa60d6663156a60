//! The constructs at the front of a text, built in one after another.
ghost use Rattle.std.specs.Prelude.{◌≡◌, ◌≢◌, ◌≤◌, ◌<◌, ◌+◌, ◌^◌, ◌==◌, ◌&&◌, List, IfOk, OnOk, Some, None, Ok, length, take, drop, false};
ghost use Rattle.std.specs.Str.{IsCharBoundary};
ghost use Rattle.page_tree.specs.MachineSteps.{judged, state_behind, Leads, Breaks};
ghost use Rattle.page_tree.specs.Break.{fault};
ghost use Rattle.page_constructs.specs.Constructs.{Byte, Construct, values, offset_of, size, whole_size as whole_size_of};
ghost use Rattle.page_tree.specs.Buildings.{state_of, IsOnPage};
ghost use Rattle.page_constructs.specs.Ends.{HasEnds};
ghost use Rattle.page_tree.specs.TextPlaces.{IsPlaced};
ghost use Rattle.page_constructs.specs.Searches.{IsSought};
ghost use Rattle.page_tree.specs.Effects.{Meets};

use crate::pending::Places;
use crate::refusal::Refusal;
use crate::setting::Setting;
use crate::tree::Building;
use ix_base::{NoMemory, Rule};
use page_constructs::{End, Kind, Sought, TagRoom, kind_of, meant, unsought, whole_size};

/// Where a page breaks a rule: the offset is in bytes from its front.
#[derive(Clone, Copy, Debug)]
pub(crate) struct Break {
    pub offset: u64,
    pub rule: Rule,
}

/// What became of the construct at the front of a text.
#[derive(Clone, Copy, Debug)]
enum Front {
    /// It isn't whole. So far its end was looked for.
    Waits(Sought),
    /// It was built in, and took so many bytes.
    Takes(usize),
    /// It breaks a rule.
    Breaks(Break),
}

/// What became of the constructs at the front of a text: how many bytes were built in, how far the end of the construct
/// behind them was looked for, and its break, where it has one.
#[derive(Clone, Copy, Debug)]
pub(crate) struct Settled {
    pub taken: usize,
    pub sought: Sought,
    pub broken: Option<Break>,
}

/// Builds a construct in, or the lowest rule that it breaks is an error. The attributes of a tag are collected in a list.
fn take<'a>(
    setting: &Setting<'a>,
    building: &mut Building<'a>,
    room: &mut TagRoom<'a>,
    kind: Kind,
    offset: u64,
    text: &str,
) -> Result<(), Refusal>
    requires { HasEnds kind text.now }
    ensures { let construct : Construct = record { kind = kind; start = offset; text = text.now } in
        Meets setting.now.page building.old building.new (judged setting.now.depth (state_of building.old) construct)
        (state_behind (state_of building.old) construct) result }
{
    match meant(setting.alloc, setting.arena, room, kind, offset, text)? {
        Some(token) => building.take(setting, &token),
        None => Err(Refusal::Breaks(Rule::W4)),
    }
}

/// Builds the construct at the front in, where it is whole. The text starts at an offset of the page.
fn step<'a>(
    setting: &Setting<'a>,
    building: &mut Building<'a>,
    room: &mut TagRoom<'a>,
    offset: u64,
    ended: bool,
    first: bool,
    text: &str,
    sought: Sought,
) -> Result<Front, NoMemory>
    requires { IsSought first text.now sought }
    ensures waits { (s : _) → result ≡ Ok (Front.Waits s)
        → (whole_size_of ended first text.now ≡ None) × (building.new ≡ building.old) × IsSought first text.now s }
    ensures takes { (k : _) → result ≡ Ok (Front.Takes k) → (0 < k) × IsCharBoundary text.now k
        × (whole_size_of ended first text.now ≡ Some k)
        × ((us : List Byte) → values us ≡ text.now → offset_of us ≡ offset
        → Leads ended setting.now.depth (state_of building.old) first us (state_of building.new) false (drop k us)) }
    ensures breaks { (b : _) → result ≡ Ok (Front.Breaks b) → (us : List Byte) → values us ≡ text.now → offset_of us ≡ offset
        → Breaks ended setting.now.depth (state_of building.old) first us (fault b.offset b.rule) }
    ensures on_page { OnOk result (IsOnPage setting.now.page building.old → IsOnPage setting.now.page building.new) }
{
    let size = match whole_size(ended, first, text.as_bytes(), sought) {
        End::At(size) => size,
        End::Beyond(next) => return Ok(Front::Waits(next)),
    };
    let (construct, _) = text.split_at(size);
    let kind = kind_of(first, text.as_bytes());
    match take(setting, building, room, kind, offset, construct) {
        Ok(()) => Ok(Front::Takes(size)),
        Err(Refusal::Breaks(rule)) => Ok(Front::Breaks(Break { offset, rule })),
        Err(Refusal::NoMemory) => Err(NoMemory),
    }
}

/// Whether what stands at a place of a text is the page's front.
fn is_front(first: bool, at: usize) -> bool
    ensures { result ≡ (first && (at == 0)) }
{
    first && at == 0
}

/// Builds the construct at a place in, where it is whole.
fn step_at<'a>(
    setting: &Setting<'a>,
    building: &mut Building<'a>,
    room: &mut TagRoom<'a>,
    places: Places,
    at: usize,
    ended: bool,
    first: bool,
    text: &str,
    sought: Sought,
) -> Result<Front, NoMemory>
    requires within { at < length text.now }
    requires boundary { IsCharBoundary text.now at }
    requires behind { at ≢ 0 → places.even ≤ at }
    requires fits { places.base + length text.now < 2 ^ 64 + places.even }
    requires sought { IsSought (first && (at == 0)) (drop at text.now) sought }
    ensures waits { (s : _) → result ≡ Ok (Front.Waits s)
        → (whole_size_of ended (first && (at == 0)) (drop at text.now) ≡ None) × (building.new ≡ building.old)
        × IsSought (first && (at == 0)) (drop at text.now) s }
    ensures takes { (k : _) → result ≡ Ok (Front.Takes k) → (0 < k) × IsCharBoundary text.now (at + k)
        × (whole_size_of ended (first && (at == 0)) (drop at text.now) ≡ Some k)
        × ((us : List Byte) → IsPlaced text.now places us
        → Leads ended setting.now.depth (state_of building.old) (first && (at == 0)) (drop at us)
        (state_of building.new) false (drop (at + k) us)) }
    ensures breaks { (b : _) → result ≡ Ok (Front.Breaks b) → (us : List Byte) → IsPlaced text.now places us
        → Breaks ended setting.now.depth (state_of building.old) (first && (at == 0)) (drop at us) (fault b.offset b.rule) }
    ensures on_page { OnOk result (IsOnPage setting.now.page building.old → IsOnPage setting.now.page building.new) }
{
    let (_, rest) = text.split_at(at);
    let start = places.offset(at);
    step(
        setting,
        building,
        room,
        start,
        ended,
        is_front(first, at),
        rest,
        sought,
    )
}

/// Builds the constructs at the front in, one after another, up to one that isn't whole or breaks a rule.
///
/// `ended` says that the text ends the page and its characters end well, `first` that it begins the page, and `sought` how
/// far the end of its first construct was looked for. A tag is read into `room`, one after another.
pub(crate) fn settle<'a>(
    setting: &Setting<'a>,
    building: &mut Building<'a>,
    room: &mut TagRoom<'a>,
    ended: bool,
    first: bool,
    text: &str,
    places: Places,
    sought: Sought,
) -> Result<Settled, NoMemory>
    requires even { places.even ≤ length text.now }
    requires fits { places.base + length text.now < 2 ^ 64 + places.even }
    requires unsettled { size first (take places.even text.now) ≡ None }
    requires sought { IsSought first text.now sought }
    ensures taken { IfOk result (λ r. IsCharBoundary text.now r.taken × (r.taken ≢ 0 → places.even ≤ r.taken)) }
    ensures waits { IfOk result (λ r. r.broken ≡ None
        → (whole_size_of ended (first && (r.taken == 0)) (drop r.taken text.now) ≡ None)
        × IsSought (first && (r.taken == 0)) (drop r.taken text.now) r.sought) }
    ensures leads { IfOk result (λ r. r.broken ≡ None → (us : List Byte) → IsPlaced text.now places us
        → Leads ended setting.now.depth (state_of building.old) first us
        (state_of building.new) (first && (r.taken == 0)) (drop r.taken us)) }
    ensures breaks { IfOk result (λ r. (b : _) → r.broken ≡ Some b → (us : List Byte) → IsPlaced text.now places us
        → Breaks ended setting.now.depth (state_of building.old) first us (fault b.offset b.rule)) }
    ensures on_page { OnOk result (IsOnPage setting.now.page building.old → IsOnPage setting.now.page building.new) }
{
    let bytes = text.as_bytes();
    let mut at = 0;
    let mut sought = sought;
    'constructs: while at < bytes.len() {
        match step_at(
            setting, building, room, places, at, ended, first, text, sought,
        )? {
            Front::Waits(sought) => {
                return Ok(Settled {
                    taken: at,
                    sought,
                    broken: None,
                })
            }
            Front::Takes(size) => {
                at += size;
                sought = unsought();
            }
            Front::Breaks(broken) => {
                return Ok(Settled {
                    taken: at,
                    sought: unsought(),
                    broken: Some(broken),
                })
            }
        }
    }
    Ok(Settled {
        taken: at,
        sought: unsought(),
        broken: None,
    })
}
