//! Where targets in memory lie.
ghost use Rattle.std.specs.Prelude.{◌≡◌, ◌+◌, ◌<◌, ◌≤◌, ◌++◌, ◌∷◌, [], true, false, if◌then◌else◌, Some, None, MatchOption, bytes_eq, vec_len, vec_capacity, length};
ghost use Rattle.std.specs.List.{list_all};
ghost use Rattle.ix_base.specs.Outside.{begun, last_grown, last_finished, room_of};
ghost use Rattle.ix_base.specs.Slots.{is_within, target_at, targets_at};

/// Where the parts of a target lie: its directory word from `dir`, its name from `name`, and its bytes from `bytes` to `end`.
#[derive(Clone, Copy)]
pub struct Slot {
    pub dir: usize,
    pub name: usize,
    pub bytes: usize,
    pub end: usize,
    pub finished: bool,
}

/// Targets that lie in one list of bytes, the last apart from the earlier ones.
#[derive(Drop)]
pub struct Shelf {
    pub held: Vec<u8>,
    pub earlier: Vec<Slot>,
    pub any: bool,
    pub last: Slot,
    ghost none: { any ≡ false → length earlier.items ≡ 0 },
    ghost each_within: { list_all (is_within (length held.items)) earlier.items ≡ true },
    ghost last_within: { is_within (length held.items) last ≡ true },
    ghost last_end: { last.end ≡ length held.items },
    ghost filled: { room_of (targets_at held.items earlier.items any last) ≡ length held.items },
}

impl Shelf {
    ghost use Rattle.ix_base.specs.Shelf.{shelf_targets};
    ghost use Rattle.ix_base.specs.Outside.{first_named};

    pub fn new(held: Vec<u8>, earlier: Vec<Slot>) -> Shelf
        requires held { held.items ≡ [] }
        requires earlier { earlier.items ≡ [] }
        ensures targets { shelf_targets result ≡ [] }
        ensures parts { (result.held ≡ held) × (result.earlier ≡ earlier) × (result.any ≡ false) }
    {
        Shelf {
            held,
            earlier,
            any: false,
            last: Slot {
                dir: 0,
                name: 0,
                bytes: 0,
                end: 0,
                finished: false,
            },
        }
    }

    /// Adds a target with no bytes.
    pub fn add(&mut self, dir: &str, name: &str)
        requires held { vec_len self.old.held + (length dir.now + length name.now) ≤ vec_capacity self.old.held }
        requires earlier { vec_len self.old.earlier < vec_capacity self.old.earlier }
        ensures targets { shelf_targets self.new ≡ shelf_targets self.old ++ begun dir.now name.now ∷ [] }
        ensures len { vec_len self.new.held ≡ vec_len self.old.held + (length dir.now + length name.now) }
        ensures has_room { vec_capacity self.old.held ≤ vec_capacity self.new.held }
        ensures places { vec_capacity self.old.earlier ≤ vec_capacity self.new.earlier }
        ensures count { vec_len self.new.earlier ≡ vec_len self.old.earlier + (if self.old.any then 1 else 0) }
        ensures any { self.new.any ≡ true }
        ensures unfinished { self.new.last.finished ≡ false }
    {
        set_aside(&mut self.earlier, self.any, self.last);
        let start = self.held.len();
        append(&mut self.held, dir.as_bytes());
        let end_of_dir = self.held.len();
        append(&mut self.held, name.as_bytes());
        let end = self.held.len();
        self.last = Slot {
            dir: start,
            name: end_of_dir,
            bytes: end,
            end,
            finished: false,
        };
        self.any = true;
    }

    /// Adds bytes to the last target.
    pub fn grow(&mut self, piece: &[u8])
        requires any { self.old.any ≡ true }
        requires held { vec_len self.old.held + length piece.now ≤ vec_capacity self.old.held }
        ensures targets { shelf_targets self.new ≡ last_grown piece.now (shelf_targets self.old) }
        ensures len { vec_len self.new.held ≡ vec_len self.old.held + length piece.now }
        ensures has_room { vec_capacity self.old.held ≤ vec_capacity self.new.held }
        ensures earlier { self.new.earlier ≡ self.old.earlier }
        ensures any { self.new.any ≡ true }
        ensures finished { self.new.last.finished ≡ self.old.last.finished }
    {
        append(&mut self.held, piece);
        self.last.end = self.held.len();
    }

    /// Finishes the last target.
    pub fn finish(&mut self)
        requires any { self.old.any ≡ true }
        ensures targets { shelf_targets self.new ≡ last_finished (shelf_targets self.old) }
        ensures finished { self.new.last.finished ≡ true }
        ensures held { self.new.held ≡ self.old.held }
        ensures earlier { self.new.earlier ≡ self.old.earlier }
        ensures any { self.new.any ≡ true }
    {
        self.last.finished = true;
    }

    /// The first target of a name.
    pub fn find(&self, name: &str) -> Option<Slot>
        ensures { MatchOption result (first_named name.now (shelf_targets self.now) ≡ None)
            (λ slot. (is_within (length self.now.held.items) slot ≡ true)
            × (first_named name.now (shelf_targets self.now) ≡ Some (target_at self.now.held.items slot))) }
    {
        for slot in &self.earlier {
            if is_named(&self.held, *slot, name) {
                return Some(*slot);
            }
        }
        if self.any && is_named(&self.held, self.last, name) {
            return Some(self.last);
        }
        None
    }

    /// The bytes of a target.
    pub fn bytes_of(&self, slot: Slot) -> &[u8]
        requires { is_within (length self.now.held.items) slot ≡ true }
        ensures { result.now ≡ (target_at self.now.held.items slot).bytes }
    {
        &self.held[slot.bytes..slot.end]
    }
}

/// Whether the target of a slot has this name.
fn is_named(held: &[u8], slot: Slot, name: &str) -> bool
    requires { is_within (length held.now) slot ≡ true }
    ensures { result ≡ bytes_eq (target_at held.now slot).name name.now }
{
    &held[slot.name..slot.bytes] == name.as_bytes()
}

/// Puts the last slot, where there is one, behind the earlier ones.
fn set_aside(earlier: &mut Vec<Slot>, any: bool, last: Slot)
    requires { vec_len earlier.old < vec_capacity earlier.old }
    ensures items { earlier.new.items ≡ earlier.old.items ++ (if any then last ∷ [] else []) }
    ensures len { vec_len earlier.new ≡ vec_len earlier.old + (if any then 1 else 0) }
    ensures places { vec_capacity earlier.old ≤ vec_capacity earlier.new }
{
    if any {
        earlier.push_reserved(last);
    }
}

/// Appends bytes for which there is room.
pub fn append(held: &mut Vec<u8>, piece: &[u8])
    requires { vec_len held.old + length piece.now ≤ vec_capacity held.old }
    ensures items { held.new.items ≡ held.old.items ++ piece.now }
    ensures len { vec_len held.new ≡ vec_len held.old + length piece.now }
    ensures length { length held.new.items ≡ length held.old.items + length piece.now }
    ensures has_room { vec_capacity held.old ≤ vec_capacity held.new }
{
    match held.extend_from_slice(piece) {
        Ok(()) => {}
        Err(_) => unreachable!(),
    }
}
