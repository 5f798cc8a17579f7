//! Tickets and holds.
ghost use Rattle.std.specs.Prelude.{◌≡◌, ◌+◌, ◌≤◌, ◌<◌, ◌==◌, ℕ, Some, None, IsSome, IfSome, vec_len, if◌then◌else◌};
ghost use Rattle.std.specs.Vec.{vec_capacity};
ghost use Rattle.xdb_lists.specs.Numbers.{EndsAt};
ghost use Rattle.xdb_lists.specs.Keyed.{IsRising};
ghost use Rattle.xdb_vset.specs.Holds.{slot_of, held_by};

use std::marker::Model;

/// Room for one hold.
#[derive(Debug, Drop)]
pub struct HoldTicket {
    pub(crate) id: u64,
}

impl Model for HoldTicket {
    ghost use Rattle.std.specs.Prelude.{ℕ};

    ghost Value = { ℕ };

    ghost view = { λ t. t.id };
}

/// A hold of a version. `VersionSet::release` takes it back; one that is dropped holds on.
#[derive(Debug, Drop)]
pub struct HoldId {
    pub(crate) id: u64,
    pub(crate) version: u64,
}

impl Model for HoldId {
    ghost use Rattle.xdb_vset.specs.Hold.{Hold, hold};

    ghost Value = { Hold };

    ghost view = { λ h. hold h.id h.version };
}

impl HoldId {
    /// The number of the hold, which is that of its ticket.
    pub fn id(&self) -> u64
        ensures { result ≡ self.now.id }
    {
        self.id
    }

    /// The number of the version that it holds.
    pub fn version(&self) -> u64
        ensures { result ≡ self.now.version }
    {
        self.version
    }
}

/// A ticket's number, and the version that is held with it once it was used.
#[derive(Debug, Drop)]
pub struct Slot {
    pub id: u64,
    pub version: Option<u64>,
}

/// The place of the slot of this number; or else the place where it belongs.
fn find(slots: &[Slot], id: u64) -> Result<usize, usize>
    requires { IsRising (λ s. s.id) slots.now }
    ensures { EndsAt (λ s. s.id) (λ s. s.id < id) (λ s. id < s.id) slots.now id result }
{
    slots.binary_search_by(|other| other.id.cmp(&id))
}

/// Turns the ticket into a hold of the version. Takes no memory.
pub fn fill(slots: &mut Vec<Slot>, id: u64, version: u64)
    requires rising { IsRising (λ s. s.id) slots.old.items }
    requires ticket { slot_of id slots.old.items ≡ Some None }
    ensures rising { IsRising (λ s. s.id) slots.new.items }
    ensures slot { (n : ℕ) → slot_of n slots.new.items ≡ (if n == id then Some (Some version) else slot_of n slots.old.items) }
    ensures held { (v : ℕ) → held_by v slots.new.items ≡ held_by v slots.old.items + (if v == version then 1 else 0) }
{
    if let Ok(at) = find(slots, id) {
        let slot = &mut slots[at];
        slot.version = Some(version);
    }
}

/// Takes the hold out.
pub fn empty(slots: &mut Vec<Slot>, id: u64)
    requires rising { IsRising (λ s. s.id) slots.old.items }
    ensures rising { IsRising (λ s. s.id) slots.new.items }
    ensures slot { (n : ℕ) → slot_of n slots.new.items ≡ (if n == id then None else slot_of n slots.old.items) }
    ensures held { (version : ℕ) → slot_of id slots.old.items ≡ Some (Some version) → (v : ℕ) → held_by v slots.new.items + (if v == version then 1 else 0) ≡ held_by v slots.old.items }
{
    if let Ok(at) = find(slots, id) {
        slots.remove(at);
    }
}
