//! Versions with their numbers, and how often each is held.
ghost use Rattle.std.specs.Prelude.{◌≡◌, ◌<◌, ◌≤◌, ◌+◌, ◌==◌, ◌^◌, ◌⊎◌, ◌++◌, ℕ, [], ◌∷◌, Some, None, map, MatchOption, IsSome, vec_len, if◌then◌else◌};
ghost use Rattle.std.specs.Vec.{vec_capacity};
ghost use Rattle.xdb_lists.specs.Numbers.{EndsAt};
ghost use Rattle.xdb_lists.specs.Keyed.{IsRising, at_key};
ghost use Rattle.xdb_vset.specs.Versions.{version_in, holds_of};

use std::mem;
use xdb_levels::Version;

/// A version, its number, which says how many edits it came of, and how many open holds are of it.
#[derive(Debug, Drop)]
pub struct InUse {
    pub num: u64,
    pub levels: Version,
    pub holds: u64,
}

/// The place of the version of this number; or else the place where it belongs.
pub fn find(versions: &[InUse], num: u64) -> Result<usize, usize>
    requires { IsRising (λ v. v.num) versions.now }
    ensures { EndsAt (λ v. v.num) (λ v. v.num < num) (λ v. num < v.num) versions.now num result }
{
    versions.binary_search_by(|other| other.num.cmp(&num))
}

/// The version is held once more.
pub fn hold(current: &mut InUse, older: &mut Vec<InUse>, num: u64)
    requires rising { IsRising (λ v. v.num) older.old.items }
    requires stands { (num ≡ current.old.num) ⊎ IsSome (at_key (λ v. v.num) num older.old.items) }
    requires small { holds_of num current.old older.old.items + 1 < 2 ^ 64 }
    ensures current { version_in current.new ≡ version_in current.old }
    ensures older { map version_in older.new.items ≡ map version_in older.old.items }
    ensures holds { (v : ℕ) → holds_of v current.new older.new.items ≡ holds_of v current.old older.old.items + (if v == num then 1 else 0) }
{
    if num == current.num {
        current.holds += 1;
        return;
    }
    if let Ok(at) = find(older, num) {
        let version = &mut older[at];
        version.holds += 1;
    }
}

/// Puts the version in the place of the current one, which joins the older ones where it is held, and is
/// given back otherwise. Takes no memory.
pub fn follow(current: &mut InUse, older: &mut Vec<InUse>, next: InUse) -> Option<InUse>
    requires room { vec_len older.old < vec_capacity older.old }
    ensures current { current.new ≡ next }
    ensures before { MatchOption result ((0 < current.old.holds) × (older.new.items ≡ older.old.items ++ current.old ∷ [])) (λ gone. (gone ≡ current.old) × (current.old.holds ≡ 0) × (older.new.items ≡ older.old.items)) }
{
    let before = mem::replace(current, next);
    if before.holds == 0 {
        return Some(before);
    }
    let Ok(()) = older.push(before) else {
        unreachable!()
    };
    None
}
