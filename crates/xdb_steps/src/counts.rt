//! What a version set counts, and what else is seen of the plain state.
ghost use Rattle.std.specs.Prelude.{◌≡◌, ℕ, ◌+◌, ◌≤◌, ◌==◌, ◌||◌, ◌∷◌, ◌++◌, [], Bool, not, true, false, List, map, Some, None, option_map, if◌then◌else◌};
ghost use Rattle.xdb_edit.specs.Changes.{Changes};
ghost use Rattle.xdb_edit.specs.Versions.{edited};
ghost use Rattle.xdb_lists.specs.Numbers.{is_among};
ghost use Rattle.xdb_plain.specs.Counts.{count, counts, dead};
ghost use Rattle.xdb_plain.specs.State.{Plain, Hold, Holder, found_job};
ghost use Rattle.xdb_plain.specs.Upkeep.{flush_due};
ghost use Rattle.xdb_rangedel.specs.Members.{Has, SameMembers};
ghost use Rattle.xdb_steps.specs.Core.{Core, Files, Contents, edited_files, without_hold, running_job, flush_idle};
ghost use Rattle.xdb_steps.specs.Keeps.{Agrees};
ghost use Rattle.xdb_steps.specs.SetFiles.{AreOfSet};
ghost use Rattle.xdb_vset.specs.Holds.{slot_of, is_held};
ghost use Rattle.xdb_vset.specs.Seen.{Seen, IsSet, named, is_dead, version_of};
ghost use Rattle.xdb_vset.specs.declared.holds.Slot.{Slot};

/// Whether a flush is due, and which job has a number, is seen of the parts.
pub fn parts_tell_of_jobs()
    ensures flush_due { (c : Core) (p : Plain) → Agrees c p → flush_due p ≡ not (flush_idle c) }
    ensures job { (c : Core) (p : Plain) (num : ℕ) → Agrees c p
        → found_job num p.jobs ≡ option_map (λ r. r.job) (running_job num c.jobs) }
{}

/// A version set that has the files of an engine's parts counts what the plain state counts, and the same numbers are
/// dead: so what it takes as the least dead number is the plain one.
pub fn sets_are_counted<F>()
    ensures count { (s : Seen F) (c : Core) (p : Plain) → IsSet s → AreOfSet s c.files → Agrees c p
        → (b : ℕ) → count p b ≡ named s b }
    ensures counts { (s : Seen F) (c : Core) (p : Plain) → IsSet s → AreOfSet s c.files → Agrees c p
        → counts p ≡ map (λ x. (x.num, named s x.num)) s.backings }
    ensures dead { (s : Seen F) (c : Core) (p : Plain) → IsSet s → AreOfSet s c.files → Agrees c p
        → (n : ℕ) → is_among n (dead p) ≡ is_dead s n }
    ensures dead_list { (s : Seen F) (c : Core) (p : Plain) → IsSet s → AreOfSet s c.files
        → Agrees c p
        → dead p ≡ s.dead }
    ensures nothing { (s : Seen F) (c : Core) (p : Plain) → IsSet s → AreOfSet s c.files
        → Agrees c p
        → ((n : ℕ) → is_dead s n ≡ false) → dead p ≡ [] }
    ensures least { (s : Seen F) (c : Core) (p : Plain) (d : ℕ) → IsSet s → AreOfSet s c.files
        → Agrees c p
        → is_dead s d ≡ true → ((n : ℕ) → is_dead s n ≡ true → d ≤ n)
        → (others : List ℕ) × (dead p ≡ d ∷ others) }
{}

/// What each call of a version set leaves of the files that it has: a ticket is new and holds nothing, a hold is of the
/// current version, what is given back goes, an edit leads to the next version, and numbers become known or are taken.
pub fn sets_go_on<F>()
    ensures unused { (s : Seen F) (f : Files) (t : ℕ) (h : Hold) → AreOfSet s f
        → slot_of t s.slots ≡ Some None
        → Has f.holds h → h.id ≡ t → ⊥ }
    ensures ticket { (s : Seen F) (f : Files) (slots : List Slot) (next t : ℕ) → AreOfSet s f
        → slot_of t s.slots ≡ None
        → ((n : ℕ) → slot_of n slots ≡ (if n == t then Some None else slot_of n s.slots))
        → AreOfSet (record s { slots = slots; next = next }) f }
    ensures hold { (s : Seen F) (f : Files) (slots : List Slot) (t : ℕ) (holder : Holder)
        (holds : List Hold)
        → AreOfSet s f → slot_of t s.slots ≡ Some None
        → ((n : ℕ) → slot_of n slots
        ≡ (if n == t then Some (Some s.current.num) else slot_of n s.slots))
        → SameMembers holds
        (f.holds ++ record { id = t; holder = holder; version = f.current } ∷ [])
        → AreOfSet (record s { slots = slots }) (record f { holds = holds }) }
    ensures release { (s new : Seen F) (f : Files) (id : ℕ) (holds : List Hold) → AreOfSet s f
        → new.current ≡ s.current → new.known ≡ s.known → new.taken ≡ s.taken
        → ((n : ℕ) → slot_of n new.slots ≡ (if n == id then None else slot_of n s.slots))
        → ((v : ℕ) → version_of new v
        ≡ (if s.current.num == v || is_held v new.slots then version_of s v else None))
        → SameMembers holds (without_hold id f.holds) → AreOfSet new (record f { holds = holds }) }
    ensures install { (s new : Seen F) (f : Files) (e : Changes) (contents : Contents)
        (known : List ℕ)
        → AreOfSet s f → IsSet s
        → new.current ≡ record { num = s.current.num + 1; levels = edited s.current.levels e }
        → new.slots ≡ s.slots → new.taken ≡ s.taken
        → ((v : ℕ) → version_of new v ≡ (if new.current.num == v then Some new.current.levels
        else (if is_held v s.slots then version_of s v else None)))
        → ((n : ℕ) → is_among n known ≡ is_among n new.known)
        → AreOfSet new (edited_files f e contents known) }
    ensures numbers { (s new : Seen F) (f : Files) (known taken : List ℕ) → AreOfSet s f
        → new.current ≡ s.current → new.older ≡ s.older → new.slots ≡ s.slots
        → ((n : ℕ) → is_among n known ≡ is_among n new.known)
        → ((n : ℕ) → is_among n taken ≡ is_among n new.taken)
        → AreOfSet new (record f { known = known; taken = taken }) }
{}
