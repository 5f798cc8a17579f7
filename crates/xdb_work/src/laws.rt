//! Laws of the definitions, each a function that does nothing.
ghost use Rattle.std.specs.Prelude.{◌≡◌, ℕ, ◌+◌, List, [], ◌∷◌, ◌++◌, length, take, nat_eq, Ok, Err, IfSome};
ghost use Rattle.xdb_device.specs.Told.{Told, Created, put};
ghost use Rattle.xdb_device.specs.Work.{cause_of};
ghost use Rattle.xdb_device.specs.declared.fault.DevNo.{DevNo};
ghost use Rattle.xdb_device.specs.declared.fault.WorkCause.TheVariants.{Memory};
ghost use Rattle.xdb_rangedel.specs.Members.{Has};
ghost use Rattle.xdb_work.specs.Work.{nums_of, IsNext, Tried, AreHeld};

use xdb_device::FileRef;

/// Work that tries the reserved numbers one by one, each by one call that creates its file, keeps the record.
pub fn numbers_are_tried<F: FileRef>()
    ensures none { (reserved : List ℕ) (t : Told) → Tried reserved [] ⊥ t t }
    ensures created { (reserved : List ℕ) (i num : ℕ) (bytes : List ℕ) (file : F) (old mid new : Told)
        → IsNext reserved i num → Tried reserved (take i reserved) ⊥ old mid
        → Created num bytes (Ok file) mid new → Tried reserved (take (i + 1) reserved) ⊥ old new }
    ensures failed { (reserved : List ℕ) (i num : ℕ) (bytes : List ℕ) (why : DevNo) (old mid new : Told)
        → IsNext reserved i num → Tried reserved (take i reserved) ⊥ old mid
        → Created {F = F} num bytes (Err why) mid new
        → Tried reserved (take (i + 1) reserved) (cause_of why ≡ Memory) old new }
{}

/// A file that is created under a new number is held beside those before it.
pub fn files_are_held<F: FileRef>()
    ensures { (num : ℕ) (is : List ℕ) (file : F) (files : List (ℕ × F)) (old new : Told)
        → (Has (nums_of files) num → ⊥) → new.holds ≡ put num is old.holds
        → length is ≡ F.size file → IfSome (F.bytes file) (λ told. told ≡ is)
        → AreHeld F.size F.bytes old.holds files
        → AreHeld F.size F.bytes new.holds (files ++ (num, file) ∷ []) }
{}
