//! Laws of the definitions, each a function that does nothing.
ghost use Rattle.std.specs.Prelude.{◌≡◌, ◌+◌, ◌&&◌, ◌||◌, ◌++◌, ◌∷◌, [], ℕ, List, true, false};
ghost use Rattle.xdb_plain.specs.State.{Plain, opening};
ghost use Rattle.xdb_plain.specs.Changes.{after};
ghost use Rattle.xdb_plain.specs.Failures.{faults, has_damage, is_faultless};
ghost use Rattle.xdb_plain.specs.Holds.{HoldsFit};
ghost use Rattle.xdb_plain.specs.Outcomes.{stays, outcome, is_refused};
ghost use Rattle.xdb_plain.specs.Steps.{MayStand};
ghost use Rattle.xdb_plain.specs.Legal.{after_all, Legal, Right, AnswersRight};
ghost use Rattle.xdb_plain.specs.Possible.{is_reply_of};
ghost use Rattle.xdb_plain.specs.Replies.{same_by};
ghost use Rattle.xdb_plain.specs.Runs.{Run, first_run, run_after, run_over, IsBlock, AreBlocks, IsDrain, IsRunOf};
ghost use Rattle.xdb_plain.specs.Workers.{notes_by};
ghost use Rattle.xdb_plain.specs.declared.act.By.{By};
ghost use Rattle.xdb_plain.specs.declared.note.Note.{Note};
ghost use Rattle.xdb_plain.specs.declared.script.Line.{Line};

/// A history goes on by one note that may stand.
pub fn history_goes_on()
    ensures state { (p : Plain) (notes : List Note) (note : Note)
        → after_all p (notes ++ note ∷ []) ≡ after (after_all p notes) note }
    ensures right { (p : Plain) (notes : List Note) (note : Note)
        → Right p notes → MayStand (after_all p notes) note → AnswersRight (after_all p notes) note.act note.reply
        → Right p (notes ++ note ∷ []) }
    ensures legal { (p : Plain) (notes : List Note) (note : Note)
        → Legal p notes → MayStand (after_all p notes) note → Legal p (notes ++ note ∷ []) }
    ensures right_is_legal { (p : Plain) (notes : List Note) → Right p notes → Legal p notes }
{}

/// A run goes on by one line and its block, and ends with the drain.
pub fn run_goes_on()
    ensures blocks { (r : Run) (lines : List Line) (notes : List Note) (line : Line) (block : List Note)
        → AreBlocks r lines notes → IsBlock (run_over r lines notes) line.by line.cmd block
        → AreBlocks r (lines ++ line ∷ []) (notes ++ block) }
    ensures behind { (r : Run) (lines : List Line) (notes : List Note) (line : Line) (block : List Note)
        → AreBlocks r lines notes → IsBlock (run_over r lines notes) line.by line.cmd block
        → run_over r (lines ++ line ∷ []) (notes ++ block) ≡ run_after (run_over r lines notes) line.cmd block }
    ensures state { (r : Run) (lines : List Line) (notes : List Note)
        → AreBlocks r lines notes → (run_over r lines notes).plain ≡ after_all r.plain notes }
    ensures ends { (first_seq first_file : ℕ) (lines : List Line) (notes drained : List Note)
        → AreBlocks (first_run (opening first_seq first_file)) lines notes
        → IsDrain (after_all (opening first_seq first_file) notes) drained
        → IsRunOf first_seq first_file lines (notes ++ drained) }
{}

/// A note belongs to the part of the one who made it, and leaves every other part.
pub fn part_goes_on()
    ensures same { (by : By) (notes : List Note) (note : Note) → same_by note.by by ≡ true
        → notes_by by (notes ++ note ∷ []) ≡ notes_by by notes ++ note ∷ [] }
    ensures other { (by : By) (notes : List Note) (note : Note) → same_by note.by by ≡ false
        → notes_by by (notes ++ note ∷ []) ≡ notes_by by notes }
{}

/// A step that was refused, or failed with nothing to end, leaves the state as it was.
pub fn refused_steps_change_nothing()
    ensures same { (p : Plain) (note : Note) → MayStand p note → note.holds ≡ []
        → is_refused p note.act (outcome note.reply) ≡ true → after p note ≡ p }
    ensures no_holds { (p : Plain) (note : Note) → HoldsFit p note → outcome note.reply ≡ stays → note.holds ≡ [] }
{}

/// A reply that may stand is one that its act can have at all.
pub fn replies_are_of_their_acts()
    ensures { (p : Plain) (note : Note) → MayStand p note → is_reply_of note.act note.reply ≡ true }
{}

/// What a history tells of devices that failed and of damaged files adds up over its parts, and a faultless one tells
/// of neither.
pub fn failures_add_up()
    ensures faults { (a b : List Note) → faults (a ++ b) ≡ faults a + faults b }
    ensures damage { (a b : List Note) → has_damage (a ++ b) ≡ (has_damage a || has_damage b) }
    ensures faultless { (a b : List Note) → is_faultless (a ++ b) ≡ (is_faultless a && is_faultless b) }
    ensures tells_none { (notes : List Note) → is_faultless notes ≡ true
        → (faults notes ≡ 0) × (has_damage notes ≡ false) }
    ensures only { (notes : List Note) → faults notes ≡ 0 → has_damage notes ≡ false → is_faultless notes ≡ true }
{}
