//! What steps do to the holds of versions.
ghost use Rattle.std.specs.Prelude.{◌≡◌, ℕ, ◌+◌, ◌<◌, ◌∷◌, ◌++◌, [], Bool, true, false, List, length, IsTrue, None, Some};
ghost use Rattle.xdb_edit.specs.Changes.{Changes};
ghost use Rattle.xdb_laws.specs.Answered.{is_of_now};
ghost use Rattle.xdb_plain.specs.Answers.{Landing, answer_now};
ghost use Rattle.xdb_plain.specs.Failures.{faults, is_damage};
ghost use Rattle.xdb_plain.specs.Holds.{releases, holds_due};
ghost use Rattle.xdb_plain.specs.Outcomes.{outcome, fails};
ghost use Rattle.xdb_plain.specs.State.{Plain, Hold, for_ask, OpenQuestion, found_question};
ghost use Rattle.xdb_plain.specs.Steps.{is_client};
ghost use Rattle.xdb_plain.specs.declared.act.Act.{Act};
ghost use Rattle.xdb_plain.specs.declared.act.Act.TheVariants as act;
ghost use Rattle.xdb_plain.specs.declared.act.By.{By};
ghost use Rattle.xdb_plain.specs.declared.act.By.TheVariants.{Db};
ghost use Rattle.xdb_plain.specs.declared.answer.Answer.{Answer};
ghost use Rattle.xdb_plain.specs.declared.note.HoldNote.TheVariants.{Hold as Taken, Release};
ghost use Rattle.xdb_plain.specs.declared.question.Question.{Question};
ghost use Rattle.xdb_plain.specs.declared.reply.Reply.{Reply};
ghost use Rattle.xdb_plain.specs.declared.reply.Reply.TheVariants.{Asked, Answered, Memory};
ghost use Rattle.xdb_rangedel.specs.Members.{Has, SameMembers};
ghost use Rattle.xdb_steps.specs.Between.{Held};
ghost use Rattle.xdb_steps.specs.Core.{Core, holders, asked_core, ended_core, next_hold, holding_core, without_hold};
ghost use Rattle.xdb_steps.specs.Keeps.{Agrees, Means};
ghost use Rattle.xdb_steps.specs.Notes.{full_note, plain_note, held_note};
ghost use Rattle.xdb_steps.specs.Step.{Step, HeldStep};

/// A step whose act lets go of none and takes none tells so by an empty list.
pub fn steps_without_holds()
    ensures { (told : Bool) (rise : ℕ) (c d : Core) (p : Plain) (by : By) (does : Act) (r : Reply)
        (tried : List ℕ)
        → Step (IsTrue told) rise c d p (full_note by does r None [] tried)
        → releases p does (outcome r) ≡ [] → holds_due p does (outcome r) None ≡ []
        → Held d.files.holds (holders d)
        → HeldStep (IsTrue told) rise c d p (full_note by does r None [] tried) }
{}

/// A question about what stands now holds the current version, under a number that no hold has. Where memory is
/// wanting, nothing is held.
pub fn asks_hold()
    ensures opened { (told : Bool) (c : Core) (p : Plain) (by : By) (question : Question)
        (parted : Bool) (l : Landing) (id : ℕ) (holds : List Hold)
        → Agrees c p → Held c.files.holds (holders c) → IsTrue (is_client by)
        → is_of_now question ≡ true
        → length c.asks < 64 → (IsTrue told → Means c p → l ≡ answer_now p question)
        → ((h : Hold) → Has c.files.holds h → h.id ≡ id → ⊥)
        → SameMembers holds (c.files.holds ++ next_hold c id ∷ [])
        → HeldStep (IsTrue told) 0 c (holding_core (asked_core c by question parted l) holds) p
        (held_note by (act.Ask (c.numbers.asked + 1) question parted) (Asked (c.numbers.asked + 1))
        (Taken id c.files.current.num ∷ [])) }
    ensures lacking { (told : Bool) (c : Core) (p : Plain) (by : By) (question : Question)
        (parted : Bool)
        → Agrees c p → Held c.files.holds (holders c) → IsTrue (is_client by)
        → is_of_now question ≡ true
        → length c.asks < 64
        → HeldStep (IsTrue told) 0 c c p (plain_note by (act.Ask 0 question parted) Memory) }
{}

/// With its answer a question lets go of what it held.
pub fn settles_release()
    ensures in_parts { (told : Bool) (c : Core) (p : Plain) (by : By) (ask : ℕ) (q : OpenQuestion)
        (answer : Answer)
        (h : Hold) (holds : List Hold)
        → Agrees c p → Held c.files.holds (holders c) → IsTrue (is_client by)
        → found_question ask c.asks ≡ Some q
        → q.parted ≡ true → (IsTrue told → Means c p → q.answer ≡ answer)
        → Has c.files.holds h → h.holder ≡ for_ask ask
        → SameMembers holds (without_hold h.id c.files.holds)
        → HeldStep (IsTrue told) 0 c (holding_core (ended_core c ask) holds) p
        (held_note by (act.Settle ask) (Answered answer) (Release h.id ∷ [])) }
    ensures whole { (told : Bool) (c : Core) (p : Plain) (by : By) (ask : ℕ) (q : OpenQuestion)
        (answer : Answer)
        (h : Hold) (holds : List Hold)
        → Agrees c p → Held c.files.holds (holders c) → IsTrue (is_client by)
        → found_question ask c.asks ≡ Some q
        → q.parted ≡ false → (IsTrue told → Means c p → q.answer ≡ answer)
        → Has c.files.holds h → h.holder ≡ for_ask ask
        → SameMembers holds (without_hold h.id c.files.holds)
        → HeldStep (IsTrue told) 0 c (holding_core (ended_core c ask) holds) p
        (held_note by (act.Ask ask q.question false) (Answered answer) (Release h.id ∷ [])) }
{}

/// So does one that ends in vain.
pub fn failures_release()
    ensures in_parts { (told : Bool) (c : Core) (p : Plain) (ask : ℕ) (q : OpenQuestion)
        (r : Reply) (rise : ℕ)
        (h : Hold) (holds : List Hold)
        → Agrees c p → Held c.files.holds (holders c) → found_question ask c.asks ≡ Some q
        → outcome r ≡ fails
        → rise ≡ faults (plain_note Db (act.Work ask) r ∷ []) → (IsTrue told → is_damage r ≡ false)
        → q.parted ≡ true
        → Has c.files.holds h → h.holder ≡ for_ask ask
        → SameMembers holds (without_hold h.id c.files.holds)
        → HeldStep (IsTrue told) rise c (holding_core (ended_core c ask) holds) p
        (held_note Db (act.Work ask) r (Release h.id ∷ [])) }
    ensures whole { (told : Bool) (c : Core) (p : Plain) (ask : ℕ) (q : OpenQuestion) (r : Reply)
        (rise : ℕ)
        (h : Hold) (holds : List Hold)
        → Agrees c p → Held c.files.holds (holders c) → found_question ask c.asks ≡ Some q
        → outcome r ≡ fails
        → rise ≡ faults (plain_note q.by (act.Ask ask q.question false) r ∷ [])
        → (IsTrue told → is_damage r ≡ false) → q.parted ≡ false
        → Has c.files.holds h → h.holder ≡ for_ask ask
        → SameMembers holds (without_hold h.id c.files.holds)
        → HeldStep (IsTrue told) rise c (holding_core (ended_core c ask) holds) p
        (held_note q.by (act.Ask ask q.question false) r (Release h.id ∷ [])) }
{}
