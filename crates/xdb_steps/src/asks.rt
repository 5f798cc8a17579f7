//! Questions: how they are asked, answered, and end in vain.
ghost use Rattle.std.specs.Prelude.{◌≡◌, ℕ, ◌+◌, ◌<◌, ◌≤◌, ◌∷◌, ◌++◌, [], Bool, true, false, List, length, map, IsTrue, None, Some};
ghost use Rattle.xdb_edit.specs.Versions.{LevelLists};
ghost use Rattle.xdb_key.specs.Bounds.{Bounds};
ghost use Rattle.xdb_laws.specs.Answered.{answered, question_bounds, is_of_now};
ghost use Rattle.xdb_laws.specs.Image.{image};
ghost use Rattle.xdb_laws.specs.Parts.{content_of_all};
ghost use Rattle.xdb_laws.specs.Tables.{contents, tables_in};
ghost use Rattle.xdb_meta.specs.Table.{Table, bounds_of};
ghost use Rattle.xdb_plain.specs.Answers.{Landing, answer_now};
ghost use Rattle.xdb_plain.specs.Failures.{faults, is_damage};
ghost use Rattle.xdb_plain.specs.Outcomes.{outcome, fails};
ghost use Rattle.xdb_plain.specs.State.{Plain, OpenQuestion, found_question};
ghost use Rattle.xdb_plain.specs.Steps.{is_client};
ghost use Rattle.xdb_plain.specs.declared.act.Act.{Act};
ghost use Rattle.xdb_plain.specs.declared.act.Act.TheVariants as act;
ghost use Rattle.xdb_plain.specs.declared.act.By.{By};
ghost use Rattle.xdb_plain.specs.declared.act.By.TheVariants.{Db};
ghost use Rattle.xdb_plain.specs.declared.answer.Answer.{Answer};
ghost use Rattle.xdb_plain.specs.declared.question.Place.TheVariants.{Before};
ghost use Rattle.xdb_plain.specs.declared.question.Question.{Question};
ghost use Rattle.xdb_plain.specs.declared.reply.Reply.{Reply};
ghost use Rattle.xdb_plain.specs.declared.reply.Reply.TheVariants.{Asked, Answered, NoSuch, NotYet, TooMany, Memory};
ghost use Rattle.xdb_rangedel.specs.Content.{Item, IsClear};
ghost use Rattle.xdb_steps.specs.Core.{Core, asked_core, ended_core};
ghost use Rattle.xdb_steps.specs.Handouts.{IsHandoutOf};
ghost use Rattle.xdb_steps.specs.Keeps.{Agrees, Means};
ghost use Rattle.xdb_steps.specs.Notes.{plain_note, is_work};
ghost use Rattle.xdb_steps.specs.Step.{Step};
ghost use Rattle.xdb_steps.specs.Tables.{all_with_bounds};

/// A question about what stands now is opened under the next number where fewer than 64 are open; what its
/// parts mean is its answer. No snapshot and no cursor is there that another could be about.
pub fn asks_are_steps()
    ensures opened { (told : Bool) (c : Core) (p : Plain) (by : By) (question : Question)
        (parted : Bool) (l : Landing)
        → Agrees c p → IsTrue (is_client by) → is_of_now question ≡ true → length c.asks < 64
        → (IsTrue told → Means c p → l ≡ answer_now p question)
        → Step (IsTrue told) 0 c (asked_core c by question parted l) p
        (plain_note by (act.Ask (c.numbers.asked + 1) question parted)
        (Asked (c.numbers.asked + 1))) }
    ensures no_such { (told : Bool) (c : Core) (p : Plain) (by : By) (question : Question)
        (parted : Bool)
        → Agrees c p → IsTrue (is_client by) → is_of_now question ≡ false
        → Step (IsTrue told) 0 c c p (plain_note by (act.Ask 0 question parted) NoSuch) }
    ensures too_many { (told : Bool) (c : Core) (p : Plain) (by : By) (question : Question)
        (parted : Bool)
        → Agrees c p → IsTrue (is_client by) → is_of_now question ≡ true → 64 ≤ length c.asks
        → Step (IsTrue told) 0 c c p (plain_note by (act.Ask 0 question parted) TooMany) }
    ensures lacking { (told : Bool) (c : Core) (p : Plain) (by : By) (question : Question)
        (parted : Bool)
        → Agrees c p → IsTrue (is_client by) → is_of_now question ≡ true → length c.asks < 64
        → Step (IsTrue told) 0 c c p (plain_note by (act.Ask 0 question parted) Memory) }
{}

/// What is handed out for a question about what stands now means its answer, and is clear. What
/// each table has may be a function of the table.
pub fn handed_parts_mean_the_answer()
    ensures answer { (c : Core) (p : Plain) (question : Question) (r : Bounds) (part : List Item)
        (handed : List (Bounds × List Item)) → Means c p → is_of_now question ≡ true
        → question_bounds question ≡ Some r → IsHandoutOf c r part handed
        → answered (image (part ++ content_of_all handed) c.numbers.next) r Before question
        ≡ answer_now p question }
    ensures clear { (c : Core) (p : Plain) (r : Bounds) (part : List Item)
        (handed : List (Bounds × List Item)) → Means c p → IsHandoutOf c r part handed
        → IsClear (part ++ content_of_all handed) }
    ensures tables { (levels : LevelLists) (content : Table → List Item)
        → all_with_bounds levels (contents content levels)
        ≡ map (λ t. (bounds_of t, content t)) (tables_in levels) }
{}

/// A client takes the answer to a question, which ends it; there may be no such question, or no answer yet.
pub fn settles_are_steps()
    ensures none { (told : Bool) (c : Core) (p : Plain) (by : By) (ask : ℕ) → Agrees c p
        → IsTrue (is_client by)
        → found_question ask c.asks ≡ None
        → Step (IsTrue told) 0 c c p (plain_note by (act.Settle ask) NoSuch) }
    ensures early { (told : Bool) (c : Core) (p : Plain) (by : By) (ask : ℕ) (q : OpenQuestion)
        → Agrees c p → IsTrue (is_client by)
        → found_question ask c.asks ≡ Some q
        → Step (IsTrue told) 0 c c p (plain_note by (act.Settle ask) NotYet) }
    ensures in_parts { (told : Bool) (c : Core) (p : Plain) (by : By) (ask : ℕ) (q : OpenQuestion)
        (answer : Answer)
        → Agrees c p → IsTrue (is_client by) → found_question ask c.asks ≡ Some q → q.parted ≡ true
        → (IsTrue told → Means c p → q.answer ≡ answer)
        → Step (IsTrue told) 0 c (ended_core c ask) p (plain_note by (act.Settle ask)
        (Answered answer)) }
    ensures whole { (told : Bool) (c : Core) (p : Plain) (by : By) (ask : ℕ) (q : OpenQuestion)
        (answer : Answer)
        → Agrees c p → IsTrue (is_client by) → found_question ask c.asks ≡ Some q → q.parted ≡ false
        → (IsTrue told → Means c p → q.answer ≡ answer)
        → Step (IsTrue told) 0 c (ended_core c ask) p (plain_note by (act.Ask ask q.question false)
        (Answered answer)) }
{}

/// A question ends in vain: the owner tells it of one in parts, and of any other the client who asked. A device
/// failed, which was booked, or a file was damaged, or memory was wanting.
pub fn failures_are_steps()
    ensures in_parts { (told : Bool) (c : Core) (p : Plain) (ask : ℕ) (q : OpenQuestion)
        (r : Reply) (rise : ℕ)
        → Agrees c p → found_question ask c.asks ≡ Some q → outcome r ≡ fails
        → rise ≡ faults (plain_note Db (act.Work ask) r ∷ []) → (IsTrue told → is_damage r ≡ false)
        → q.parted ≡ true
        → Step (IsTrue told) rise c (ended_core c ask) p (plain_note Db (act.Work ask) r) }
    ensures whole { (told : Bool) (c : Core) (p : Plain) (ask : ℕ) (q : OpenQuestion) (r : Reply)
        (rise : ℕ)
        → Agrees c p → found_question ask c.asks ≡ Some q → outcome r ≡ fails
        → rise ≡ faults (plain_note q.by (act.Ask ask q.question false) r ∷ [])
        → (IsTrue told → is_damage r ≡ false) → q.parted ≡ false
        → Step (IsTrue told) rise c (ended_core c ask) p (plain_note q.by
        (act.Ask ask q.question false) r) }
    ensures no_such { (told : Bool) (c : Core) (p : Plain) (work : Act) → Agrees c p
        → IsTrue (is_work work)
        → Step (IsTrue told) 0 c c p (plain_note Db work NoSuch) }
{}
