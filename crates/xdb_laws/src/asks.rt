//! What is handed out for a question, and what its answer sees.
ghost use Rattle.std.specs.Prelude.{◌≡◌, ℕ, List, IsTrue, Some};
ghost use Rattle.std.specs.FinMap as map;
ghost use Rattle.xdb_key.specs.Bounds.{Bounds};
ghost use Rattle.xdb_key.specs.declared.op.Op.{Op};
ghost use Rattle.xdb_plain.specs.Answers.{answer_now};
ghost use Rattle.xdb_plain.specs.PlainMap.{PlainMap};
ghost use Rattle.xdb_plain.specs.State.{Plain};
ghost use Rattle.xdb_plain.specs.declared.question.Place.{Place};
ghost use Rattle.xdb_plain.specs.declared.question.Place.TheVariants.{Before};
ghost use Rattle.xdb_plain.specs.declared.question.Question.{Question};
ghost use Rattle.xdb_rangedel.specs.Content.{Item, in_pieces, IsImage, IsClear};
ghost use Rattle.xdb_rangedel.specs.Members.{SameMembers};
ghost use Rattle.xdb_rangedel.specs.View.{restricted};
ghost use Rattle.xdb_mem.specs.Parts.{items, items_below};
ghost use Rattle.xdb_laws.specs.Image.{image, inside, AreAlikeIn};
ghost use Rattle.xdb_laws.specs.Answered.{answered, is_inside, question_bounds, is_of_now};

/// An answer sees no more of a map than what it has inside the bounds.
pub fn answers_look_inside()
    ensures alike { (r : Bounds) (m n : PlainMap) (place : Place) (question : Question) → AreAlikeIn r m n
        → IsTrue (is_inside r question) → answered m r place question ≡ answered n r place question }
    ensures bounds { (r : Bounds) (question : Question) → question_bounds question ≡ Some r → IsTrue (is_inside r question) }
    ensures now { (p : Plain) (r : Bounds) (question : Question) → IsTrue (is_of_now question)
        → answer_now p question ≡ answered p.map r Before question }
{}

/// An ask: what the memtables have in a range below a number is clear, and its image is the map there.
pub fn parts_are_the_map()
    ensures clear { (r : Bounds) (limit : ℕ) (ops : List (ℕ × Op)) (parts : List Item)
        → SameMembers parts (in_pieces (restricted r (items_below limit ops))) → IsClear (items ops) → IsClear parts }
    ensures alike { (r : Bounds) (limit : ℕ) (ops : List (ℕ × Op)) (parts : List Item) (m : PlainMap)
        → SameMembers parts (in_pieces (restricted r (items_below limit ops))) → IsClear (items ops)
        → IsImage (items ops) limit m → AreAlikeIn r (image parts limit) m }
{}
