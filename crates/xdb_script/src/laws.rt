//! Laws of the definitions, each a function that does nothing.
ghost use Rattle.std.specs.Prelude.{◌≡◌, ◌<◌, ◌≤◌, ◌^◌, ◌&&◌, ℕ, List, [], Option, Some, None, Result, Ok, Err, length, replicate, false, nat_le, IsTrue};
ghost use Rattle.std.specs.Fmt.{decimal};
ghost use Rattle.std.specs.List.{list_all};
ghost use Rattle.xdb_plain.specs.Scripts.{is_script};
ghost use Rattle.xdb_plain.specs.Tables.{TableOps};
ghost use Rattle.xdb_plain.specs.Words.{string_word};
ghost use Rattle.xdb_plain.specs.declared.script.Line.{Line};
ghost use Rattle.xdb_script.specs.Defects.{script_read, first_defect, long_line, IsFirstBad, is_well_spaced};
ghost use Rattle.xdb_script.specs.Fields.{string_read, number_read};
ghost use Rattle.xdb_script.specs.Grammar.{IsLine, Spells, most_bytes, words_in, said_in};
ghost use Rattle.xdb_script.specs.Reading.{line_read, is_clean};
ghost use Rattle.xdb_script.specs.Rules.{are_bytes, has_length, is_string};
ghost use Rattle.xdb_script.specs.declared.error.Why.{Why};
ghost use Rattle.xdb_script.specs.declared.error.Why.TheVariants as why;
ghost use Rattle.xdb_script.specs.declared.form.ScriptForm.{ScriptForm};

/// A word is read as bytes exactly where it is their spelling and they are as many as allowed. It is `Length` where
/// it spells too few or too many bytes, and `Token` where it spells none.
pub fn words_spell_bytes()
    ensures read { (least : ℕ) (most : ℕ) (word : List ℕ) (bytes : List ℕ) → string_read least most word ≡ Ok bytes → (word ≡ string_word bytes) × IsTrue (is_string least most bytes) }
    ensures spelled { (least : ℕ) (most : ℕ) (bytes : List ℕ) → IsTrue (is_string least most bytes) → string_read least most (string_word bytes) ≡ Ok bytes }
    ensures length { (least : ℕ) (most : ℕ) (bytes : List ℕ) → IsTrue (are_bytes bytes) → has_length least most bytes ≡ false → string_read least most (string_word bytes) ≡ Err why.Length }
    ensures token { (least : ℕ) (most : ℕ) (word : List ℕ) → ((bytes : List ℕ) → IsTrue (are_bytes bytes) → word ≡ string_word bytes → ⊥) → string_read least most word ≡ Err why.Token }
{}

/// A word is read as a number exactly where it is the decimal of one in its range, and else it is `Number`.
pub fn words_spell_numbers()
    ensures read { (least : ℕ) (most : ℕ) (word : List ℕ) (n : ℕ) → number_read least most word ≡ Ok n → (word ≡ decimal n) × IsTrue (nat_le least n && nat_le n most) }
    ensures spelled { (least : ℕ) (most : ℕ) (n : ℕ) → n < 10 ^ 64 → IsTrue (nat_le least n && nat_le n most) → number_read least most (decimal n) ≡ Ok n }
    ensures number { (least : ℕ) (most : ℕ) (word : List ℕ) → ((n : ℕ) → IsTrue (nat_le least n && nat_le n most) → word ≡ decimal n → ⊥) → number_read least most word ≡ Err why.Number }
{}

/// A line of at most 1 MiB that is read spells what was read, and this keeps every rule.
pub fn line_is_spelled_so()
    ensures { (form : ScriptForm) (tables : List TableOps) (number : ℕ) (part : List ℕ) (line : Line) → length part ≤ most_bytes → line_read form tables number (words_in part) ≡ Ok line → IsLine form tables number (words_in part) line }
{}

/// The words that spell a line are read as that line.
pub fn line_is_read_again()
    ensures { (form : ScriptForm) (tables : List TableOps) (number : ℕ) (words : List (List ℕ)) (line : Line) → IsLine form tables number words line → line_read form tables number words ≡ Ok line }
{}

/// Bytes that are read as lines spell them.
pub fn script_is_spelled_so()
    ensures { (form : ScriptForm) (bytes : List ℕ) (lines : List Line) → script_read form bytes ≡ Ok lines → Spells form bytes lines }
{}

/// Bytes that spell lines are read as these.
pub fn script_is_read_again()
    ensures { (form : ScriptForm) (bytes : List ℕ) (lines : List Line) → Spells form bytes lines → script_read form bytes ≡ Ok lines }
{}

/// The lines of a script are one.
pub fn script_has_one_meaning()
    ensures { (form : ScriptForm) (bytes : List ℕ) (a : List Line) (b : List Line) → Spells form bytes a → Spells form bytes b → a ≡ b }
{}

/// Bytes are a script or have a first defect, never both and never neither.
pub fn script_or_defect()
    ensures not_both { (form : ScriptForm) (bytes : List ℕ) (lines : List Line) → Spells form bytes lines → first_defect form bytes ≡ None }
    ensures not_neither { (form : ScriptForm) (bytes : List ℕ) → first_defect form bytes ≡ None → (lines : List Line) × Spells form bytes lines }
{}

/// Too long a script has no other first defect.
pub fn long_comes_first()
    ensures { (form : ScriptForm) (bytes : List ℕ) → most_bytes < length bytes → first_defect form bytes ≡ Some (long_line bytes, why.Long) }
{}

/// A line has clean words exactly where its bytes are printable, no space stands at an end and no two together.
pub fn spaces_are_seen_in_words()
    ensures { (part : List ℕ) → list_all is_clean (words_in part) ≡ is_well_spaced part }
{}

/// Line feeds alone, more than 1,048,576: the one behind these ends the line that has that number more by one.
pub fn line_feeds_alone()
    ensures { (form : ScriptForm) (n : ℕ) → most_bytes < n → first_defect form (replicate n 10) ≡ Some (1048577, why.Long) }
{}

/// The first defect of a script that isn't too long is that of the first line that is none, where the tables
/// of the lines before it are defined.
pub fn first_bad_line_is_named()
    ensures only { (form : ScriptForm) (bytes : List ℕ) (number : ℕ) (reason : Why) → length bytes ≤ most_bytes → first_defect form bytes ≡ Some (number, reason) → IsFirstBad form [] (said_in bytes) number reason }
    ensures found { (form : ScriptForm) (bytes : List ℕ) (number : ℕ) (reason : Why) → length bytes ≤ most_bytes → IsFirstBad form [] (said_in bytes) number reason → first_defect form bytes ≡ Some (number, reason) }
{}

/// The lines that bytes spell rise by their numbers, and each suits the tables above it.
pub fn spelled_lines_are_a_script()
    ensures { (form : ScriptForm) (bytes : List ℕ) (lines : List Line) → Spells form bytes lines → IsTrue (is_script lines) }
{}
