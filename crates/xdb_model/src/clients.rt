//! Each client's notes are the blocks of its lines, in order.
ghost use Rattle.std.specs.Prelude.{◌≡◌, ◌∷◌, ◌++◌, ◌+◌, [], ℕ, List, Some, length};
ghost use Rattle.xdb_plain.specs.Runs.{IsBlock};
ghost use Rattle.xdb_plain.specs.Scripts.{tables_below};
ghost use Rattle.xdb_plain.specs.Tables.{TableOps};
ghost use Rattle.xdb_plain.specs.Workers.{AreClientBlocks, IsBegun, HasCome, tables_over};
ghost use Rattle.xdb_plain.specs.declared.note.Note.{Note};
ghost use Rattle.xdb_plain.specs.declared.script.Line.{Line};
ghost use Rattle.xdb_model.specs.Clients.{next_line, tables_of_done, client_run};

/// A client comes to a line's end by the notes of its block: all of them, those behind the one of its beginning, or
/// none where the line has none. At the end of its lines, its notes are their blocks.
pub fn clients_go_through_their_lines()
    ensures starts { (lines : List Line) → HasCome lines 0 [] [] }
    ensures begins { (lines : List Line) (done : ℕ) (notes : List Note) (line : Line) (note : Note)
        → HasCome lines done [] notes → next_line lines done ≡ Some line
        → IsBegun (tables_of_done lines done) line.by line.cmd (note ∷ [])
        → HasCome lines done (note ∷ []) (notes ++ note ∷ []) }
    ensures goes_on { (lines : List Line) (done : ℕ) (begun notes : List Note) (line : Line) (more : List Note)
        → HasCome lines done begun notes → next_line lines done ≡ Some line
        → IsBlock (client_run (tables_of_done lines done)) line.by line.cmd (begun ++ more)
        → HasCome lines (done + 1) [] (notes ++ more) }
    ensures ends { (lines : List Line) (begun notes : List Note)
        → HasCome lines (length lines) begun notes → AreClientBlocks [] lines notes }
{}

/// A line defines its table for the lines behind it.
pub fn tables_go_on()
    ensures { (lines : List Line) (done : ℕ) (line : Line) → next_line lines done ≡ Some line
        → tables_of_done lines (done + 1) ≡ tables_below (tables_of_done lines done) line.cmd }
{}

/// The blocks of a client's lines go on by one line and its block.
pub fn client_blocks_go_on()
    ensures { (tables : List TableOps) (lines : List Line) (notes : List Note) (line : Line) (block : List Note)
        → AreClientBlocks tables lines notes → IsBlock (client_run (tables_over tables lines)) line.by line.cmd block
        → AreClientBlocks tables (lines ++ line ∷ []) (notes ++ block) }
{}
