//! Laws of the definitions, each a function that does nothing.
ghost use Rattle.std.specs.Prelude.{◌≡◌, ◌<◌, ◌^◌, ◌+◌, ◌++◌, ℕ, List, IsTrue};
ghost use Rattle.xdb_gen.specs.Generated.{generated};
ghost use Rattle.xdb_plain.specs.Scripts.{is_script};
ghost use Rattle.xdb_plain.specs.declared.script.Line.{Line};

/// What is generated is a script.
pub fn generated_is_a_script()
    ensures { (ops seed : ℕ) → ops < 2 ^ 32 → IsTrue (is_script (generated ops seed)) }
{}

/// A script of fewer operations is the front of one of more, from the same seed.
pub fn more_operations_add_lines()
    ensures { (ops more seed : ℕ) → (lines : List Line)
        × (generated (ops + more) seed ≡ generated ops seed ++ lines) }
{}
