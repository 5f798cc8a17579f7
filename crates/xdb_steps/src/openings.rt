//! The parts before the first step.
ghost use Rattle.std.specs.Prelude.{ℕ, []};
ghost use Rattle.xdb_mem.specs.Queue.{opening as queue_opening};
ghost use Rattle.xdb_plain.specs.State.{opening};
ghost use Rattle.xdb_steps.specs.Core.{core, numbers, no_files};
ghost use Rattle.xdb_steps.specs.Keeps.{Means};

/// Without operations and without files the parts mean the opening state.
pub fn openings_mean()
    ensures { (seq file : ℕ) → Means (core queue_opening (numbers seq file 0 0) [] no_files [])
        (opening seq file) }
{}
