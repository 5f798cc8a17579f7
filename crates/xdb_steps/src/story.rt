//! The laws at work, on closed parts: so none of their premises is one that no engine meets.
ghost use Rattle.xdb_key.specs.Bounds.{key_hull};
ghost use Rattle.xdb_plain.specs.State.{opening};
ghost use Rattle.xdb_steps.specs.Handouts.{IsHandoutOf};
ghost use Rattle.xdb_steps.specs.Keeps.{Agrees, Means};
ghost use Rattle.xdb_steps.specs.Story.{AreSteps, a, first_core, last_core, last_handed, last_part, last_state, story};

/// The first parts agree with the opening state, and each note of the story is a step. So the last
/// ones, a group above two tables, mean the last state, and a question about it has its handout.
pub fn a_flush_comes_before_the_answer()
    ensures first { Agrees first_core (opening 1 1) }
    ensures steps { AreSteps first_core (opening 1 1) story }
    ensures means { Means last_core last_state }
    ensures handout { IsHandoutOf last_core (key_hull a) last_part last_handed }
{}
