//! Laws of the definitions, each a function that does nothing.
ghost use Rattle.std.specs.Prelude.{◌≡◌, ◌++◌, ℕ, List, [], ◌∷◌, Option, Some, map, IsTrue};
ghost use Rattle.xdb_key.specs.Bounds.{Bounds};
ghost use Rattle.xdb_key.specs.declared.op.Op.{Op};
ghost use Rattle.xdb_lists.specs.Keyed.{without};
ghost use Rattle.xdb_plain.specs.Changes.{cancelled_by, in_phase};
ghost use Rattle.xdb_plain.specs.Edits.{running_hulls};
ghost use Rattle.xdb_plain.specs.Fences.{fence_of, fence_met, fence_touched};
ghost use Rattle.xdb_plain.specs.State.{Compaction, compaction_of, Load, is_in, is_open, without_job, without_load};
ghost use Rattle.xdb_plain.specs.State as plain;
ghost use Rattle.xdb_jobs.specs.Fencing.{fence, first_meeting, first_touched, without_fence};
ghost use Rattle.xdb_jobs.specs.InState.{part, compaction_part, compactions, fences_of};
ghost use Rattle.xdb_jobs.specs.Running.{hulls_of, with_canceller};
ghost use Rattle.xdb_jobs.specs.declared.jobs.Job.{Job};

/// Where the jobs are the compactions of the plain state, they stay so at each step, and their hulls are its
/// running hulls.
pub fn jobs_are_the_compactions<H>()
    ensures hulls { (jobs : List (Job H)) (state : List plain.Job) → map part jobs ≡ compactions state
        → hulls_of jobs ≡ running_hulls state }
    ensures started { (jobs : List (Job H)) (state : List plain.Job) (job : Job H) (now : plain.Job) (c : Compaction)
        → map part jobs ≡ compactions state → now.kind ≡ compaction_of c → part job ≡ compaction_part now.num c
        → map part (jobs ++ job ∷ []) ≡ compactions (state ++ now ∷ []) }
    ensures finished { (jobs : List (Job H)) (state : List plain.Job) (num : ℕ) → map part jobs ≡ compactions state
        → map part (without (λ j. j.num) num jobs) ≡ compactions (without_job num state) }
    ensures cancelled { (jobs : List (Job H)) (state : List plain.Job) (load : List ℕ) (span : Bounds)
        → map part jobs ≡ compactions state
        → map part (map (with_canceller load span) jobs) ≡ compactions (cancelled_by load (Some span) state) }
{}

/// The fences of the open loads: what both searches find is what the plain state says, a load that is opened
/// comes behind the others, and one that is installed or ends goes.
pub fn fences_are_of_open_loads()
    ensures meeting { (ranges : List Bounds) (loads : List Load)
        → first_meeting ranges (fences_of loads) ≡ fence_met ranges loads }
    ensures touched { (ops : List Op) (loads : List Load)
        → first_touched ops (fences_of loads) ≡ fence_touched ops loads }
    ensures opened { (loads : List Load) (load : Load) → IsTrue (is_open load)
        → fences_of (loads ++ load ∷ []) ≡ fences_of loads ++ fence load.name (fence_of load) ∷ [] }
    ensures installed { (loads : List Load) (name : List ℕ)
        → fences_of (in_phase name is_in loads) ≡ without_fence name (fences_of loads) }
    ensures ended { (loads : List Load) (name : List ℕ)
        → fences_of (without_load name loads) ≡ without_fence name (fences_of loads) }
{}
