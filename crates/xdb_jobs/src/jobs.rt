//! Running compactions.
ghost use Rattle.std.specs.Prelude.{◌≡◌, ◌==◌, ◌<◌, ◌++◌, [], ◌∷◌, None, false, map, vec_len, IfOk, IfErr, OnOk, OnErr, option_copied};
ghost use Rattle.std.specs.List.{list_any, position};
ghost use Rattle.std.specs.Vec.{vec_capacity};
ghost use Rattle.xdb_key.specs.Bounds.{meets};
ghost use Rattle.xdb_lists.specs.Keyed.{at_key, without};
ghost use Rattle.xdb_jobs.specs.Running.{hulls_of, with_canceller, NumbersDiffer, AreDisjoint};

use std::alloc::{AllocError, Global};
use std::marker::Model;
use xdb_key::{KeyRange, Name};
use xdb_plain::Items;

/// A running compaction: its inputs by level and number, what it holds, and the first load that cancelled it.
#[derive(Debug, Drop)]
pub struct Job<H> {
    pub num: u64,
    pub hull: KeyRange,
    pub inputs: Items<(u8, u64)>,
    pub hold: H,
    pub cancelled: Option<Name>,
}

impl<H> Job<H> {
    fn cancel(&mut self, span: &KeyRange, load: Name)
        ensures { self.new ≡ with_canceller load span.now self.old }
    {
        if self.cancelled.is_none() && self.hull.meets(span) {
            self.cancelled = Some(load);
        }
    }
}

/// The running compactions, in the order of their starts. No two have one number or hulls that meet.
#[derive(Debug, Drop)]
pub struct Jobs<H> {
    jobs: Vec<Job<H>>,
    /// The hulls of the jobs, in the same order.
    hulls: Vec<KeyRange>,
}

impl<H> Model for Jobs<H> {
    ghost use Rattle.std.specs.Prelude.{List};
    ghost use Rattle.xdb_jobs.specs.Running.{AreRunning};
    ghost use Rattle.xdb_jobs.specs.declared.jobs.Job.{Job};

    ghost Value = { List (Job H) };

    ghost view = { λ a. a.jobs.items };

    ghost invariant = { λ a. AreRunning a.jobs.items a.hulls.items };
}

impl<H> Jobs<H> {
    /// None. Takes no memory.
    pub fn new(alloc: Global) -> Self
        ensures { result ≡ [] }
    {
        Jobs {
            jobs: Vec::new(alloc),
            hulls: Vec::new(alloc),
        }
    }

    /// The running job of this number.
    pub fn get(&self, num: u64) -> Option<&Job<H>>
        ensures { option_copied result ≡ at_key (λ j. j.num) num self.now }
    {
        self.jobs.iter().find(|job| job.num == num)
    }

    /// The hulls of the running jobs, in the order of the jobs.
    pub fn hulls(&self) -> &[KeyRange]
        ensures hulls { result.now ≡ hulls_of self.now }
        // What holds of all running jobs.
        ensures disjoint { AreDisjoint (hulls_of self.now) }
        ensures numbers { NumbersDiffer self.now }
    {
        &self.hulls
    }

    /// Ends the job of this number and hands it back. Takes no memory.
    pub fn finish(&mut self, num: u64) -> Option<Job<H>>
        ensures job { result ≡ at_key (λ j. j.num) num self.old }
        ensures others { self.new ≡ without (λ j. j.num) num self.old }
    {
        let at = place_of(&self.jobs, num)?;
        self.hulls.remove(at);
        Some(self.jobs.remove(at))
    }

    /// Each running job whose hull meets the span is cancelled by the load, unless an earlier load did it.
    /// Takes no memory.
    pub fn cancel(&mut self, span: &KeyRange, load: Name)
        ensures { self.new ≡ map (with_canceller load span.now) self.old }
    {
        cancel_all(&mut self.jobs, span, load);
    }
}

impl<H: Drop> Jobs<H> {
    /// Starts the job. Where memory is wanting, the job goes, with what it holds.
    pub fn start(&mut self, job: Job<H>) -> Result<(), AllocError>
        requires number { at_key (λ j. j.num) job.num self.old ≡ None }
        requires hull { list_any (meets job.hull) (hulls_of self.old) ≡ false }
        ensures started { IfOk result (λ _. self.new ≡ self.old ++ job ∷ []) }
        ensures refused { OnErr result (self.new ≡ self.old) }
    {
        match self.try_start(job) {
            Ok(()) => Ok(()),
            Err(_) => Err(AllocError),
        }
    }

    /// Starts the job, or gives it back where memory is wanting.
    pub fn try_start(&mut self, job: Job<H>) -> Result<(), Job<H>>
        requires number { at_key (λ j. j.num) job.num self.old ≡ None }
        requires hull { list_any (meets job.hull) (hulls_of self.old) ≡ false }
        ensures started { IfOk result (λ _. self.new ≡ self.old ++ job ∷ []) }
        ensures refused { IfErr result (λ back. (back ≡ job) × (self.new ≡ self.old)) }
    {
        let Ok(hull) = job.hull.copy() else {
            return Err(job);
        };
        if make_room(&mut self.jobs, &mut self.hulls).is_err() {
            return Err(job);
        }
        let Ok(()) = self.hulls.push(hull) else {
            unreachable!()
        };
        let Ok(()) = self.jobs.push(job) else {
            unreachable!()
        };
        Ok(())
    }
}

/// Room for one job more and for its hull.
fn make_room<H>(jobs: &mut Vec<Job<H>>, hulls: &mut Vec<KeyRange>) -> Result<(), AllocError>
    ensures jobs { jobs.new.items ≡ jobs.old.items }
    ensures hulls { hulls.new.items ≡ hulls.old.items }
    ensures job_room { OnOk result (vec_len jobs.new < vec_capacity jobs.new) }
    ensures hull_room { OnOk result (vec_len hulls.new < vec_capacity hulls.new) }
{
    jobs.try_reserve(1)?;
    hulls.try_reserve(1)?;
    Ok(())
}

fn cancel_all<H>(jobs: &mut [Job<H>], span: &KeyRange, load: Name)
    ensures { jobs.new ≡ map (with_canceller load span.now) jobs.old }
{
    for job in jobs.iter_mut() {
        job.cancel(span, load);
    }
}

/// The place of the job of this number.
fn place_of<H>(jobs: &[Job<H>], num: u64) -> Option<usize>
    ensures { result ≡ position (λ j. j.num == num) jobs.now }
{
    jobs.iter().position(|job| job.num == num)
}
