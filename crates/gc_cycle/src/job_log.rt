//! What becomes of the jobs of a plan.

ghost use Rattle.std.specs.Prelude.{◌≡◌, ◌≤◌, [], length, vec_capacity, IfOk};
ghost use Rattle.lawful_records.specs.Jobs.{first_plan as first_plan_of};
ghost use Rattle.gc_cycle.specs.JobLogs.{sealed_after, moved_after};

use barriers::MoveEnd;
use call_steps::OutOfMemory;
use heap_words::Layout;
use lawful_records::first_plan;
use object_headers::Kind;
use space_reclaim::{MoveJob, Plan};
use std::alloc::Global;
use std::marker::Model;

/// An object that the collector has sealed: no word of it changes from then on.
#[derive(Clone, Copy, Debug, PartialEq, Eq)]
pub struct SealedAt {
    /// The address of its header.
    pub at: u32,
    /// How many fields it has.
    pub len: u32,
    /// How many changes there were at its seal.
    pub changes: u32,
}

/// The plan of the first cycle, the objects that are sealed, and the jobs that have ended and what with. There is room
/// from the start for a seal and an end of each job.
#[derive(Drop)]
pub struct JobLog {
    plan: Plan,
    sealed: Vec<SealedAt>,
    moved: Vec<(MoveJob, MoveEnd)>,
}

impl Model for JobLog {
    ghost use Rattle.std.specs.Prelude.{◌≤◌, length, vec_capacity};
    ghost use Rattle.gc_cycle.specs.JobLogs.{Logged};

    ghost Value = { Logged };

    ghost view = { λ g. record { plan = g.plan; sealed = g.sealed.items; moved = g.moved.items } };

    ghost invariant = { λ g. (let plan = g.plan in length plan.jobs ≤ vec_capacity g.sealed)
        × (let plan = g.plan in length plan.jobs ≤ vec_capacity g.moved) };
}

impl JobLog {
    /// The plan of the first cycle, of which nothing is done.
    pub fn new(alloc: Global, layout: &Layout, kind: Kind) -> Result<JobLog, OutOfMemory>
        ensures { IfOk result (λ log. log ≡ record { plan = first_plan_of kind layout.now; sealed = []; moved = [] }) }
    {
        let plan = first_plan(alloc, layout, kind)?;
        let sealed = Vec::with_capacity(alloc, plan.jobs().len())?;
        let moved = Vec::with_capacity(alloc, plan.jobs().len())?;
        Ok(JobLog {
            plan,
            sealed,
            moved,
        })
    }

    /// What is planned.
    pub fn plan(&self) -> &Plan
        ensures { result.now ≡ self.now.plan }
    {
        &self.plan
    }

    /// The objects that are sealed, in the order of their seals.
    pub fn sealed(&self) -> &[SealedAt]
        ensures { result.now ≡ self.now.sealed }
    {
        self.sealed.as_slice()
    }

    /// The jobs that have ended, in their order, and what with.
    pub fn moved(&self) -> &[(MoveJob, MoveEnd)]
        ensures { result.now ≡ self.now.moved }
    {
        self.moved.as_slice()
    }

    /// The object of this job is sealed, if there is one, after so many changes.
    pub fn seal(&mut self, job: Option<MoveJob>, changes: u32)
        requires { length (sealed_after job changes self.old.sealed) ≤ (let plan = self.old.plan in length plan.jobs) }
        ensures { self.new ≡ record self.old { sealed = sealed_after job changes self.old.sealed } }
    {
        if let Some(job) = job {
            self.sealed.push_reserved(SealedAt {
                at: job.from,
                len: job.len,
                changes,
            });
        }
    }

    /// This job has ended so, if there is one.
    pub fn end(&mut self, ended: Option<(MoveJob, MoveEnd)>)
        requires { length (moved_after ended self.old.moved) ≤ (let plan = self.old.plan in length plan.jobs) }
        ensures { self.new ≡ record self.old { moved = moved_after ended self.old.moved } }
    {
        if let Some(ended) = ended {
            self.moved.push_reserved(ended);
        }
    }
}
