//! What a world reports of its cycles.

ghost use Rattle.std.specs.Prelude.{◌≡◌, IfOk};
ghost use Rattle.gc_cycle.specs.Reports.{Reports, AreReports, ended_cycles as ended_by, jobs_in as jobs_of_cycle, moved_row as moved_row_of, kept_row as kept_row_of, moves_of, kept_of, mark_in as mark_of};

use super::World;
use barriers::{Copier, MoveEnd};
use call_steps::OutOfMemory;
use cycle_journal::{CycleReport, KeptRow, MarkRow, MoveRow};
use lawful_records::CollectorMachine;
use space_reclaim::MoveJob;
use std::alloc::Global;

/// How many cycles the collector has ended.
fn ended_cycles<M>(collector: &CollectorMachine<M>) -> u32
    ensures { result ≡ ended_by collector.now }
{
    let stage = match collector {
        CollectorMachine::Done(stage) => return stage.cycle,
        CollectorMachine::Announce(stage)
        | CollectorMachine::Await { stage, .. }
        | CollectorMachine::Draw(stage)
        | CollectorMachine::Seek { stage, .. }
        | CollectorMachine::Source { stage, .. }
        | CollectorMachine::Target { stage, .. }
        | CollectorMachine::Tag { stage, .. }
        | CollectorMachine::Move { stage, .. }
        | CollectorMachine::Roots { stage, .. }
        | CollectorMachine::Walk { stage, .. } => stage,
    };
    stage.cycle.saturating_sub(1)
}

/// How the jobs of this cycle have ended.
fn jobs_in(cycle: u32, moved: &[(MoveJob, MoveEnd)]) -> &[(MoveJob, MoveEnd)]
    ensures { result.now ≡ jobs_of_cycle cycle moved.now }
{
    if cycle == 1 { moved } else { &[] }
}

/// The mark of this cycle.
fn mark_in(cycle: u32, marks: &[MarkRow]) -> MarkRow
    ensures { result ≡ mark_of cycle marks.now }
{
    match marks.get(cycle.saturating_sub(1) as usize) {
        Some(mark) => *mark,
        None => MarkRow::None,
    }
}

/// The object of a job that was moved.
fn moved_row(ended: &(MoveJob, MoveEnd)) -> Option<MoveRow>
    ensures { result ≡ moved_row_of ended.now }
{
    match ended {
        (job, MoveEnd::Moved) => Some(MoveRow {
            birth: job.birth,
            from: job.from,
            to: job.to,
        }),
        (_, MoveEnd::Kept { .. }) => None,
    }
}

/// The object of a job that stays where it is.
fn kept_row(ended: &(MoveJob, MoveEnd)) -> Option<KeptRow>
    ensures { result ≡ kept_row_of ended.now }
{
    match ended {
        (_, MoveEnd::Moved) => None,
        (job, MoveEnd::Kept { header }) => Some(KeptRow {
            birth: job.birth,
            at: job.from,
            header: *header,
        }),
    }
}

/// The objects of jobs that were moved, in the order of the jobs.
fn moves_in(alloc: Global, ended: &[(MoveJob, MoveEnd)]) -> Result<Vec<MoveRow>, OutOfMemory>
    ensures { IfOk result (λ rows. rows.items ≡ moves_of ended.now) }
{
    let mut rows = Vec::new(alloc);
    for one in ended {
        if let Some(row) = moved_row(one) {
            rows.push(row)?;
        }
    }
    Ok(rows)
}

/// The objects of jobs that stay where they are, in the order of the jobs.
fn kept_in(alloc: Global, ended: &[(MoveJob, MoveEnd)]) -> Result<Vec<KeptRow>, OutOfMemory>
    ensures { IfOk result (λ rows. rows.items ≡ kept_of ended.now) }
{
    let mut rows = Vec::new(alloc);
    for one in ended {
        if let Some(row) = kept_row(one) {
            rows.push(row)?;
        }
    }
    Ok(rows)
}

/// The report of a cycle with this mark, whose jobs have ended so.
fn report_of(
    alloc: Global,
    cycle: u32,
    ended: &[(MoveJob, MoveEnd)],
    mark: MarkRow,
) -> Result<CycleReport, OutOfMemory>
    ensures { IfOk result (Reports cycle ended.now mark) }
{
    let moves = moves_in(alloc, ended)?;
    let kept = kept_in(alloc, ended)?;
    Ok(CycleReport {
        cycle,
        live: Vec::new(alloc),
        chosen: Vec::new(alloc),
        moves,
        kept,
        freed: Vec::new(alloc),
        mark,
    })
}

/// The reports of so many cycles with these marks, where the jobs of the first have ended so.
fn reports_of(
    alloc: Global,
    cycles: u32,
    moved: &[(MoveJob, MoveEnd)],
    marks: &[MarkRow],
) -> Result<Vec<CycleReport>, OutOfMemory>
    ensures { IfOk result (λ reports. AreReports cycles moved.now marks.now reports.items) }
{
    let mut reports = Vec::new(alloc);
    for index in 0..cycles {
        let cycle = index + 1;
        let report = report_of(alloc, cycle, jobs_in(cycle, moved), mark_in(cycle, marks))?;
        reports.push(report)?;
    }
    Ok(reports)
}

impl<P: Copier> World<P> {
    /// The report of each cycle that the collector has ended: its mark, the objects that it has moved and those that
    /// stay where they are, with the header found there, each in the order of the plan. No region is reported as chosen
    /// or freed yet.
    pub fn reports(&self, alloc: Global) -> Result<Vec<CycleReport>, OutOfMemory>
        ensures { IfOk result (λ reports. AreReports (ended_by self.now.collector) self.now.moved
            self.now.marks reports.items) }
    {
        reports_of(
            alloc,
            ended_cycles(&self.collector),
            self.jobs.moved(),
            &self.marks,
        )
    }
}
