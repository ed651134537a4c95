//! What a world keeps of the searches for marks.

ghost use Rattle.std.specs.Prelude.{◌≡◌, ◌≢◌, IfOk};
ghost use Rattle.call_steps.specs.declared.step.Step.TheVariants.{Ended as StepEnded};
ghost use Rattle.lawful_records.specs.Collectors.{asks_of as asks_by};
ghost use Rattle.gc_cycle.specs.CycleEnds.{search_ended as search_ended_by, finds_after as finds_after_search, mark_after as mark_after_search, with_mark, unmarked_rows};

use call_steps::{Machine, OutOfMemory};
use cycle_journal::{CANDIDATES, MarkFound, MarkRow};
use lawful_records::{CollectorMachine, Stage, seek_end_of};
use mark_search::SeekEnd;
use std::alloc::Global;

/// No candidate is found yet.
pub(crate) const NOWHERE: MarkFound = MarkFound { at: 0, field: 0 };

/// The stage of the search that the collector's step ends, which finds this word, and how it ends.
pub(crate) fn search_ended<M: Machine>(
    collector: &CollectorMachine<M>,
    found: u64,
) -> Option<(Stage, SeekEnd)>
    requires { asks_by M.asks collector.now ≢ StepEnded }
    ensures { result ≡ search_ended_by collector.now found }
{
    let CollectorMachine::Seek { stage, .. } = collector else {
        return None;
    };
    Some((*stage, seek_end_of(collector, found)?))
}

/// The places where the candidates of the cycle were found, after a search that has ended so, if one has.
pub(crate) fn finds_after(
    ended: &Option<(Stage, SeekEnd)>,
    finds: [MarkFound; CANDIDATES],
) -> [MarkFound; CANDIDATES]
    ensures { result ≡ finds_after_search ended.now finds }
{
    let Some((stage, end)) = ended else {
        return finds;
    };
    let SeekEnd::MarkFound(place) = end else {
        return finds;
    };
    let mut after = finds;
    let index = usize::from(stage.marks.round.saturating_sub(1));
    if index < CANDIDATES {
        after[index] = MarkFound {
            at: place.at,
            field: place.field,
        };
    }
    after
}

/// The cycle whose mark is decided by the search that has ended so, with the mark: that of a search that has ended
/// clear, or none after the last candidate was found.
fn mark_after(
    ended: &Option<(Stage, SeekEnd)>,
    finds: [MarkFound; CANDIDATES],
) -> Option<(u32, MarkRow)>
    ensures { result ≡ mark_after_search ended.now finds }
{
    let Some((stage, end)) = ended else {
        return None;
    };
    match end {
        SeekEnd::Clear => Some((stage.cycle, MarkRow::Used(stage.marks.candidates.last()))),
        SeekEnd::MarkFound(_) if usize::from(stage.marks.round) == CANDIDATES => {
            Some((stage.cycle, MarkRow::Refused(finds)))
        }
        SeekEnd::MarkFound(_) => None,
    }
}

/// Puts the mark that such a search decides in the row of its cycle.
pub(crate) fn put_mark(
    rows: &mut Vec<MarkRow>,
    ended: &Option<(Stage, SeekEnd)>,
    finds: [MarkFound; CANDIDATES],
)
    ensures { rows.new.items ≡ with_mark (mark_after_search ended.now finds) rows.old.items }
{
    let Some((cycle, row)) = mark_after(ended, finds) else {
        return;
    };
    let index = cycle.saturating_sub(1) as usize;
    if index < rows.len() {
        rows[index] = row;
    }
}

/// A row for each of so many cycles, none of which has a mark yet.
pub(crate) fn unmarked(alloc: Global, cycles: u32) -> Result<Vec<MarkRow>, OutOfMemory>
    ensures { IfOk result (λ rows. rows.items ≡ unmarked_rows cycles) }
{
    let rows = vec![in alloc; MarkRow::None; cycles as usize]?;
    Ok(rows)
}
