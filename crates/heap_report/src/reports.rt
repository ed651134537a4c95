//! The reports.

ghost use Rattle.std.specs.Prelude.{◌≡◌, ◌<◌, ◌^◌, ◌++◌, length, IfOk, OnOk};
ghost use Rattle.std.specs.List.{All, flat_map};
ghost use Rattle.heap_script.specs.AnswerLists.{lists_of};
ghost use Rattle.heap_report.specs.Answers.{again_text};
ghost use Rattle.heap_report.specs.Entries.{entry_text};
ghost use Rattle.heap_report.specs.Reports.{end_text, report_text, history_text, replay_text};

use crate::answers::{push_again, push_all_answers};
use crate::cycles::push_cycle;
use crate::entries::push_entry;
use crate::leavings::{push_all_left, push_object_line};
use call_steps::OutOfMemory;
use cycle_journal::{CycleReport, LastHeap};
use heap_history::Entry;
use heap_script::{Again, Answers};
use std::alloc::{AllocError, Global};

/// The entries, and the commands whose tries were refused.
fn push_history(out: &mut Vec<u8>, history: &[Entry], agains: &[Again]) -> Result<(), AllocError>
    ensures { OnOk result (out.new.items ≡ out.old.items ++ flat_map entry_text history.now ++ flat_map again_text agains.now) }
{
    for entry in history {
        push_entry(out, entry)?;
    }
    for again in agains {
        push_again(out, again)?;
    }
    Ok(())
}

/// The last line.
fn push_end(out: &mut Vec<u8>) -> Result<(), AllocError>
    ensures { OnOk result (out.new.items ≡ out.old.items ++ end_text) }
{
    out.extend_from_slice(b"end\n")
}

/// The answers of all threads, the cycles, what is left, and the end.
fn push_report(
    out: &mut Vec<u8>,
    answers: &Answers,
    journal: &[CycleReport],
    last: &LastHeap,
) -> Result<(), AllocError>
    requires threads { length (lists_of answers.now) < 2 ^ 31 }
    requires answers { All (λ list. length list < 2 ^ 31) (lists_of answers.now) }
    requires left { length last.now.left.items < 2 ^ 31 }
    ensures { OnOk result (out.new.items ≡ out.old.items ++ report_text (lists_of answers.now) journal.now last.now) }
{
    push_all_answers(out, &answers.lists)?;
    for report in journal {
        push_cycle(out, report)?;
    }
    push_all_left(out, &last.left)?;
    for object in &last.objects {
        push_object_line(out, object)?;
    }
    push_end(out)
}

/// The report of a run: the answers of all threads, each cycle with the objects that it has moved and kept,
/// what is left in the registers of each thread, and the objects that are left. Only want of memory is an error.
pub fn report(
    alloc: Global,
    answers: &Answers,
    journal: &[CycleReport],
    last: &LastHeap,
) -> Result<Vec<u8>, OutOfMemory>
    requires threads { length (lists_of answers.now) < 2 ^ 31 }
    requires answers { All (λ list. length list < 2 ^ 31) (lists_of answers.now) }
    requires left { length last.now.left.items < 2 ^ 31 }
    ensures { IfOk result (λ text. text.items ≡ report_text (lists_of answers.now) journal.now last.now) }
{
    let mut out = Vec::new(alloc);
    push_report(&mut out, answers, journal, last)?;
    Ok(out)
}

/// The report of a replay of which no cycle is told: the history, the commands whose tries were refused, the
/// answers of all threads, and the end. Only want of memory is an error.
pub fn history_report(
    alloc: Global,
    history: &[Entry],
    agains: &[Again],
    answers: &Answers,
) -> Result<Vec<u8>, OutOfMemory>
    requires threads { length (lists_of answers.now) < 2 ^ 31 }
    requires answers { All (λ list. length list < 2 ^ 31) (lists_of answers.now) }
    ensures { IfOk result (λ text. text.items ≡ history_text history.now agains.now (lists_of answers.now)) }
{
    let mut out = Vec::new(alloc);
    push_history(&mut out, history, agains)?;
    push_all_answers(&mut out, &answers.lists)?;
    push_end(&mut out)?;
    Ok(out)
}

/// The report of a replay: the history, the commands whose tries were refused, and the report of the run. Only
/// want of memory is an error.
pub fn replay_report(
    alloc: Global,
    history: &[Entry],
    agains: &[Again],
    answers: &Answers,
    journal: &[CycleReport],
    last: &LastHeap,
) -> Result<Vec<u8>, OutOfMemory>
    requires threads { length (lists_of answers.now) < 2 ^ 31 }
    requires answers { All (λ list. length list < 2 ^ 31) (lists_of answers.now) }
    requires left { length last.now.left.items < 2 ^ 31 }
    ensures { IfOk result (λ text. text.items ≡ replay_text history.now agains.now (lists_of answers.now) journal.now last.now) }
{
    let mut out = Vec::new(alloc);
    push_history(&mut out, history, agains)?;
    push_report(&mut out, answers, journal, last)?;
    Ok(out)
}
