//! The lines of cycles.

ghost use Rattle.std.specs.Prelude.{◌≡◌, [], ◌∷◌, ◌++◌, OnOk};
ghost use Rattle.std.specs.List.{flat_map};
ghost use Rattle.heap_report.specs.Cycles.{mark_word, cycle_words, move_text, kept_text, cycle_text};

use crate::words::{push_count, push_number, push_spaced_number, push_spaced_object, push_word};
use cycle_journal::{CycleReport, KeptRow, MarkRow, MoveRow};
use std::alloc::AllocError;

/// A space, and the mark of a cycle, if it has one.
fn push_mark(out: &mut Vec<u8>, mark: &MarkRow) -> Result<(), AllocError>
    ensures { OnOk result (out.new.items ≡ out.old.items ++ 32 ∷ mark_word mark.now) }
{
    match mark {
        MarkRow::None => push_word(out, b"-"),
        MarkRow::Used(mark) => {
            out.push(b' ')?;
            push_number(out, *mark)
        }
        MarkRow::Refused(_) => push_word(out, b"refused"),
    }
}

/// How many regions and objects a cycle has moved, and its mark.
fn push_counts(out: &mut Vec<u8>, report: &CycleReport) -> Result<(), AllocError>
    ensures { OnOk result (out.new.items ≡ out.old.items ++ flat_map (λ v. 32 ∷ v) (cycle_words report.now)) }
{
    push_spaced_number(out, report.cycle)?;
    push_count(out, b"chosen", report.chosen.len() as u64)?;
    push_count(out, b"moved", report.moves.len() as u64)?;
    push_count(out, b"kept", report.kept.len() as u64)?;
    push_count(out, b"freed", report.freed.len() as u64)?;
    push_word(out, b"mark")?;
    push_mark(out, &report.mark)
}

/// The line of an object that a cycle has moved.
fn push_move(out: &mut Vec<u8>, cycle: u32, row: &MoveRow) -> Result<(), AllocError>
    ensures { OnOk result (out.new.items ≡ out.old.items ++ move_text cycle row.now) }
{
    out.extend_from_slice(b"move")?;
    push_spaced_number(out, cycle)?;
    push_spaced_object(out, row.birth)?;
    push_spaced_number(out, row.from)?;
    push_spaced_number(out, row.to)?;
    out.push(b'\n')?;
    Ok(())
}

/// The line of an object that stayed where it is.
fn push_kept(out: &mut Vec<u8>, cycle: u32, row: &KeptRow) -> Result<(), AllocError>
    ensures { OnOk result (out.new.items ≡ out.old.items ++ kept_text cycle row.now) }
{
    out.extend_from_slice(b"kept")?;
    push_spaced_number(out, cycle)?;
    push_spaced_object(out, row.birth)?;
    push_spaced_number(out, row.at)?;
    out.push(b'\n')?;
    Ok(())
}

/// The lines of the objects that a cycle has moved.
fn push_moves(out: &mut Vec<u8>, cycle: u32, rows: &[MoveRow]) -> Result<(), AllocError>
    ensures { OnOk result (out.new.items ≡ out.old.items ++ flat_map (move_text cycle) rows.now) }
{
    for row in rows {
        push_move(out, cycle, row)?;
    }
    Ok(())
}

/// The lines of the objects that stayed where they are.
fn push_all_kept(out: &mut Vec<u8>, cycle: u32, rows: &[KeptRow]) -> Result<(), AllocError>
    ensures { OnOk result (out.new.items ≡ out.old.items ++ flat_map (kept_text cycle) rows.now) }
{
    for row in rows {
        push_kept(out, cycle, row)?;
    }
    Ok(())
}

/// A cycle, with the objects that it has moved, and those that stayed where they are.
pub fn push_cycle(out: &mut Vec<u8>, report: &CycleReport) -> Result<(), AllocError>
    ensures { OnOk result (out.new.items ≡ out.old.items ++ cycle_text report.now) }
{
    out.extend_from_slice(b"cycle")?;
    push_counts(out, report)?;
    out.push(b'\n')?;
    push_moves(out, report.cycle, &report.moves)?;
    push_all_kept(out, report.cycle, &report.kept)
}
