//! What is told of a run when it is over: what each of its cycles has moved, kept and given again, and which
//! objects are left after the last one.
#![tactic(auto)]

mod journal;
mod leavings;
mod walk;

pub use journal::{CANDIDATES, CycleReport, KeptRow, MarkFound, MarkRow, MoveRow};
pub use leavings::{LastHeap, ObjectLine, last_heap};
