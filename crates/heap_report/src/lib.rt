//! The texts of what a run did: the history of its heap, the answers to its commands, its cycles, and what is
//! left in the end.
#![tactic(auto)]

mod answers;
mod cycles;
mod entries;
mod leavings;
mod reports;
mod words;

pub use reports::{history_report, replay_report, report};

#[cfg(test)]
mod tests;
