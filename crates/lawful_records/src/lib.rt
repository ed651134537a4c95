//! What is lawful of words and records.
#![tactic(auto)]

mod awaited;
mod collector;
mod job;
mod records;
mod stage;

pub use awaited::Awaited;
pub use collector::{CollectorMachine, CycleMachine, feed_collector, move_end_of, seek_end_of};
pub use job::{COMMON, first_plan};
pub use records::{CollectorKnown, Party, PassKnown, Sealed};
pub use stage::{Announcement, Marks, Stage};
