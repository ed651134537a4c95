//! A heap whose objects never move, and which histories are legal in it.
#![tactic(auto)]

mod arranging;
mod call;
mod check;
mod fixed_heap;

pub use arranging::arrange;
pub use call::{Call, Ended, Entry, Reply, Value};
pub use check::{CheckFault, check_history};
pub use fixed_heap::{FixedHeap, OutOfMemory};

#[cfg(test)]
mod tests;
