//! The marks of Clover: the draws of candidates, and the search for a field that holds one as a value.
#![tactic(auto)]

mod candidates;
mod seek;

pub use candidates::Candidates;
pub use seek::{Cursor, MarkFound, Search, SeekEnd, SeekMarkMachine};

#[cfg(test)]
mod tests;
