//! How links are fixed: a link to an object that has moved goes to where that object is now, in the fields of
//! objects and in the root words of passes that have ended.
#![tactic(auto)]

mod field_fix;
mod fix_walk;
mod moved_link;
mod root_fix;

pub use field_fix::FixMachine;
pub use fix_walk::{Area, Cursor, FixWalkMachine};
pub use root_fix::RootFixMachine;

#[cfg(test)]
mod tests;
