//! The walk that notes what is live: which regions of the pool are Free, which regions are Filled, how many words
//! their live objects take, and where these objects are.
#![tactic(auto)]

mod note;
mod noted;

pub use note::{Finding, NoteMachine, Walk};
pub use noted::Noted;

#[cfg(test)]
mod tests;
