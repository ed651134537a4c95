//! The copier Chicken: a call that is about to write in an object that is to be copied aborts the copy.
#![tactic(auto)]

mod chicken;
mod exchange;
mod mover;
mod read;
mod write;

pub use chicken::Chicken;
pub use exchange::ChickenExchange;
pub use mover::{ChickenMove, MoveHeaders};
pub use read::ChickenRead;
pub use write::ChickenWrite;

#[cfg(test)]
mod tests;
