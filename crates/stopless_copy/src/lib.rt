//! The copier Stopless: writers go on while an object is copied through a wide object, field by field.
#![tactic(auto)]

mod exchange;
mod mover;
mod packed;
mod read;
mod stopless;
mod write;

pub use exchange::{StoplessExchange, WideErrand};
pub use mover::{Carry, MoveHeaders, MoveTask, StoplessMove};
pub use read::{StoplessRead, WideRead};
pub use stopless::Stopless;
pub use write::{StoplessWrite, WideWrite};

#[cfg(test)]
mod tests;
