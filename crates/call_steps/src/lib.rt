//! Atomic steps on words: what one step does, machines that ask for one step after another, the
//! plain words of one thread on which machines can be played, and the law by which every turn of
//! every machine keeps what holds of the words.
#![tactic(auto)]

mod alone;
mod law;
mod machine;
mod plain_words;
mod step;

pub use alone::run_alone;
pub use law::{Law, Lawful};
pub use machine::{CallMachine, Machine};
pub use plain_words::{OutOfMemory, PlainWords};
pub use step::Step;

#[cfg(test)]
mod tests;
