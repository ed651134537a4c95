//! What an object's header says, and how it may change.
#![tactic(auto)]

mod change;
mod header;

pub use change::{Kind, allowed_change};
pub use header::{Colour, Header, State};
