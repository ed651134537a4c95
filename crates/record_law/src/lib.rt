//! The law of words and records, over any copier.
#![tactic(auto)]

mod law;

pub use law::{Opening, Records};
