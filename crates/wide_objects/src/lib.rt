//! Words with a value and a status, which change together.
#![tactic(auto)]

mod wide_word;

pub use wide_word::{Status2, WideWord, allowed_change};
