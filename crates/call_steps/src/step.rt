//! One atomic step on one word.

/// The step that a machine wants next: the address of a word, and what is done to that word. Each
/// step finds the word that stood there before it.
#[derive(Clone, Copy, Debug, PartialEq, Eq)]
pub enum Step {
    /// Leaves the word.
    Load { at: u32 },
    /// Puts `put`, whatever stands there.
    Store { at: u32, put: u64 },
    /// Puts `put` where the word is `want`, and otherwise leaves the word.
    Exchange { at: u32, want: u64, put: u64 },
    /// Adds `by` to the word. The sum wraps at 2^64.
    Add { at: u32, by: u64 },
    /// Takes `by` from the word. The difference wraps at 0.
    Sub { at: u32, by: u64 },
    /// No step: the machine has ended.
    Ended,
}
