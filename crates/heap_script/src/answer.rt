//! What the commands of a script are answered.

use heap_history::Value;

/// The answer to one command.
#[derive(Clone, Copy, Debug, PartialEq, Eq)]
pub enum Answer {
    /// `new` made the object with this birth number.
    Made(u32),
    /// `new` found no room.
    Full,
    /// `get` read this value.
    Got(Value),
    /// `put`, `copy`, `drop` or `poll` was done.
    Ok,
    /// `cas` wrote.
    Done,
    /// `cas` found this value, which is not the expected one.
    Differs(Value),
    /// The register that should name an object holds a number.
    NotLink,
    /// The object has this many fields, and the command's field is none of them.
    NoField(u32),
}

/// The answers of each thread in the order of its commands, thread 1's list first.
#[derive(Debug, Drop)]
pub struct Answers {
    pub lists: Vec<Vec<Answer>>,
}
