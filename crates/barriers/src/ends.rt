//! What calls end with, and why a call is refused.

use crate::room::Room;
use heap_words::FieldWord;

/// Why a read, and a write or an exchange that is tried until it is not raced, is refused.
#[derive(Clone, Copy, Debug, PartialEq, Eq)]
pub enum AccessRefusal {
    /// The register that should name the object holds a number.
    NotLink,
    /// The field is at or past `len`, the object's number of fields.
    NoField { len: u32 },
}

/// Why one try of a write or an exchange is refused. The field is as it was, but for what others did.
#[derive(Clone, Copy, Debug, PartialEq, Eq)]
pub enum TryRefusal {
    /// The register that should name the object holds a number.
    NotLink,
    /// The field is at or past `len`, the object's number of fields.
    NoField { len: u32 },
    /// The third exchange of this call at one word wanted `loaded` there and found another word, `found`.
    /// For an exchange both have the expected value.
    Raced { loaded: u64, found: u64 },
    /// The word to write is `mark`, which in this cycle stands for values that have moved.
    Busy { cycle: u32, mark: u64 },
}

/// What a read ends with.
#[derive(Clone, Copy, Debug, PartialEq, Eq)]
pub enum ReadEnd {
    /// The field holds this.
    Got(FieldWord),
    /// The field is at or past `len`, the object's number of fields.
    NoField { len: u32 },
}

/// What one try of a write ends with.
#[derive(Clone, Copy, Debug, PartialEq, Eq)]
pub enum WriteEnd {
    /// The field holds the new word.
    Wrote,
    /// Nothing was written.
    Refused(TryRefusal),
}

/// What one try of an exchange ends with.
#[derive(Clone, Copy, Debug, PartialEq, Eq)]
pub enum ExchangeEnd {
    /// The field held the expected value, and holds the new word.
    Done,
    /// The field holds this, which has another value than the expected one.
    Differs(FieldWord),
    /// Nothing was written.
    Refused(TryRefusal),
}

/// Why no object is made.
#[derive(Clone, Copy, Debug, PartialEq, Eq)]
pub enum NewRefusal {
    /// The object does not fit the pass's region, and none of the pass's own `regions` is free.
    QuotaSpent { regions: u32 },
    /// The pass has made as many objects as it has birth numbers for.
    BirthsSpent,
}

/// What the making of an object ends with.
#[derive(Clone, Copy, Debug, PartialEq, Eq)]
pub enum NewEnd {
    /// The object `birth` stands at `at`, and the pass makes its next one in `room`.
    Made { birth: u32, at: u32, room: Room },
    /// No object is made.
    Refused(NewRefusal),
}

/// What a move ends with.
#[derive(Clone, Copy, Debug, PartialEq, Eq)]
pub enum MoveEnd {
    /// The object is at its new place.
    Moved,
    /// The object stays where it is: its header has this word.
    Kept { header: u64 },
}
