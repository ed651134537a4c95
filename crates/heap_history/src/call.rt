//! Calls of a heap and their replies.

ghost use Rattle.std.specs.Prelude.{◌≡◌};

/// What a field holds: a number below 2^48, or an object, named by its birth number. The object that is
/// there from the start has birth number 1, and the s-th object of pass p has p * 524,288 + s.
#[derive(Clone, Copy, Debug, PartialEq, Eq)]
pub enum Value {
    Num(u64),
    Object(u32),
}

/// A call of the pass on the heap. Fields are counted from 0.
#[derive(Clone, Copy, Debug, PartialEq, Eq)]
pub enum Call {
    NewObject {
        pass: u32,
        birth: u32,
        len: u32,
    },
    Read {
        pass: u32,
        object: u32,
        field: u32,
    },
    Write {
        pass: u32,
        object: u32,
        field: u32,
        value: Value,
    },
    Exchange {
        pass: u32,
        object: u32,
        field: u32,
        expected: Value,
        value: Value,
    },
}

/// What the heap replied. `Differs` has the value that the field held in place of the expected one, and
/// `NotThere` says that the call names something that is not in the heap.
#[derive(Clone, Copy, Debug, PartialEq, Eq)]
pub enum Reply {
    Made,
    Got(Value),
    Wrote,
    Done,
    Differs(Value),
    NotThere,
}

impl Reply {
    ghost use Rattle.heap_history.specs.Histories.{is_change};

    /// Whether a call with this reply is a change: a new object, a write, or an exchange that was done.
    pub fn is_change(self) -> bool
        ensures { result ≡ is_change self }
    {
        matches!(self, Reply::Made | Reply::Wrote | Reply::Done)
    }
}

/// A call and its reply, as one line of a history.
#[derive(Clone, Copy, Debug, PartialEq, Eq)]
pub struct Entry {
    pub call: Call,
    pub reply: Reply,
}

/// A call that has ended, with its reply and its front: of a change how many changes there were with it, of a
/// look how many changes it saw.
#[derive(Clone, Copy, Debug, PartialEq, Eq)]
pub struct Ended {
    pub call: Call,
    pub reply: Reply,
    pub front: u32,
}
