//! Why a script could not be read or printed.

ghost use Rattle.std.specs.Prelude.{◌≡◌};
ghost use Rattle.heap_script.specs.declared.fault.ReadScriptFault.TheVariants as faults;

use std::alloc::{AllocError, AllocFailed};

/// What is wrong with a line.
#[derive(Clone, Copy, Debug, PartialEq, Eq)]
pub enum FaultKind {
    /// A line stands before the heap line, or there is no heap line.
    NoHeapLine,
    /// A word is missing, is another than the one due, or stands after the last one due.
    BadWord,
    /// A word is no number, or a number of a command is out of its range.
    BadNumber,
    /// The thread is no number from 1 to the number of threads.
    BadThread,
    /// A register is no letter `a` to `h`.
    BadRegister,
    /// 65,536 commands stand before this one.
    TooManyLines,
    /// A byte is outside 32 to 126.
    NotAscii,
    /// A number of the heap line is out of its range.
    BadLayout,
}

/// Why a script could not be read.
#[derive(Clone, Copy, Debug, PartialEq, Eq)]
pub enum ReadScriptFault {
    /// The first line that is at fault, counted from 1, and what is wrong with it.
    Script { line: u32, kind: FaultKind },
    /// Memory ran out.
    OutOfMemory,
}

impl From<AllocError> for ReadScriptFault {
    ghost from_gives = { λ _ e. e ≡ faults.OutOfMemory };

    fn from(_e: AllocError) -> ReadScriptFault {
        ReadScriptFault::OutOfMemory
    }
}

impl<T: Drop> From<AllocFailed<T>> for ReadScriptFault {
    ghost from_gives = { λ _ e. e ≡ faults.OutOfMemory };

    fn from(_e: AllocFailed<T>) -> ReadScriptFault {
        ReadScriptFault::OutOfMemory
    }
}
