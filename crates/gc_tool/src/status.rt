//! How the program ends.

ghost use Rattle.std.specs.Prelude.{◌≡◌};
ghost use Rattle.std.specs.Process.{exit_status};
ghost use Rattle.gc_tool.specs.Statuses.{exit_of, kind_text as kind_text_of, text_of};

use arrayvec::ArrayString;
use call_steps::OutOfMemory;
use heap_script::FaultKind;
use itoa::Buffer;
use std::process::ExitCode;

/// How a call of the program ended. With any other status than `Done` and `WriteFault` nothing was written.
#[derive(Clone, Copy, Debug, PartialEq, Eq)]
pub enum Status {
    /// The whole output was written.
    Done,
    /// The words are no form: the index of the first that is wrong, counted from 0, or the number of words where one
    /// is missing.
    Usage { index: u32 },
    /// The source failed.
    ReadFault,
    /// The source gave more than 1,048,576 bytes.
    TooLong,
    /// The first line of the script that is at fault, counted from 1, and what is wrong with it.
    ScriptFault { line: u32, kind: FaultKind },
    /// The sink failed. A prefix of the output was written.
    WriteFault,
    /// This number of steps was taken, and a party had not ended.
    StepsSpent { n: u64 },
    /// Memory ran out.
    OutOfMemory,
    /// The words or the input have a form that the program does not know yet.
    NotBuilt,
}

impl From<OutOfMemory> for Status {
    ghost use Rattle.gc_tool.specs.declared.status.Status.TheVariants as statuses;

    ghost from_gives = { λ _ status. status ≡ statuses.OutOfMemory };

    fn from(_failed: OutOfMemory) -> Status {
        Status::OutOfMemory
    }
}

/// The number of a status, with which the program exits.
pub fn exit_status(status: &Status) -> u8
    ensures { result ≡ exit_of status.now }
{
    match status {
        Status::Done => 0,
        Status::Usage { .. } => 1,
        Status::ReadFault => 2,
        Status::TooLong => 3,
        Status::ScriptFault { .. } => 4,
        Status::WriteFault => 5,
        Status::StepsSpent { .. } => 7,
        Status::OutOfMemory => 8,
        Status::NotBuilt => 9,
    }
}

/// The code with which the program exits.
pub fn exit_code(status: &Status) -> ExitCode
    ensures { exit_status result ≡ exit_of status.now }
{
    ExitCode::from(exit_status(status))
}

/// What is wrong with a line.
fn kind_text(kind: FaultKind) -> &'static str
    ensures { result.now ≡ kind_text_of kind }
{
    match kind {
        FaultKind::NoHeapLine => "no heap line",
        FaultKind::BadWord => "bad word",
        FaultKind::BadNumber => "bad number",
        FaultKind::BadThread => "bad thread",
        FaultKind::BadRegister => "bad register",
        FaultKind::TooManyLines => "too many lines",
        FaultKind::NotAscii => "not ascii",
        FaultKind::BadLayout => "bad layout",
    }
}

/// What is said on standard error, with no line end. It is empty for `Done`.
pub fn status_text(status: &Status) -> ArrayString<160>
    ensures { result.bytes ≡ text_of status.now }
{
    let mut text = ArrayString::new();
    match status {
        Status::Done => {}
        Status::Usage { index } => {
            let mut digits = Buffer::new();
            text.push_str("gc_tool: usage, word ");
            text.push_str(digits.format(*index));
        }
        Status::ReadFault => text.push_str("gc_tool: reading failed"),
        Status::TooLong => text.push_str("gc_tool: input too long"),
        Status::ScriptFault { line, kind } => {
            let mut digits = Buffer::new();
            text.push_str("gc_tool: line ");
            text.push_str(digits.format(*line));
            text.push_str(", ");
            text.push_str(kind_text(*kind));
        }
        Status::WriteFault => text.push_str("gc_tool: writing failed"),
        Status::StepsSpent { n } => {
            let mut digits = Buffer::new();
            text.push_str("gc_tool: ");
            text.push_str(digits.format(*n));
            text.push_str(" steps spent");
        }
        Status::OutOfMemory => text.push_str("gc_tool: out of memory"),
        Status::NotBuilt => text.push_str("gc_tool: not built yet"),
    }
    text
}
