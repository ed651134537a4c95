//! Reading the whole input.

ghost use Rattle.std.specs.Prelude.{◌≡◌, ◌<◌, ◌≤◌, ◌↔◌, length, IfOk, IfErr, IsErrOf};
ghost use Rattle.gc_tool.specs.Outside.{Rose, ReadsAll, Gave};
ghost use Rattle.gc_tool.specs.Statuses.{IsOfReading};

use crate::source::Source;
use crate::status::Status;
use std::alloc::Global;

/// The longest input, in bytes.
const INPUT_LIMIT: usize = 1_048_576;

/// How many bytes are asked for in a call.
const BUFFER: usize = 65_536;

/// Reads to the end of the source and gives all its bytes.
///
/// # Errors
///
/// `ReadFault` where a call of the source fails, `TooLong` where more than 1,048,576 bytes were given, and
/// `OutOfMemory`, which has no cause of its own. No call follows one that failed.
pub fn read_all<S: Source>(alloc: Global, source: &mut S) -> Result<Vec<u8>, Status>
    ensures all { IfOk result (λ bytes. ReadsAll (S.left source.old) (S.left source.new) bytes.items) }
    ensures short { IfOk result (λ bytes. length bytes.items ≤ 1048576) }
    ensures too_long { Gave (S.left source.old) (S.left source.new)
        (λ given. IsErrOf result Status.TooLong ↔ (1048576 < length given)) }
    ensures read_fault { IsErrOf result Status.ReadFault → Rose (S.faults source.old) (S.faults source.new) }
    ensures went_well { (IsErrOf result Status.ReadFault → ⊥) → S.faults source.new ≡ S.faults source.old }
    ensures only { IfErr result IsOfReading }
{
    let mut buffer = vec![in alloc; 0u8; BUFFER]?;
    read_by(alloc, source, &mut buffer)
}

// The same through a buffer of any length.
fn read_by<S: Source>(alloc: Global, source: &mut S, buffer: &mut [u8]) -> Result<Vec<u8>, Status>
    requires { 0 < length buffer.old }
    ensures all { IfOk result (λ bytes. ReadsAll (S.left source.old) (S.left source.new) bytes.items) }
    ensures short { IfOk result (λ bytes. length bytes.items ≤ 1048576) }
    ensures too_long { Gave (S.left source.old) (S.left source.new)
        (λ given. IsErrOf result Status.TooLong ↔ (1048576 < length given)) }
    ensures read_fault { IsErrOf result Status.ReadFault → Rose (S.faults source.old) (S.faults source.new) }
    ensures went_well { (IsErrOf result Status.ReadFault → ⊥) → S.faults source.new ≡ S.faults source.old }
    ensures only { IfErr result IsOfReading }
{
    let mut bytes = Vec::new(alloc);
    loop {
        let Ok(count) = source.take(buffer) else {
            return Err(Status::ReadFault);
        };
        if count == 0 {
            return Ok(bytes);
        }
        if count > INPUT_LIMIT - bytes.len() {
            return Err(Status::TooLong);
        }
        bytes.extend_from_slice(&buffer[..count])?;
    }
}
