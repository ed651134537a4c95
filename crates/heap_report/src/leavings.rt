//! The lines of what is left of a heap.

ghost use Rattle.std.specs.Prelude.{◌≡◌, ◌<◌, ◌^◌, ◌++◌, length, OnOk};
ghost use Rattle.heap_report.specs.Leavings.{left_text, all_left_text, object_text};

use crate::words::{push_spaced_number, push_spaced_object, push_values};
use cycle_journal::ObjectLine;
use heap_history::Value;
use heap_words::REGISTERS;
use std::alloc::AllocError;

/// The registers of a thread as it ended.
fn push_left(out: &mut Vec<u8>, thread: u32, registers: &[Value]) -> Result<(), AllocError>
    ensures { OnOk result (out.new.items ≡ out.old.items ++ left_text thread registers.now) }
{
    out.extend_from_slice(b"left")?;
    push_spaced_number(out, thread)?;
    push_values(out, registers)?;
    out.push(b'\n')?;
    Ok(())
}

/// The registers of all threads, thread 1's first.
pub fn push_all_left(out: &mut Vec<u8>, left: &[[Value; REGISTERS]]) -> Result<(), AllocError>
    requires { length left.now < 2 ^ 31 }
    ensures { OnOk result (out.new.items ≡ out.old.items ++ all_left_text 1 left.now) }
{
    let mut thread = 1u32;
    for registers in left {
        push_left(out, thread, registers)?;
        thread += 1;
    }
    Ok(())
}

/// An object that is left, with its fields.
pub fn push_object_line(out: &mut Vec<u8>, object: &ObjectLine) -> Result<(), AllocError>
    ensures { OnOk result (out.new.items ≡ out.old.items ++ object_text object.now) }
{
    out.extend_from_slice(b"object")?;
    push_spaced_object(out, object.birth)?;
    push_spaced_number(out, object.at)?;
    push_values(out, &object.fields)?;
    out.push(b'\n')?;
    Ok(())
}
