//! The lines of a history.

ghost use Rattle.std.specs.Prelude.{◌≡◌, [], ◌∷◌, ◌++◌, OnOk, decimal, codes};
ghost use Rattle.std.specs.List.{flat_map};
ghost use Rattle.heap_report.specs.Words.{place_word, value_word};
ghost use Rattle.heap_report.specs.Entries.{thread_of, call_words, entry_text};

use crate::words::{
    push_differs, push_place, push_spaced_number, push_spaced_object, push_spaced_value, push_word,
};
use heap_history::{Call, Entry, Reply, Value};
use std::alloc::AllocError;

/// What a call does, and where.
fn push_access(out: &mut Vec<u8>, name: &[u8], object: u32, field: u32) -> Result<(), AllocError>
    ensures { OnOk result (out.new.items ≡ out.old.items ++ flat_map (λ v. 32 ∷ v) (name.now ∷ place_word object field ∷ [])) }
{
    push_word(out, name)?;
    out.push(b' ')?;
    push_place(out, object, field)
}

fn push_new(
    out: &mut Vec<u8>,
    pass: u32,
    birth: u32,
    len: u32,
    reply: Reply,
) -> Result<(), AllocError>
    ensures { OnOk result (out.new.items ≡ out.old.items ++ flat_map (λ v. 32 ∷ v) (decimal pass ∷ call_words (Call.NewObject pass birth len) reply)) }
{
    push_spaced_number(out, pass)?;
    if let Reply::Made = reply {
        push_word(out, b"new")?;
        push_spaced_object(out, birth)?;
        push_spaced_number(out, len)?;
        push_word(out, b"made")?;
    }
    Ok(())
}

fn push_read(
    out: &mut Vec<u8>,
    pass: u32,
    object: u32,
    field: u32,
    reply: Reply,
) -> Result<(), AllocError>
    ensures { OnOk result (out.new.items ≡ out.old.items ++ flat_map (λ v. 32 ∷ v) (decimal pass ∷ call_words (Call.Read pass object field) reply)) }
{
    push_spaced_number(out, pass)?;
    if let Reply::Got(value) = reply {
        push_access(out, b"get", object, field)?;
        push_word(out, b"got")?;
        push_spaced_value(out, value)?;
    }
    Ok(())
}

fn push_write(
    out: &mut Vec<u8>,
    pass: u32,
    object: u32,
    field: u32,
    value: Value,
    reply: Reply,
) -> Result<(), AllocError>
    ensures { OnOk result (out.new.items ≡ out.old.items ++ flat_map (λ v. 32 ∷ v) (decimal pass ∷ call_words (Call.Write pass object field value) reply)) }
{
    push_spaced_number(out, pass)?;
    if let Reply::Wrote = reply {
        push_access(out, b"put", object, field)?;
        push_spaced_value(out, value)?;
        push_word(out, b"wrote")?;
    }
    Ok(())
}

/// An exchange, up to its reply.
fn push_compared(
    out: &mut Vec<u8>,
    pass: u32,
    object: u32,
    field: u32,
    expected: Value,
    value: Value,
) -> Result<(), AllocError>
    ensures { OnOk result (out.new.items ≡ out.old.items ++ flat_map (λ v. 32 ∷ v) (decimal pass ∷ codes "cas" ∷ place_word object field ∷ value_word expected ∷ value_word value ∷ [])) }
{
    push_spaced_number(out, pass)?;
    push_access(out, b"cas", object, field)?;
    push_spaced_value(out, expected)?;
    push_spaced_value(out, value)
}

/// An exchange has a line where it was done and where the value differs.
fn push_exchange(
    out: &mut Vec<u8>,
    pass: u32,
    object: u32,
    field: u32,
    expected: Value,
    value: Value,
    reply: Reply,
) -> Result<(), AllocError>
    ensures { OnOk result (out.new.items ≡ out.old.items ++ flat_map (λ v. 32 ∷ v) (decimal pass ∷ call_words (Call.Exchange pass object field expected value) reply)) }
{
    match reply {
        Reply::Done => {
            push_compared(out, pass, object, field, expected, value)?;
            push_word(out, b"done")
        }
        Reply::Differs(other) => {
            push_compared(out, pass, object, field, expected, value)?;
            push_differs(out, other)
        }
        _ => push_spaced_number(out, pass),
    }
}

fn push_call(out: &mut Vec<u8>, call: Call, reply: Reply) -> Result<(), AllocError>
    ensures { OnOk result (out.new.items ≡ out.old.items ++ flat_map (λ v. 32 ∷ v) (decimal (thread_of call) ∷ call_words call reply)) }
{
    match call {
        Call::NewObject { pass, birth, len } => push_new(out, pass, birth, len, reply),
        Call::Read {
            pass,
            object,
            field,
        } => push_read(out, pass, object, field, reply),
        Call::Write {
            pass,
            object,
            field,
            value,
        } => push_write(out, pass, object, field, value, reply),
        Call::Exchange {
            pass,
            object,
            field,
            expected,
            value,
        } => push_exchange(out, pass, object, field, expected, value, reply),
    }
}

/// The line of an entry.
pub fn push_entry(out: &mut Vec<u8>, entry: &Entry) -> Result<(), AllocError>
    ensures { OnOk result (out.new.items ≡ out.old.items ++ entry_text entry.now) }
{
    out.extend_from_slice(b"entry")?;
    push_call(out, entry.call, entry.reply)?;
    out.push(b'\n')?;
    Ok(())
}
