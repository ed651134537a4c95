//! Words of a text.

ghost use Rattle.std.specs.Prelude.{◌≡◌, [], ◌∷◌, ◌++◌, map, OnOk, decimal, codes};
ghost use Rattle.std.specs.List.{flat_map};
ghost use Rattle.heap_report.specs.Words.{object_word, place_word, value_word};

use heap_history::Value;
use heap_words::BIRTHS_BETWEEN_PASSES;
use itoa::Buffer;
use std::alloc::AllocError;

/// A number in decimal.
pub fn push_number(out: &mut Vec<u8>, n: u64) -> Result<(), AllocError>
    ensures { OnOk result (out.new.items ≡ out.old.items ++ decimal n) }
{
    let mut buffer = Buffer::new();
    out.extend_from_slice(buffer.format(n).as_bytes())
}

/// The name of an object, `#p.s`.
pub fn push_object(out: &mut Vec<u8>, birth: u32) -> Result<(), AllocError>
    ensures { OnOk result (out.new.items ≡ out.old.items ++ object_word birth) }
{
    out.push(b'#')?;
    push_number(out, u64::from(birth / BIRTHS_BETWEEN_PASSES))?;
    out.push(b'.')?;
    push_number(out, u64::from(birth % BIRTHS_BETWEEN_PASSES))
}

/// The name of a field, `#p.s.f`.
pub fn push_place(out: &mut Vec<u8>, object: u32, field: u32) -> Result<(), AllocError>
    ensures { OnOk result (out.new.items ≡ out.old.items ++ place_word object field) }
{
    push_object(out, object)?;
    out.push(b'.')?;
    push_number(out, u64::from(field))
}

/// A number or an object.
pub fn push_value(out: &mut Vec<u8>, value: Value) -> Result<(), AllocError>
    ensures { OnOk result (out.new.items ≡ out.old.items ++ value_word value) }
{
    match value {
        Value::Num(n) => push_number(out, n),
        Value::Object(birth) => push_object(out, birth),
    }
}

/// A space, and the word.
pub fn push_word(out: &mut Vec<u8>, word: &[u8]) -> Result<(), AllocError>
    ensures { OnOk result (out.new.items ≡ out.old.items ++ 32 ∷ word.now) }
{
    out.push(b' ')?;
    out.extend_from_slice(word)
}

pub fn push_spaced_number(out: &mut Vec<u8>, n: u32) -> Result<(), AllocError>
    ensures { OnOk result (out.new.items ≡ out.old.items ++ 32 ∷ decimal n) }
{
    out.push(b' ')?;
    push_number(out, u64::from(n))
}

pub fn push_spaced_object(out: &mut Vec<u8>, birth: u32) -> Result<(), AllocError>
    ensures { OnOk result (out.new.items ≡ out.old.items ++ 32 ∷ object_word birth) }
{
    out.push(b' ')?;
    push_object(out, birth)
}

pub fn push_spaced_value(out: &mut Vec<u8>, value: Value) -> Result<(), AllocError>
    ensures { OnOk result (out.new.items ≡ out.old.items ++ 32 ∷ value_word value) }
{
    out.push(b' ')?;
    push_value(out, value)
}

/// What differs.
pub fn push_differs(out: &mut Vec<u8>, value: Value) -> Result<(), AllocError>
    ensures { OnOk result (out.new.items ≡ out.old.items ++ flat_map (λ v. 32 ∷ v) (codes "differs" ∷ value_word value ∷ [])) }
{
    push_word(out, b"differs")?;
    push_spaced_value(out, value)
}

/// A name, and how many there are of it.
pub fn push_count(out: &mut Vec<u8>, name: &[u8], n: u64) -> Result<(), AllocError>
    ensures { OnOk result (out.new.items ≡ out.old.items ++ flat_map (λ v. 32 ∷ v) (name.now ∷ decimal n ∷ [])) }
{
    push_word(out, name)?;
    out.push(b' ')?;
    push_number(out, n)
}

/// A space before each value, and the value.
pub fn push_values(out: &mut Vec<u8>, values: &[Value]) -> Result<(), AllocError>
    ensures { OnOk result (out.new.items ≡ out.old.items ++ flat_map (λ v. 32 ∷ v) (map value_word values.now)) }
{
    for value in values {
        push_spaced_value(out, *value)?;
    }
    Ok(())
}
