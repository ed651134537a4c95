//! Printing a script.

ghost use Rattle.std.specs.Prelude.{◌≡◌, ◌<◌, ◌++◌, ◌∷◌, [], ◌+◌, List, IfOk, OnOk, Ok, decimal};
ghost use Rattle.heap_words.specs.declared.limits.TheConstants.{REGISTERS};
ghost use Rattle.std.specs.List.{flat_map};
ghost use Rattle.heap_script.specs.Scripts.{OperandFits, CommandFits, Fits};
ghost use Rattle.heap_script.specs.Grammar.{script_of};
ghost use Rattle.heap_script.specs.Text.{letter, place_word, operand_word, command_words, heading_words, later_words, line_words, line_text, text_of};

use crate::script::{Command, Line, Script};
use heap_history::OutOfMemory;
use heap_words::{Layout, Operand};
use itoa::Buffer;
use std::alloc::{AllocError, Global};

fn push_number(out: &mut Vec<u8>, n: u64) -> Result<(), AllocError>
    ensures { OnOk result (out.new.items ≡ out.old.items ++ decimal n) }
{
    let mut buffer = Buffer::new();
    out.extend_from_slice(buffer.format(n).as_bytes())?;
    Ok(())
}

fn push_letter(out: &mut Vec<u8>, r: u32) -> Result<(), AllocError>
    requires { r < REGISTERS }
    ensures { OnOk result (out.new.items ≡ out.old.items ++ letter r) }
{
    out.push(b'a' + r as u8)?;
    Ok(())
}

fn push_operand(out: &mut Vec<u8>, what: Operand) -> Result<(), AllocError>
    requires { OperandFits what }
    ensures { OnOk result (out.new.items ≡ out.old.items ++ operand_word what) }
{
    match what {
        Operand::Num(n) => push_number(out, n),
        Operand::Reg(r) => push_letter(out, r),
    }
}

fn push_place(out: &mut Vec<u8>, obj: u32, field: u32) -> Result<(), AllocError>
    requires { obj < REGISTERS }
    ensures { OnOk result (out.new.items ≡ out.old.items ++ place_word obj field) }
{
    push_letter(out, obj)?;
    out.push(b'.')?;
    push_number(out, u64::from(field))
}

/// The words of the command, with a space before each.
fn push_command(out: &mut Vec<u8>, command: Command) -> Result<(), AllocError>
    requires { CommandFits command }
    ensures { OnOk result (out.new.items ≡ out.old.items ++ flat_map (λ v. 32 ∷ v) (command_words command)) }
{
    match command {
        Command::New { dst, len } => {
            out.extend_from_slice(b" new ")?;
            push_letter(out, dst)?;
            out.push(b' ')?;
            push_number(out, u64::from(len))?;
        }
        Command::Get { dst, obj, field } => {
            out.extend_from_slice(b" get ")?;
            push_letter(out, dst)?;
            out.push(b' ')?;
            push_place(out, obj, field)?;
        }
        Command::Put { obj, field, what } => {
            out.extend_from_slice(b" put ")?;
            push_place(out, obj, field)?;
            out.push(b' ')?;
            push_operand(out, what)?;
        }
        Command::Cas {
            dst,
            obj,
            field,
            expected,
            value,
        } => {
            out.extend_from_slice(b" cas ")?;
            push_letter(out, dst)?;
            out.push(b' ')?;
            push_place(out, obj, field)?;
            out.push(b' ')?;
            push_operand(out, expected)?;
            out.push(b' ')?;
            push_operand(out, value)?;
        }
        Command::Copy { dst, src } => {
            out.extend_from_slice(b" copy ")?;
            push_letter(out, dst)?;
            out.push(b' ')?;
            push_letter(out, src)?;
        }
        Command::Drop { dst } => {
            out.extend_from_slice(b" drop ")?;
            push_letter(out, dst)?;
        }
        Command::Poll => out.extend_from_slice(b" poll")?,
    }
    Ok(())
}

fn push_line(out: &mut Vec<u8>, line: &Line) -> Result<(), AllocError>
    requires { CommandFits line.now.command }
    ensures { OnOk result (out.new.items ≡ out.old.items ++ line_text (line_words line.now)) }
{
    push_number(out, u64::from(line.thread))?;
    push_command(out, line.command)?;
    out.push(b'\n')?;
    Ok(())
}

/// A number and its name, with a space before each.
fn push_named(out: &mut Vec<u8>, n: u32, name: &[u8]) -> Result<(), AllocError>
    ensures { OnOk result (out.new.items ≡ out.old.items ++ flat_map (λ v. 32 ∷ v) (decimal n ∷ name.now ∷ [])) }
{
    out.push(b' ')?;
    push_number(out, u64::from(n))?;
    out.push(b' ')?;
    out.extend_from_slice(name)?;
    Ok(())
}

fn push_later_numbers(out: &mut Vec<u8>, layout: Layout, cycles: u32) -> Result<(), AllocError>
    ensures { OnOk result (out.new.items ≡ out.old.items ++ flat_map (λ v. 32 ∷ v) (later_words layout cycles)) }
{
    push_named(out, layout.pool(), b"pool")?;
    push_named(out, layout.wide(), b"wide")?;
    push_named(out, cycles, b"cycles")?;
    Ok(())
}

fn push_heading(out: &mut Vec<u8>, layout: Layout, cycles: u32) -> Result<(), AllocError>
    ensures { OnOk result (out.new.items ≡ out.old.items ++ line_text (heading_words layout cycles)) }
{
    out.extend_from_slice(b"heap")?;
    push_named(out, layout.passes(), b"threads")?;
    push_named(out, layout.quota(), b"quota")?;
    push_later_numbers(out, layout, cycles)?;
    out.push(b'\n')?;
    Ok(())
}

/// The text of the script: the heap line and the commands, with one space between words, numbers
/// without leading zeros, and LF after each line.
///
/// # Errors
///
/// `OutOfMemory`, which has no cause of its own.
pub fn print_script(alloc: Global, script: &Script) -> Result<Vec<u8>, OutOfMemory>
    requires { Fits script.now }
    ensures text { IfOk result (λ v. v.items ≡ text_of script.now) }
    // The text is read as the script.
    ensures again { script_of (text_of script.now) ≡ Ok script.now }
{
    let mut out = Vec::new(alloc);
    push_heading(&mut out, script.layout, script.cycles)?;
    for line in &script.lines {
        push_line(&mut out, line)?;
    }
    Ok(out)
}
