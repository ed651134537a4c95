//! Reading a script.

ghost use Rattle.std.specs.Prelude.{◌≡◌, ◌≤◌, ◌<◌, ◌^◌, ◌+◌, ◌∷◌, ◌++◌, List, length, IfOk, IfErr, OnOk, All, Ok, Err, IsTrue, count_by, ◌==◌};
ghost use Rattle.std.specs.Option.{option_to_list};
ghost use Rattle.std.specs.Str.Lines.{lines};
ghost use Rattle.heap_script.specs.Scripts.{Reading, Fits, LineFits};
ghost use Rattle.heap_script.specs.Gives.{Reads, IsAnswer, IfScriptFault};
ghost use Rattle.heap_script.specs.Grammar.{Fault, commands_from, script_from, script_of, has_heap_line};
ghost use Rattle.heap_script.specs.declared.fault.ReadScriptFault.TheVariants.{OutOfMemory};
ghost use Rattle.heap_script.specs.FirstFault.{IsScript, IsFault};
ghost use Rattle.heap_script.specs.Text.{text_of};

use crate::command_lines::command_line;
use crate::fault::{FaultKind, ReadScriptFault};
use crate::heading::heap_line;
use crate::script::{Line, Script};
use crate::words::next_line;
use std::alloc::{AllocError, Global};

/// Pushes the command that a line said, if it said one.
fn push_said(found: &mut Vec<Line>, said: Option<Line>) -> Result<(), AllocError>
    ensures { OnOk result (found.new.items ≡ found.old.items ++ option_to_list said) }
{
    if let Some(line) = said {
        found.push(line)?;
    }
    Ok(())
}

/// The commands of the lines, the first of which is line `first` of the script.
fn commands(
    alloc: Global,
    passes: u32,
    first: u32,
    bytes: &[u8],
) -> Result<Vec<Line>, ReadScriptFault>
    requires { first + length bytes.now < 2 ^ 32 }
    ensures exact { Reads (λ v. v.items) result (commands_from passes first 0 (lines bytes.now)) }
    ensures fits { IfOk result (λ v. (length v.items ≤ 65536) × All (LineFits passes) v.items) }
{
    let mut found = Vec::new(alloc);
    let mut rest = bytes;
    let mut number = first;
    while !rest.is_empty() {
        let (line, after) = next_line(rest);
        match command_line(passes, found.len(), line) {
            Err(kind) => return Err(ReadScriptFault::Script { line: number, kind }),
            Ok(said) => push_said(&mut found, said)?,
        }
        rest = after;
        number += 1;
    }
    Ok(found)
}

/// The number of LF bytes.
fn line_ends(bytes: &[u8]) -> usize
    ensures { result ≡ count_by (λ b. b == 10) bytes.now }
{
    bytes.iter().filter(|b| **b == b'\n').count()
}

/// The script of the lines, or the first fault.
#[tactic(auto, unfolding(crate::specs::Grammar::script_of))]
fn script(alloc: Global, bytes: &[u8]) -> Result<Script, ReadScriptFault>
    requires { length bytes.now < 2 ^ 31 }
    ensures exact { IsAnswer result (script_of bytes.now) }
    ensures fits { IfOk result Fits }
    ensures memory { result ≡ Err OutOfMemory → IsTrue (has_heap_line (lines bytes.now)) }
{
    let mut rest = bytes;
    let mut number = 1;
    while !rest.is_empty() {
        let (line, after) = next_line(rest);
        match heap_line(line) {
            Err(kind) => return Err(ReadScriptFault::Script { line: number, kind }),
            Ok(None) => {}
            Ok(Some((layout, cycles))) => {
                let lines = commands(alloc, layout.passes(), number + 1, after)?;
                return Ok(Script {
                    layout,
                    cycles,
                    lines,
                });
            }
        }
        rest = after;
        number += 1;
    }
    Err(ReadScriptFault::Script {
        line: 1 + line_ends(bytes) as u32,
        kind: FaultKind::NoHeapLine,
    })
}

/// The script that the bytes spell.
///
/// # Errors
///
/// `Script` with the first line that is at fault, and `OutOfMemory`, which has no cause of its own.
pub fn read_script(alloc: Global, bytes: &[u8]) -> Result<Script, ReadScriptFault>
    requires { length bytes.now < 2 ^ 31 }

    // No line has a fault, and what they say is the script, whose numbers are in their ranges.
    ensures found { IfOk result (IsScript bytes.now) }
    ensures fits { IfOk result Fits }

    // A fault is that of the first line that has one, or there is no heap line.
    ensures fault { IfErr result (λ e. IfScriptFault e (IsFault bytes.now)) }

    // A script is read, and what has a fault is refused with it, unless memory runs out.
    ensures reads { (s : Reading) → IsScript bytes.now s → IsAnswer result (Ok s) }
    ensures refuses { (f : Fault) → IsFault bytes.now f → IsAnswer result (Err f) }

    // The text of a script is read as that script, unless memory runs out.
    ensures again { (s : Reading) → Fits s → bytes.now ≡ text_of s → IsAnswer result (Ok s) }

    // Which script or fault it is, unless memory runs out.
    ensures exact { IsAnswer result (script_of bytes.now) }

    // Nothing is taken before the heap line: a fault up to it is told however little memory there is.
    ensures memory { result ≡ Err OutOfMemory → IsTrue (has_heap_line (lines bytes.now)) }
{
    script(alloc, bytes)
}
